// A case is a head of 28 units and a body of twelve sections. The head has the function's number; the rate
// (two units); how long the slices are that it gets: words, samples, store, positions, floats, progress and
// order; what it must answer: a number, a place (two units) and the floats needed (two units); and where
// each section starts and the last one ends. Each entry of a section says a place and what is put there. The
// first section has the stages' words. Five have the samples, store, positions, floats and progress at
// entry, 0 where nothing is said. One has the order. The last five have what the call changes of the samples
// and the others.
ghost use Rattle.std.specs.Prelude.{◌≤◌, ◌<◌, length};

use crate::call::call;
use crate::head::{Head, read_head};
use crate::held::Held;
use crate::units::{Unit, float, number, place, word};
use std::io;
use std::io::Read;

// The section of the stages' words.
const WORDS: usize = 0;

// The first of the five sections of what is held at entry.
const AT_ENTRY: usize = 1;

// The order's section.
const ORDER: usize = 6;

// The first of the five sections of what the call changes.
const CHANGES: usize = 7;

// What came of a call: the number that it answered, and whether it answered and left what the case says.
// Both values are always there, so it is a record and no enum.
#[derive(Clone, Copy)]
pub(crate) struct Judged {
    pub number: u32,
    pub is_same: bool,
}

#[derive(Clone, Copy)]
struct Case<'a> {
    head: Head,
    body: &'a [Unit; 65535],
}

impl Case<'_> {
    // Puts what the entries of section k say, each of so many units: those that begin in the section.
    fn put<T: Drop, F: Fn(&[Unit]) -> T>(&self, k: usize, units: usize, items: &mut [T], value: F)
        requires section { k < 12 }
        requires units { 0 < units }
        requires value { F.IsAlwaysCallable value }
    {
        let from = usize::from(self.head.starts[k]);
        let to = usize::from(self.head.starts[k + 1]);
        let entries = to.saturating_sub(from).div_ceil(units);
        let body = self.body;
        for entry in body[from..].chunks(units).take(entries) {
            if let Some(item) = items.get_mut(place(entry)) {
                *item = value(entry);
            }
        }
    }

    // Puts what section k and the four after it say.
    fn put_all(&self, k: usize, held: &mut Held)
        requires { k < 8 }
    {
        self.put(k, 3, &mut held.samples, float);
        self.put(k + 1, 3, &mut held.store, float);
        self.put(k + 2, 2, &mut held.positions, number);
        self.put(k + 3, 3, &mut held.floats, float);
        self.put(k + 4, 2, &mut held.progress, number);
    }

    fn judge(&self) -> Judged {
        let mut words = [0; 252];
        self.put(WORDS, 5, &mut words, word);
        let mut order = [0; 256];
        self.put(ORDER, 2, &mut order, number);
        let mut held = Held::zero();
        self.put_all(AT_ENTRY, &mut held);
        let mut expected = held;
        self.put_all(CHANGES, &mut expected);
        let told = call(&self.head, &mut words, &mut order, &mut held);
        Judged {
            number: told.number,
            is_same: told == self.head.told && held.is_same(&expected),
        }
    }
}

fn read_body(input: &mut impl Read, body: &mut [Unit], n: usize) -> io::Result<()>
    requires { n ≤ length body.old }
{
    input.read_exact(body[..n].as_flattened_mut())
}

pub(crate) fn next_case(input: &mut impl Read) -> io::Result<Judged> {
    let head = read_head(input)?;
    let mut body = [[0; 2]; 65535];
    read_body(input, &mut body, usize::from(head.starts[12]))?;
    let case = Case { head, body: &body };
    Ok(case.judge())
}
