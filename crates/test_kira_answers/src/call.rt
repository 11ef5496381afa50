// The call that a case makes.
use crate::head::{Function, Head};
use crate::held::Held;
use sedhavil::{
    Reply, Room, sedhavil_floats_needed, sedhavil_render, sedhavil_run, sedhavil_start,
};

// What a call answers: with 0 floats where it gives none.
#[derive(Clone, Copy, PartialEq)]
pub(crate) struct Told {
    pub number: u32,
    pub place: usize,
    pub floats: usize,
}

impl From<Reply> for Told {
    fn from(reply: Reply) -> Told {
        Told {
            number: reply.number,
            place: reply.place,
            floats: 0,
        }
    }
}

impl From<Room> for Told {
    fn from(room: Room) -> Told {
        Told {
            number: room.number,
            place: room.place,
            floats: room.floats,
        }
    }
}

// The first n items, or all where there are fewer.
fn first<T>(items: &mut [T], n: u16) -> &mut [T] {
    let n = usize::from(n).min(items.len());
    &mut items[..n]
}

// The call that the head says, on the first of each as many as it says.
pub(crate) fn call(head: &Head, words: &mut [u64], order: &mut [usize], held: &mut Held) -> Told {
    let rate = head.rate;
    let words = first(words, head.lengths.words);
    let samples = first(&mut held.samples, head.lengths.samples);
    let store = first(&mut held.store, head.lengths.store);
    let positions = first(&mut held.positions, head.lengths.positions);
    let floats = first(&mut held.floats, head.lengths.floats);
    let progress = first(&mut held.progress, head.lengths.progress);
    let order = first(order, head.lengths.order);
    match head.function {
        Function::Run => Told::from(sedhavil_run(
            rate, words, samples, positions, floats, store, progress, order,
        )),
        Function::Render => Told::from(sedhavil_render(
            rate, words, samples, positions, floats, store, progress,
        )),
        Function::Start => Told::from(sedhavil_start(rate, words, positions, floats, store)),
        Function::FloatsNeeded => Told::from(sedhavil_floats_needed(rate, words)),
    }
}
