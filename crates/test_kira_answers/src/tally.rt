// What is counted of the calls so far.
use crate::case::Judged;
use std::io;

// The numbers that are counted apart. What none of them is counts as the last. They are a list beside
// `answers`, and no pairs with it, since they are constant.
const NUMBERS: [u32; 14] = [0, 1, 2, 3, 4, 5, 6, 7, 8, 9, 10, 11, 101, 102];

// How many calls had each number as their answer, how many differ, and which was the first to differ and the
// first to be the same.
#[derive(Clone, Copy)]
pub(crate) struct Tally {
    answers: [u32; 14],
    pub differences: u32,
    pub first_other: Option<u32>,
    pub first_same: Option<u32>,
}

impl Tally {
    pub(crate) fn new() -> Tally {
        Tally {
            answers: [0; 14],
            differences: 0,
            first_other: None,
            first_same: None,
        }
    }

    // Counts case i.
    pub(crate) fn count(&mut self, i: u32, judged: Judged) {
        let number = judged.number;
        let last = NUMBERS.len() - 1;
        let k = NUMBERS.iter().position(|n| *n == number).unwrap_or(last);
        self.answers[k] = self.answers[k].saturating_add(1);
        if judged.is_same {
            self.first_same.get_or_insert(i);
        } else {
            self.differences = self.differences.saturating_add(1);
            self.first_other.get_or_insert(i);
        }
    }

    pub(crate) fn say_answers(&self, rt: &impl Print) -> io::Result<()> {
        let accepted = self.answers[0];
        println!(rt; "accepted: {accepted}")?;
        for (number, count) in NUMBERS.iter().zip(&self.answers).skip(1) {
            println!(rt; "refused {number}: {count}")?;
        }
        Ok(())
    }
}
