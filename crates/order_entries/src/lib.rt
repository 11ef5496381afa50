// Refusal 11: which rule an entry of an order breaks, and the first entry that breaks one.
#![tactic(auto)]

ghost use Rattle.std.specs.Prelude.{◌≡◌, Err};
ghost use Rattle.order_entries.specs.Entries.{rule_number, rule_of, order_answer};

use answer::{Answer, Refusal};
use memories::{PLACES, number_at};

// A rule that an entry of an order may break.
#[derive(Clone, Copy, Debug, PartialEq, Eq)]
pub enum Rule {
    // it names no top stage
    NoStage,
    // its stage has run the last frame
    AtEnd,
    // its stage is level with the top stage before it
    Level,
}

impl Rule {
    // The number of the refusal that a broken rule leads to.
    pub fn number(self) -> u32
        ensures { result ≡ rule_number (Err self) }
    {
        match self {
            Rule::NoStage => 11,
            Rule::AtEnd => 11,
            Rule::Level => 11,
        }
    }
}

// The number that comes of a test of an entry: that of the rule that it breaks, and 0 where it breaks none.
pub fn number(rule: Result<(), Rule>) -> u32
    ensures { result ≡ rule_number rule }
{
    rule.err().map_or(0, Rule::number)
}

// Whether top stage k may be run on its next frame, in a block of `frames` frames with `tops` top stages:
// if not, the first rule that this would break.
pub fn may_run(tops: usize, frames: usize, progress: &[usize], k: usize) -> Result<(), Rule>
    ensures { result ≡ rule_of tops frames progress.now k }
{
    if tops <= k {
        return Err(Rule::NoStage);
    }
    let done = number_at(progress, k);
    if frames <= done {
        return Err(Rule::AtEnd);
    }
    if 0 < k && number_at(progress, k - 1) <= done {
        Err(Rule::Level)
    } else {
        Ok(())
    }
}

// Check 11: `Entry` with the place of the first entry that breaks a rule. Progress is counted entry by entry,
// and the entries still unread are handed on as a stretch starting mid-way. `tops` is how many top stages
// there are (top_stages::Tops::of), `frames` how many frames the block has.
pub fn check_order(
    tops: usize,
    frames: usize,
    progress: &[usize; PLACES],
    order: &[usize],
) -> Answer
    ensures { result ≡ order_answer tops frames progress.now order.now }
{
    let mut counted = *progress;
    let mut unread = order;
    while let Some((&k, rest)) = unread.split_first() {
        if number(may_run(tops, frames, &counted, k)) != 0 {
            return Err(Refusal::Entry(order.len() - unread.len()));
        }
        if k < PLACES {
            counted[k] += 1;
        }
        unread = rest;
    }
    Ok(())
}
