// A stage's lines: how many floats they have, and whether a place's remembered positions are on them.
ghost use Rattle.std.specs.Prelude.{◌≡◌, ◌*◌, ◌≤◌};
ghost use Rattle.theory_tables.specs.Condition.{decide};
ghost use Rattle.reverb_tuning.specs.Tuning.{line_count, reverb_lines};
ghost use Rattle.line_layout.specs.Lines.{floats_of, off_lines, lost_of};

use memories::number_at;
use reverb_tuning::{LINES, reverb_floats, reverb_line};
use stage::kind::{Lines, Stage};

// How many floats the stage's lines have, without those of the stages that it owns.
#[tactic(auto, using(reverb_tuning::proofs::Tunings::reverb_within, reverb_tuning::proofs::Tunings::floats_are), unfolding(crate::specs::Lines::floats_of))]
pub fn floats_of(rate: u32, stage: Stage) -> usize
    ensures { (result ≡ floats_of rate stage) × (result ≤ line_count * 0x1_0000_0000) }
{
    match stage.holding().lines {
        Lines::NoLines => 0,
        Lines::ReverbLines => reverb_floats(rate),
        Lines::FrameLine { frames } => 2 * (frames as usize),
    }
}

// `is_lost`, for a reverb.
fn reverb_lost(rate: u32, positions: &[usize]) -> bool
    ensures { result ≡ decide (off_lines (reverb_lines rate) positions.now) }
{
    (0..LINES).any(|j| reverb_line(j, rate) <= number_at(positions, j))
}

// Whether one of the place's remembered positions is not below its line's length, a delay's in frames. A
// missing position counts as 0.
#[tactic(auto, unfolding(crate::specs::Lines::lengths_of, theory_tables::specs::First::first_from))]
pub fn is_lost(rate: u32, stage: Stage, positions: &[usize]) -> bool
    ensures { result ≡ decide (lost_of rate stage positions.now) }
{
    match stage.holding().lines {
        Lines::NoLines => false,
        Lines::ReverbLines => reverb_lost(rate, positions),
        Lines::FrameLine { frames } => frames as usize <= number_at(positions, 0),
    }
}
