// Refusals 1 to 5, about the chain: its rate, its stages and the floats that they need.
ghost use Rattle.std.specs.Prelude.{◌≡◌};
ghost use Rattle.theory_tables.specs.First.{found_of};
ghost use Rattle.theory_tables.specs.Condition.{decide};
ghost use Rattle.stage.specs.Setup.{used_of};
ghost use Rattle.refusals.specs.Refusals.{out_of_range, chain_answer};

use crate::shape::first_faulty;
use answer::{Answer, Refusal};
use memories::PLACES;
use stage::setup::Setup;

// The first place whose stage has a setting out of range.
fn first_out_of_range(setup: &Setup) -> Option<usize>
    ensures { result ≡ found_of (λ i. decide (out_of_range setup.now i)) (used_of setup.now) }
{
    setup
        .stages()
        .iter()
        .position(|slot| !slot.stage.in_range())
}

// Checks 1 to 5: the first refusal that applies. `needed` is how many floats the stages need
// (line_layout::layout::needed), `floats` how many the store has.
pub fn check_chain(setup: &Setup, needed: usize, floats: usize) -> Answer
    ensures { result ≡ chain_answer setup.now needed floats }
{
    if setup.rate < 8000 || 192000 < setup.rate {
        return Err(Refusal::Rate);
    }
    if PLACES < setup.count {
        return Err(Refusal::Stages);
    }
    if let Some(at) = first_faulty(setup) {
        return Err(Refusal::Shape(at));
    }
    if let Some(at) = first_out_of_range(setup) {
        return Err(Refusal::Setting(at));
    }
    if floats < needed {
        return Err(Refusal::Store(needed));
    }
    Ok(())
}
