// A fresh start: checks 1 to 5, then the needed floats are cleared. The memories that it gives are at zero,
// refused or not.
ghost use Rattle.std.specs.Prelude.{◌≡◌, ◌≤◌, length};
ghost use Rattle.line_layout.specs.Layout.{needed_of};
ghost use Rattle.refusals.specs.Refusals.{chain_answer};
ghost use Rattle.fresh_start.specs.Start.{cleared_to, start_memories, started_of};

use answer::Answer;
use line_layout::layout::needed;
use memories::Memories;
use refusals::chain::check_chain;
use stage::setup::Setup;

// What a fresh start gives: its answer, and memories at zero, refused or not.
#[derive(Clone, Copy, Debug, PartialEq)]
pub struct Started {
    pub answer: Answer,
    pub memories: Memories,
}

// Sets the first n floats to +0.
fn clear(store: &mut [f32], n: usize)
    requires { n ≤ length store.old }
    ensures { store.new ≡ cleared_to n store.old }
{
    store[..n].fill(0.0);
}

// Makes checks 1 to 5 and, where none refuses, sets the floats that the chain needs to +0. Floats past
// these, and all floats where the start is refused, stay as they were.
pub fn start(setup: Setup, store: &mut [f32]) -> Started
    ensures answer { (result.answer ≡ chain_answer setup (needed_of setup) (length store.old)) × (result.memories ≡ start_memories setup store.old) }
    ensures leaves { store.new ≡ started_of setup store.old }
{
    let floats = needed(setup);
    let answer = check_chain(&setup, floats, store.len());
    if answer.is_ok() {
        clear(store, floats);
    }
    Started {
        answer,
        memories: memories::zero(),
    }
}
