// The library that C and Rust link for chains: the crate `chain` with flat arguments, twelve words for each
// stage, and memories and progress in slices. A host may pass anything: a slice of the wrong length is
// refused with 101 and words that are no stage with 102, before document 01's checks.
#![tactic(auto)]

ghost use Rattle.std.specs.Prelude.{◌≡◌, length};
ghost use Rattle.line.specs.Held.{holds};
ghost use Rattle.memories.specs.Sizes.{places, all_positions, all_floats};
ghost use Rattle.chain.specs.Chain.{state};
ghost use Rattle.stage_words.specs.Words.{layout_version};
ghost use Rattle.chain.specs.Block.{answer_given, carried};
ghost use Rattle.sedhavil.specs.Call.{reply_of, room_of};
ghost use Rattle.sedhavil.specs.Read.{carried_in};
ghost use Rattle.sedhavil.specs.Face.{run_reply, run_leaves, render_reply, render_leaves, start_reply, start_leaves, needed_room};

mod read;

use crate::read::{read_call, read_setup};
use answer::{Answer, Refusal};
use chain::render::render;
use chain::run::{Outcome, run};
use fresh_start::start::start;
use line_layout::layout::needed;
use memories::PLACES;
use refusals::chain::check_chain;

// What a host is told: number 0 for an accepted call, and otherwise why it is refused, with a place. 101
// and 102 are calls that cannot be read: 101's place is a slice (0 stages, 1 positions, 2 floats, 3
// progress), 102's is a list place. The other numbers and their places are document 01's.
#[repr(C)]
#[derive(Clone, Copy, Debug, PartialEq, Eq)]
pub struct Reply {
    pub number: u32,
    pub place: usize,
}

// How many floats a store needs, where the number is 0. A refusal comes with 0 floats.
#[repr(C)]
#[derive(Clone, Copy, Debug, PartialEq, Eq)]
pub struct Room {
    pub number: u32,
    pub place: usize,
    pub floats: usize,
}

impl From<Answer> for Reply {
    ghost from_gives = { λ answer r. r ≡ reply_of answer };

    #[tactic(auto, unfolding(crate::specs::Call::reply_of))]
    fn from(answer: Answer) -> Reply {
        Reply {
            number: answer::number(answer),
            place: answer::place(answer),
        }
    }
}

// A refusal of the floats that a store needs.
fn no_room(refused: Reply) -> Room
    ensures { result ≡ room_of refused 0 }
{
    Room {
        number: refused.number,
        place: refused.place,
        floats: 0,
    }
}

// Puts the memories and the progress that an accepted call leaves into the slices that the host lent, and
// gives the host its reply.
fn hand_back(
    given: Result<Outcome, Refusal>,
    positions: &mut [usize],
    floats: &mut [f32],
    progress: &mut [usize],
) -> Reply
    requires positions { length positions.old ≡ all_positions }
    requires floats { length floats.old ≡ all_floats }
    requires progress { length progress.old ≡ places }
    ensures reply { result ≡ reply_of (answer_given given) }
    ensures carried { carried_in positions.new floats.new progress.new
        ≡ carried (record { positions = positions.old; floats = floats.old }) progress.old given }
{
    if let Ok(outcome) = given {
        positions.copy_from_slice(&outcome.memories.positions);
        floats.copy_from_slice(&outcome.memories.floats);
        progress.copy_from_slice(&outcome.progress);
    }
    Reply::from(given.map(|_| ()))
}

// Runs top stages in the given order, each entry on that stage's next frame. The order need not finish
// the block.
pub fn sedhavil_run(
    rate: u32,
    stages: &[u64],
    samples: &mut [f32],
    positions: &mut [usize],
    floats: &mut [f32],
    store: &mut [f32],
    progress: &mut [usize],
    order: &[usize],
) -> Reply
    ensures answer { result ≡ run_reply rate stages.now (state samples.old store.old positions.old floats.old progress.old) order.now }
    ensures leaves { state samples.new store.new positions.new floats.new progress.new
        ≡ run_leaves rate stages.now (state samples.old store.old positions.old floats.old progress.old) order.now }
{
    match read_call(rate, stages, positions, floats, progress) {
        Ok(call) => {
            let Outcome {
                memories,
                progress: done,
            } = call.carried;
            let given = run(call.setup, samples, memories, store, done, order);
            hand_back(given, positions, floats, progress)
        }
        Err(fault) => fault,
    }
}

// Runs every stage to the last frame, from wherever the block stands.
pub fn sedhavil_render(
    rate: u32,
    stages: &[u64],
    samples: &mut [f32],
    positions: &mut [usize],
    floats: &mut [f32],
    store: &mut [f32],
    progress: &mut [usize],
) -> Reply
    ensures answer { result ≡ render_reply rate stages.now (state samples.old store.old positions.old floats.old progress.old) }
    ensures leaves { state samples.new store.new positions.new floats.new progress.new
        ≡ render_leaves rate stages.now (state samples.old store.old positions.old floats.old progress.old) }
{
    match read_call(rate, stages, positions, floats, progress) {
        Ok(call) => {
            let Outcome {
                memories,
                progress: done,
            } = call.carried;
            let given = render(call.setup, samples, memories, store, done);
            hand_back(given, positions, floats, progress)
        }
        Err(fault) => fault,
    }
}

// A fresh start: clears the floats of the store that the stages need, and all memories. Where one of
// refusals 1 to 5 applies it clears the memories alone, and where the call cannot be read nothing.
pub fn sedhavil_start(
    rate: u32,
    stages: &[u64],
    positions: &mut [usize],
    floats: &mut [f32],
    store: &mut [f32],
) -> Reply
    ensures answer { result ≡ start_reply rate stages.now (holds store.old positions.old floats.old) }
    ensures leaves { holds store.new positions.new floats.new
        ≡ start_leaves rate stages.now (holds store.old positions.old floats.old) }
{
    match read_call(rate, stages, positions, floats, &[0; PLACES]) {
        Ok(call) => {
            let started = start(call.setup, store);
            positions.copy_from_slice(&started.memories.positions);
            floats.copy_from_slice(&started.memories.floats);
            Reply::from(started.answer)
        }
        Err(fault) => fault,
    }
}

// How many floats the store needs. Refused are words that cannot be read, and what a start refuses with
// a store of that many floats: rates, stages, shapes and settings.
pub fn sedhavil_floats_needed(rate: u32, stages: &[u64]) -> Room
    ensures { result ≡ needed_room rate stages.now }
{
    match read_setup(rate, stages) {
        Ok(setup) => {
            let floats = needed(setup);
            match check_chain(&setup, floats, floats) {
                Ok(()) => Room {
                    number: 0,
                    place: 0,
                    floats,
                },
                Err(refusal) => no_room(Reply::from(Err(refusal))),
            }
        }
        Err(fault) => no_room(fault),
    }
}

// The version of the layout of a stage's words and of memories. A host that was made for another version
// would send what this library does not know, or reads as something else.
pub fn sedhavil_layout_version() -> u32
    ensures { result ≡ layout_version }
{
    stage_words::layout_version()
}
