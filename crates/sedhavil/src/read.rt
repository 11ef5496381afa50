// Reads a call: the chain out of its words, and what it carries along out of the slices that the host lends.
// What cannot be read is a fault, 101 or 102.
ghost use Rattle.std.specs.Prelude.{◌≡◌, ◌%◌, length, cond, eqb, Ok, Err};
ghost use Rattle.theory_tables.specs.Condition.{decide};
ghost use Rattle.theory_tables.specs.First.{first_of, some};
ghost use Rattle.stage_words.specs.Words.{word_count, count_of, unknown_at};
ghost use Rattle.sedhavil.specs.Call.{reply};
ghost use Rattle.sedhavil.specs.Read.{call_of, setup_or_fault};

use crate::Reply;
use chain::run::Outcome;
use memories::Memories;
use stage::setup::Setup;
use stage_words::{WORDS, first_unknown, setup_of};

// A call that can be read: its chain, and the memories and the progress that it begins with.
#[derive(Clone, Copy)]
pub(crate) struct Call {
    pub setup: Setup,
    pub carried: Outcome,
}

// What a slice holds, as an array. Where it has another length, that is fault 101 at this place.
fn array<T: Copy, const N: usize>(slice: &[T], place: usize) -> Result<[T; N], Reply>
    ensures { result ≡ cond (eqb (length slice.now) N) (Ok slice.now) (Err (reply 101 place)) }
{
    <[T; N]>::try_from(slice).map_err(|_| Reply { number: 101, place })
}

// Fault 101 at place 0 where the words are not those of whole stages.
fn check_length(stages: &[u64]) -> Result<(), Reply>
    ensures { result ≡ cond (eqb (length stages.now % word_count) 0) (Ok tt) (Err (reply 101 0)) }
{
    if stages.len() % WORDS == 0 {
        Ok(())
    } else {
        Err(Reply {
            number: 101,
            place: 0,
        })
    }
}

// Fault 102 where some words are no stage, at the first such place.
fn check_words(stages: &[u64]) -> Result<(), Reply>
    ensures { result ≡ cond (some (λ i. decide (unknown_at stages.now i)) (count_of stages.now))
        (Err (reply 102 (first_of (λ i. decide (unknown_at stages.now i)) (count_of stages.now)))) (Ok tt) }
{
    match first_unknown(stages) {
        None => Ok(()),
        Some(place) => Err(Reply { number: 102, place }),
    }
}

// The call that a host makes on a block, or why it cannot be read.
#[tactic(auto, unfolding(crate::specs::Read::call_of, crate::specs::Call::fault_of, theory_tables::specs::Rows::first_row))]
pub(crate) fn read_call(
    rate: u32,
    stages: &[u64],
    positions: &[usize],
    floats: &[f32],
    progress: &[usize],
) -> Result<Call, Reply>
    ensures { result ≡ call_of rate stages.now positions.now floats.now progress.now }
{
    check_length(stages)?;
    let memories = Memories {
        positions: array(positions, 1)?,
        floats: array(floats, 2)?,
    };
    let progress = array(progress, 3)?;
    check_words(stages)?;
    Ok(Call {
        setup: setup_of(rate, stages),
        carried: Outcome { memories, progress },
    })
}

// The chain alone, with nothing lent beside its words, or why it cannot be read.
#[tactic(auto, unfolding(crate::specs::Read::setup_or_fault, crate::specs::Call::fault_of, theory_tables::specs::Rows::first_row))]
pub(crate) fn read_setup(rate: u32, stages: &[u64]) -> Result<Setup, Reply>
    ensures { result ≡ setup_or_fault rate stages.now }
{
    check_length(stages)?;
    check_words(stages)?;
    Ok(setup_of(rate, stages))
}
