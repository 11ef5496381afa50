// Refusals 6 to 11: memories, samples, progress and the order.
use crate::case::{Case, chain_of, counts, delay, volume};
use memories::PLACE_POSITIONS;
use std::io;

// A delay of 2 frames at list place 1 that remembers this position.
pub(crate) fn positions(rt: &impl Print) -> io::Result<()> {
    for (name, position) in [("position_1_of_2", 1), ("position_2_of_2", 2)] {
        let mut case = Case::of(chain_of(&[volume(0), delay(2, 0)]));
        case.memories.positions[PLACE_POSITIONS] = position;
        case.say_over(rt, name, &mut [], &mut [0.0; 4])?;
    }
    Ok(())
}

// So many volume controls at 0 dB.
fn volumes(count: usize) -> Case<'static> {
    Case::of((0..count).fold(chain_of(&[]), |setup, _| setup.with(volume(0))))
}

pub(crate) fn lengths(rt: &impl Print) -> io::Result<()> {
    let case = volumes(1);
    case.say(rt, "samples_3", &mut [0.0; 3])?;
    case.say(rt, "samples_8192", &mut [0.0; 8192])?;
    case.say(rt, "samples_8194", &mut [0.0; 8194])
}

// Volume controls over two frames, with this progress.
pub(crate) fn progress(rt: &impl Print) -> io::Result<()> {
    for (name, case, progress) in [
        ("progress_2_of_2", volumes(1), counts(2, 0)),
        ("progress_3_of_2", volumes(1), counts(3, 0)),
        ("progress_1_1", volumes(2), counts(1, 1)),
        ("progress_1_2", volumes(2), counts(1, 2)),
        ("progress_past_last_top", volumes(1), counts(1, 7)),
        ("progress_no_stages", volumes(0), counts(7, 7)),
    ] {
        Case { progress, ..case }.say(rt, name, &mut [0.0; 4])?;
    }
    Ok(())
}

// Volume controls over two frames, whose right samples are infinite or 0, with this progress.
pub(crate) fn samples(rt: &impl Print) -> io::Result<()> {
    let infinite = 1.0 / 0.0;
    let both = [0.0, infinite, 0.0, infinite];
    let first = [0.0, infinite, 0.0, 0.0];
    for (name, case, progress, mut samples) in [
        ("infinite_not_run", volumes(2), counts(0, 0), both),
        ("infinite_run_by_stage_0", volumes(2), counts(1, 0), first),
        ("infinite_after_run", volumes(2), counts(1, 0), both),
        ("infinite_no_stages", volumes(0), counts(2, 0), first),
    ] {
        Case { progress, ..case }.say(rt, name, &mut samples)?;
    }
    Ok(())
}

// Two frames and three stages. The delay at place 0 owns the stage after it, so there are two top stages.
pub(crate) fn owning(rt: &impl Print) -> io::Result<()> {
    let owning = Case::of(chain_of(&[delay(1, 1), volume(0), volume(0)]));
    let in_turn = Case {
        order: &[0, 1],
        ..owning
    };
    let past_last_top = Case {
        order: &[0, 1, 2],
        ..owning
    };
    let behind = Case {
        progress: counts(1, 2),
        ..in_turn
    };
    in_turn.say(rt, "owning_order_0_1", &mut [0.0; 4])?;
    past_last_top.say(rt, "owning_order_0_1_2", &mut [0.0; 4])?;
    behind.say(rt, "owning_progress_1_2", &mut [0.0; 4])
}

// So many volume controls over this block, run in this order.
fn on_order(
    rt: &impl Print,
    name: &str,
    count: usize,
    samples: &mut [f32],
    order: &[usize],
) -> io::Result<()> {
    let case = Case {
        order,
        ..volumes(count)
    };
    case.say(rt, name, samples)
}

// Two stages, one frame: P13 of document 01 and more.
pub(crate) fn orders(rt: &impl Print) -> io::Result<()> {
    on_order(rt, "order_1_0", 2, &mut [0.0; 2], &[1, 0])?;
    on_order(rt, "order_0_1_0", 2, &mut [0.0; 2], &[0, 1, 0])?;
    on_order(rt, "order_0_1", 2, &mut [0.0; 2], &[0, 1])?;
    on_order(rt, "order_0_2", 2, &mut [0.0; 2], &[0, 2])?;
    on_order(rt, "order_0", 2, &mut [0.0; 2], &[0])
}

pub(crate) fn empty(rt: &impl Print) -> io::Result<()> {
    on_order(rt, "empty", 0, &mut [], &[])?;
    on_order(rt, "entry_no_stages", 0, &mut [0.0; 2], &[0])?;
    on_order(rt, "entry_no_frames", 1, &mut [], &[0])
}
