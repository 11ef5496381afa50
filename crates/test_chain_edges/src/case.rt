// What the cases share: stages, chains, a call, and the line that is written for its answer.
use answer::Answer;
use chain::run::run;
use memories::{Memories, PLACES, zero};
use stage::kind::Stage;
use stage::setup::Setup;
use std::io;

pub(crate) fn volume(volume: i32) -> Stage {
    Stage::VolumeControl { volume }
}

pub(crate) fn delay(frames: u32, owned: usize) -> Stage {
    Stage::Delay {
        frames,
        feedback: 0,
        mix: 1.0,
        owned,
    }
}

// The chain of these stages, at 44,100 Hz.
pub(crate) fn chain_of(stages: &[Stage]) -> Setup {
    stages
        .iter()
        .fold(Setup::empty(44100), |setup, stage| setup.with(*stage))
}

pub(crate) fn counts(first: usize, second: usize) -> [usize; PLACES] {
    let mut progress = [0; PLACES];
    progress[0] = first;
    progress[1] = second;
    progress
}

pub(crate) fn say(rt: &impl Print, name: &str, answer: Answer) -> io::Result<()> {
    let (number, place) = match answer {
        Ok(()) => (0, 0),
        Err(refusal) => (refusal.number(), refusal.place()),
    };
    println!(rt; "{name} {number} {place}")
}

// What a call gets besides the samples and the store.
#[derive(Clone, Copy)]
pub(crate) struct Case<'a> {
    pub setup: Setup,
    pub memories: Memories,
    pub progress: [usize; PLACES],
    pub order: &'a [usize],
}

impl Case<'_> {
    // Memories at zero, no progress, and an order that names no stage.
    pub(crate) fn of(setup: Setup) -> Case<'static> {
        Case {
            setup,
            memories: zero(),
            progress: [0; PLACES],
            order: &[],
        }
    }

    // Writes what the call answers, over these samples and this store.
    pub(crate) fn say_over(
        self,
        rt: &impl Print,
        name: &str,
        samples: &mut [f32],
        store: &mut [f32],
    ) -> io::Result<()> {
        let outcome = run(
            self.setup,
            samples,
            self.memories,
            store,
            self.progress,
            self.order,
        );
        say(rt, name, outcome.map(|_| ()))
    }

    // The same over a store of 64 floats.
    pub(crate) fn say(self, rt: &impl Print, name: &str, samples: &mut [f32]) -> io::Result<()> {
        self.say_over(rt, name, samples, &mut [0.0; 64])
    }
}
