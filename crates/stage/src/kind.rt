// "A stage is one of seven kinds, and each kind carries its own numbers": the kinds, and what a stage of
// each kind has besides its numbers.
ghost use Rattle.std.specs.Prelude.{◌≡◌};
ghost use Rattle.stage.specs.Holding.{holding_of};

use filters::eq_filter::EqFilterKind;
use filters::filter::FilterMode;
use plain_effects::distortion::DistortionKind;

// A stage with its settings, in document 01's units: volume, drive, gain and a delay's feedback are whole
// dB, and g is a tangent. Any numbers may be written here; `Stage::in_range` says which are accepted.
#[derive(Clone, Copy, Debug, PartialEq)]
pub enum Stage {
    VolumeControl {
        volume: i32,
    },
    PanningControl {
        panning: f32,
    },
    Distortion {
        kind: DistortionKind,
        drive: i32,
        mix: f32,
    },
    Filter {
        mode: FilterMode,
        g: f64,
        resonance: f64,
        mix: f32,
    },
    EqFilter {
        kind: EqFilterKind,
        g: f64,
        gain: i32,
        q: f64,
    },
    Reverb {
        feedback: f32,
        damping: f32,
        stereo_width: f32,
        mix: f32,
    },
    // The `owned` stages after it are its feedback stages, nested ones counted.
    Delay {
        frames: u32,
        feedback: i32,
        mix: f32,
        owned: usize,
    },
}

// The lines of a stage. No lines is a third case, and no `Option`, since each `match` on a stage's lines has
// these three cases.
#[derive(Clone, Copy, Debug, PartialEq, Eq)]
pub enum Lines {
    NoLines,
    // A reverb's 24 lines, whose lengths follow from the rate.
    ReverbLines,
    // A delay's one line, with its length in frames.
    FrameLine { frames: u32 },
}

// What a stage has besides its settings: the `owned` stages after it, and its lines.
#[derive(Clone, Copy, Debug, PartialEq, Eq)]
pub struct Holding {
    pub owned: usize,
    pub lines: Lines,
}

impl Stage {
    // What a stage has besides its settings. Only a reverb and a delay have lines, and only a delay owns
    // stages.
    #[tactic(auto, using(crate::proofs::Unnamed::holds_none), unfolding(crate::specs::Holding::holding_of))]
    pub fn holding(self) -> Holding
        ensures { result ≡ holding_of self }
    {
        match self {
            Stage::Reverb { .. } => Holding {
                owned: 0,
                lines: Lines::ReverbLines,
            },
            Stage::Delay { frames, owned, .. } => Holding {
                owned,
                lines: Lines::FrameLine { frames },
            },
            _ => Holding {
                owned: 0,
                lines: Lines::NoLines,
            },
        }
    }
}
