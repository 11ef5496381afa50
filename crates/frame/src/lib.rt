// kira's `Frame`, a pair of f32 by value. Its operations have the names of Rust's operator traits:
// `a + b` is `a.add(b)`, since document 01 wants named operations in place of operator traits. With
// them stand mixing a wet with a dry frame, as most effects do, and panning. Each operation rounds
// once, in the order written in the Rust.
#![tactic(auto)]

ghost use Rattle.std.specs.Prelude.{◌≡◌};
ghost use Rattle.frame.specs.Operations.{zero_frame, new_of, from_mono_of, as_mono_of, add_of, sub_of, mul_of, div_of, neg_of};
ghost use Rattle.frame.specs.Mix.{mix_of};
ghost use Rattle.frame.specs.Panning.{panned_of};

use float::clamp::{clamp_signed_unit, clamp_unit};
use rounding::sqrt::sqrt;

// kira's `Frame`, with its derives: a left and a right sample, any two floats, NaN and infinities
// included.
#[derive(Debug, Clone, Copy, PartialEq, Default)]
pub struct Frame {
    pub left: f32,
    pub right: f32,
}

impl Frame {
    // kira's `Frame::ZERO`: 0 on both sides.
    pub fn zero() -> Self
        ensures { result ≡ zero_frame }
    {
        Frame {
            left: 0.0,
            right: 0.0,
        }
    }

    // kira's `Frame::new`: a frame of these two samples.
    pub fn new(left: f32, right: f32) -> Self
        ensures { result ≡ new_of left right }
    {
        Frame { left, right }
    }

    // kira's `Frame::from_mono`: the same sample on both sides.
    pub fn from_mono(value: f32) -> Self
        ensures { result ≡ from_mono_of value }
    {
        Frame {
            left: value,
            right: value,
        }
    }

    // kira's `Frame::as_mono`: (left + right) / 2 on both sides.
    pub fn as_mono(self) -> Self
        ensures { result ≡ as_mono_of self }
    {
        Frame::from_mono((self.left + self.right) / 2.0)
    }

    // kira's `self + rhs`: left plus left, right plus right.
    pub fn add(self, rhs: Frame) -> Self
        ensures { result ≡ add_of self rhs }
    {
        Frame {
            left: self.left + rhs.left,
            right: self.right + rhs.right,
        }
    }

    // kira's `self - rhs`: left minus left, right minus right.
    pub fn sub(self, rhs: Frame) -> Self
        ensures { result ≡ sub_of self rhs }
    {
        Frame {
            left: self.left - rhs.left,
            right: self.right - rhs.right,
        }
    }

    // kira's `self * rhs`: both sides times one number.
    pub fn mul(self, rhs: f32) -> Self
        ensures { result ≡ mul_of self rhs }
    {
        Frame {
            left: self.left * rhs,
            right: self.right * rhs,
        }
    }

    // kira's `self / rhs`: both sides divided by one number.
    pub fn div(self, rhs: f32) -> Self
        ensures { result ≡ div_of self rhs }
    {
        Frame {
            left: self.left / rhs,
            right: self.right / rhs,
        }
    }

    // kira's `-self`: both signs turned round, those of zeros too.
    pub fn neg(self) -> Self
        ensures { result ≡ neg_of self }
    {
        Frame {
            left: -self.left,
            right: -self.right,
        }
    }

    // Mixes self, the wet frame, with the dry one: self * sqrt(mix) + dry * sqrt(1 - mix), with the mix
    // clamped to 0..1. Each of kira's effects that has a mix ends with this.
    pub fn mixed(self, dry: Frame, mix: f32) -> Self
        ensures { result ≡ mix_of self dry mix }
    {
        let clamped = clamp_unit(mix);
        let wet = self.mul(sqrt(clamped));
        wet.add(dry.mul(sqrt(1.0 - clamped)))
    }

    // kira's `Frame::panned`, from -1 (left) to 1 (right). A panning equal to 0 (also -0) returns the
    // frame; otherwise the panning is clamped to -1..1.
    pub fn panned(self, panning: f32) -> Self
        ensures { result ≡ panned_of self panning }
    {
        if panning == 0.0 {
            return self;
        }
        let left_right_mix = (clamp_signed_unit(panning) + 1.0) * 0.5;
        let sides = Frame {
            left: self.left * sqrt(1.0 - left_right_mix),
            right: self.right * sqrt(left_right_mix),
        };
        sides.mul(1.4142135)
    }
}
