// Runs the crates `float`, `rounding` and `frame` and the coefficients of `filters` on the inputs of
// sample.rt, frames.rt and coefficients.rt, which also have Rust's and kira's own answers to them. Writes
// for each operation how many answers are the same, bit for bit with all NaNs counted as one, and at which
// indices they differ. The last answers of each are spoilt, and so must differ: a comparison that sees
// nothing is seen. Inputs and answers are two lists, since one list of pairs takes ten times as long to
// check.
#![tactic(auto)]

ghost use Rattle.std.specs.Iterator.{IsFinite};

mod coefficients;
mod equalized;
mod floats;
mod framed;
mod frames;
mod sample;

use float::clamp::{abs, at_least_hundredth, clamp_signed_unit, clamp_unit};
use floats::try_float;
use frame::Frame;
use framed::try_frame;
use rounding::narrow::as_f32;
use rounding::sqrt::sqrt;
use std::io;

// Says which of the answers differ, and how many agree.
pub(crate) fn try_all<I: Iterator<Item = bool> + Drop>(
    rt: &impl Print,
    name: &str,
    agreements: I,
) -> io::Result<()>
    requires can { I.can_next agreements }
    requires ends { IsFinite (I.remaining agreements) }
{
    let mut tried: u64 = 0;
    let mut agreed: u64 = 0;
    for agrees in agreements {
        if agrees {
            agreed = agreed.saturating_add(1);
        } else {
            println!(rt; "{name} differs at {tried}")?;
        }
        tried = tried.saturating_add(1);
    }
    println!(rt; "{name} {agreed} of {tried}")
}

fn try_floats(rt: &impl Print) -> io::Result<()> {
    use sample::*;
    try_float(
        rt,
        "sqrt_f32",
        &SQRT_F32_INPUTS,
        &SQRT_F32_ANSWERS,
        |x: f32| sqrt(x),
    )?;
    try_float(
        rt,
        "sqrt_f64",
        &SQRT_F64_INPUTS,
        &SQRT_F64_ANSWERS,
        |x: f64| sqrt(x),
    )?;
    try_float(
        rt,
        "as_f32",
        &AS_F32_INPUTS,
        &AS_F32_ANSWERS,
        |x: f64| as_f32(x),
    )?;
    try_float(
        rt,
        "abs_f32",
        &ABS_F32_INPUTS,
        &ABS_F32_ANSWERS,
        |x: f32| abs(x),
    )?;
    try_float(
        rt,
        "clamp_unit_f32",
        &UNIT_F32_INPUTS,
        &UNIT_F32_ANSWERS,
        |x: f32| clamp_unit(x),
    )?;
    try_float(
        rt,
        "clamp_signed_unit_f32",
        &SIGNED_UNIT_F32_INPUTS,
        &SIGNED_UNIT_F32_ANSWERS,
        |x: f32| clamp_signed_unit(x),
    )?;
    try_float(
        rt,
        "clamp_unit_f64",
        &UNIT_F64_INPUTS,
        &UNIT_F64_ANSWERS,
        |x: f64| clamp_unit(x),
    )?;
    try_float(
        rt,
        "at_least_hundredth_f64",
        &HUNDREDTH_F64_INPUTS,
        &HUNDREDTH_F64_ANSWERS,
        |x: f64| at_least_hundredth(x),
    )
}

fn try_frames(rt: &impl Print) -> io::Result<()> {
    try_frame(rt, "zero", &frames::ZERO, |_, _, _| Frame::zero())?;
    try_frame(
        rt,
        "new",
        &frames::NEW,
        |a: Frame, _, _| Frame::new(a.left, a.right),
    )?;
    try_frame(
        rt,
        "from_mono",
        &frames::FROM_MONO,
        |_, _, n| Frame::from_mono(n),
    )?;
    try_frame(
        rt,
        "as_mono",
        &frames::AS_MONO,
        |a: Frame, _, _| a.as_mono(),
    )?;
    try_frame(rt, "add", &frames::ADD, |a: Frame, b, _| a.add(b))?;
    try_frame(rt, "sub", &frames::SUB, |a: Frame, b, _| a.sub(b))?;
    try_frame(rt, "mul", &frames::MUL, |a: Frame, _, n| a.mul(n))?;
    try_frame(rt, "div", &frames::DIV, |a: Frame, _, n| a.div(n))?;
    try_frame(rt, "neg", &frames::NEG, |a: Frame, _, _| a.neg())?;
    try_frame(rt, "panned", &frames::PANNED, |a: Frame, _, n| a.panned(n))
}

fn main(rt: HostRuntime) -> io::Result<()> {
    try_floats(&rt)?;
    equalized::try_coefficients(&rt)?;
    try_frames(&rt)
}
