// Functions of the crates `float`, `rounding` and `decibels`, and in effects.rt of the crates above
// them, for Rust to link: the programs of compare/ compare them with Rust's own. Each calls the function
// that it is named after and makes the same promise.
#![tactic(auto)]

ghost use Rattle.std.specs.Prelude.{◌≡◌};
ghost use Rattle.std.specs.Float.{binary32, binary64};
ghost use Rattle.rounding.specs.Root.{sqrt_of};
ghost use Rattle.rounding.specs.Narrow.{narrow_of};
ghost use Rattle.float.specs.Clamp.{abs_of, unit_of, signed_unit_of, hundredth_of};
ghost use Rattle.decibels.specs.Amplitude.{amplitude_of, eq_amplitude_of};

pub mod effects;

// `rounding::sqrt::sqrt`, to compare with `f32::sqrt`.
#[unsafe(no_mangle)]
pub extern "C" fn sedhavil_sqrt_f32(x: f32) -> f32
    ensures { result ≡ sqrt_of binary32 x }
{
    rounding::sqrt::sqrt::<f32>(x)
}

// `rounding::sqrt::sqrt`, to compare with `f64::sqrt`.
#[unsafe(no_mangle)]
pub extern "C" fn sedhavil_sqrt_f64(x: f64) -> f64
    ensures { result ≡ sqrt_of binary64 x }
{
    rounding::sqrt::sqrt::<f64>(x)
}

// `rounding::narrow::as_f32`, to compare with `as f32`.
#[unsafe(no_mangle)]
pub extern "C" fn sedhavil_as_f32(x: f64) -> f32
    ensures { result ≡ narrow_of binary32 x }
{
    rounding::narrow::as_f32(x)
}

// `float::clamp::abs`, to compare with `f32::abs`.
#[unsafe(no_mangle)]
pub extern "C" fn sedhavil_abs_f32(x: f32) -> f32
    ensures { result ≡ abs_of x }
{
    float::clamp::abs(x)
}

// `float::clamp::clamp_unit`, to compare with `x.clamp(0.0, 1.0)`.
#[unsafe(no_mangle)]
pub extern "C" fn sedhavil_clamp_unit_f32(x: f32) -> f32
    ensures { result ≡ unit_of binary32 x }
{
    float::clamp::clamp_unit::<f32>(x)
}

// `float::clamp::clamp_unit`, to compare with `x.clamp(0.0, 1.0)`.
#[unsafe(no_mangle)]
pub extern "C" fn sedhavil_clamp_unit_f64(x: f64) -> f64
    ensures { result ≡ unit_of binary64 x }
{
    float::clamp::clamp_unit::<f64>(x)
}

// `float::clamp::clamp_signed_unit`, to compare with `x.clamp(-1.0, 1.0)`.
#[unsafe(no_mangle)]
pub extern "C" fn sedhavil_clamp_signed_unit_f32(x: f32) -> f32
    ensures { result ≡ signed_unit_of binary32 x }
{
    float::clamp::clamp_signed_unit(x)
}

// `float::clamp::at_least_hundredth`, to compare with `x.max(0.01)`.
#[unsafe(no_mangle)]
pub extern "C" fn sedhavil_at_least_hundredth_f64(x: f64) -> f64
    ensures { result ≡ hundredth_of x }
{
    float::clamp::at_least_hundredth(x)
}

// `decibels::amplitude`, to compare with kira's `as_amplitude`.
#[unsafe(no_mangle)]
pub extern "C" fn sedhavil_amplitude(decibels: i32) -> f32
    ensures { result ≡ amplitude_of decibels }
{
    decibels::amplitude(decibels)
}

// `decibels::eq_amplitude`, to compare with kira's `10.0f64.powf(gain.0 as f64 / 40.0)`.
#[unsafe(no_mangle)]
pub extern "C" fn sedhavil_eq_amplitude(gain: i32) -> f64
    ensures { result ≡ eq_amplitude_of gain }
{
    decibels::eq_amplitude(gain)
}
