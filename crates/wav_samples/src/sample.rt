// A 16-bit sample and the float that stands for it.
ghost use Rattle.std.specs.Prelude.{◌≡◌, Bool, ◌^◌, ◌≤◌, ◌<◌};
ghost use Rattle.std.specs.Float.{binary32};
ghost use Rattle.std.specs.Float.Ieee.{of_fields};
ghost use Rattle.wav_samples.specs.Sample.{sample_in, sample_out, steps_of, held_of};

use float::bits::to_bits;
use rounding::quotient::nearest_quotient;

// The float of a 16-bit sample: s / 32768, without rounding.
pub fn sample_in(s: i16) -> f32
    ensures { result ≡ sample_in s }
{
    f32::from(s) / 32768.0
}

// 32768 times the magnitude of the float with these fields, to the nearest whole number, a tie going to
// the even one, and at most 32768; 0 for NaN. A float with a field of 127 or more is 1 or more; one with
// a field below 111 is less than half of 1 / 32768.
fn steps(field: u64, digits: u64) -> u64
    requires field_small { field < 256 }
    requires digits_small { digits < 2 ^ 23 }
    ensures { ((s : Bool) → result ≡ steps_of (of_fields binary32 s field digits)) × (result ≤ 32768) }
{
    match field {
        ..111 => 0,
        111..127 => nearest_quotient(0x80_0000 + digits, 1 << (135 - field)),
        127..255 => 32768,
        _ => if digits > 0 { 0 } else { 32768 },
    }
}

// The sample of this sign and so many steps, held to 16 bits.
fn held(is_negative: bool, steps: u64) -> i16
    requires { steps ≤ 32768 }
    ensures { result ≡ held_of is_negative steps }
{
    if is_negative {
        -(steps as i32) as i16
    } else {
        steps.min(32767) as i16
    }
}

// The 16-bit sample of a float: the whole number nearest to 32768 x, a tie going to the even one, clamped
// to -32768..32767. NaN gives 0.
pub fn sample_out(x: f32) -> i16
    ensures { result ≡ sample_out x }
{
    let bits = u64::from(to_bits(x));
    let n = steps(bits % 0x8000_0000 / 0x80_0000, bits % 0x80_0000);
    held(bits >= 0x8000_0000, n)
}
