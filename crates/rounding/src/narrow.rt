// Rust's `as f32` from an f64: the f32 nearest to it, a tie going to the even one. The digits for
// which an f32 has no room are divided off, and the exponent field goes down by 896, the difference
// of the two formats' biases.
ghost use Rattle.std.specs.Prelude.{◌≡◌, Bool, cond, ◌+◌, ◌^◌, ◌≤◌, ◌<◌};
ghost use Rattle.std.specs.Float.{binary32, binary64};
ghost use Rattle.std.specs.Float.Ieee.{of_bits, of_fields};
ghost use Rattle.rounding.specs.Narrow.{narrow_of};

use crate::quotient::nearest_quotient;
use float::bits::from_bits;

// The f32 nearest to the finite f64 with this exponent field and these digits, as bits without a sign.
fn narrowed(field: u64, digits: u64) -> u64
    requires field_small { field < 2047 }
    requires digits_small { digits < 0x10_0000_0000_0000 }
    ensures { ((s : Bool) → of_bits binary32 (cond s (2 ^ 31) 0 + result) ≡ narrow_of binary32 (of_fields binary64 s field digits)) × (result ≤ 0x7f80_0000) }
{
    if field < 873 {
        return 0;
    }
    let q = 0x10_0000_0000_0000 + digits;
    if field < 897 {
        return nearest_quotient(q, 1 << (926 - field));
    }
    ((field - 897) * 0x80_0000 + nearest_quotient(q, 0x2000_0000)).min(0x7f80_0000)
}

// Rust's `x as f32`: the f32 nearest to x, a tie going to the even one. A number too large becomes an
// infinity, one too small a zero, both with the sign of x. NaN gives NaN.
pub fn as_f32(x: f64) -> f32
    ensures { result ≡ narrow_of binary32 x }
{
    if x != x {
        return f32::NAN;
    }
    let b = f64::to_bits(x);
    let rest = b % 0x8000_0000_0000_0000;
    let size = if rest < 0x7ff0_0000_0000_0000 {
        narrowed(rest / 0x10_0000_0000_0000, rest % 0x10_0000_0000_0000)
    } else {
        0x7f80_0000
    };
    if b < 0x8000_0000_0000_0000 {
        return from_bits(size as u32);
    }
    from_bits((0x8000_0000 + size) as u32)
}
