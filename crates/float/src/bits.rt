// Floats to bit patterns and back. The language's own `to_bits` and `from_bits` are undefined at a
// NaN; here all NaNs count as one value with one pattern.
ghost use Rattle.std.specs.Prelude.{◌≡◌};
ghost use Rattle.std.specs.Float.Ieee.{of_bits, to_bits};

use crate::floating::Floating;

// Rust's `to_bits`; every NaN gives 7FC00000 as an f32, and 7FF8000000000000 as an f64.
pub fn to_bits<F: Floating>(x: F) -> F::Bits
    ensures { F.number result ≡ to_bits F.format (F.value x) }
{
    x.own_bits()
}

// Rust's `from_bits`; every pattern of a NaN gives NaN.
pub fn from_bits<F: Floating>(bits: F::Bits) -> F
    ensures { F.value result ≡ of_bits F.format (F.number bits) }
{
    F::from_own_bits(bits)
}
