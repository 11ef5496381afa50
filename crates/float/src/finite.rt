// Rust's `is_finite`: whether a float is neither NaN nor an infinity.
ghost use Rattle.std.specs.Prelude.{◌≡◌};
ghost use Rattle.float.specs.Finite.{finite_of};

use crate::floating::Floating;

// False for NaN and the infinities, true for every other float.
pub fn is_finite<F: Floating>(x: F) -> bool
    ensures { result ≡ finite_of (F.value x) }
{
    F::widen(x.own_bits()) % F::SIGN < F::INFINITY
}
