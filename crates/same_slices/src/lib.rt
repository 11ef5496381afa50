// Whether two slices are the same, for programs that compare what two calls left.
#![tactic(auto)]

ghost use Rattle.std.specs.Prelude.{◌≡◌};
ghost use Rattle.same_slices.specs.Same.{same_floats};

use float::bits::to_bits;

// Whether two slices have the same length and the same floats, bit for bit; all NaNs count as one. Floats
// alone need this: numbers are compared by `==`.
pub fn floats(a: &[f32], b: &[f32]) -> bool
    ensures { result ≡ same_floats a.now b.now }
{
    a.len() == b.len() && a.iter().zip(b).all(|(x, y)| to_bits(*x) == to_bits(*y))
}
