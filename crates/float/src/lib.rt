// Rust's operations on floats that the language leaves undefined at NaN or has under other names: bit
// patterns and `is_finite`, and `abs` and clamps at the widths that kira uses. No public function here
// has a `requires`: NaN, infinities, -0 and subnormals may all be passed in.
#![tactic(auto)]

pub mod bits;
pub mod clamp;
pub mod finite;
pub mod floating;
