// Roundings that document 01 has the program work out itself: `sqrt` and `as f32` from f64, which
// kira's Rust uses, and a quotient to the nearest whole number. No public function here has a
// `requires`: NaN, infinities, -0 and subnormals may all be passed in, and give what IEEE 754 and the
// Rust give.
#![tactic(auto)]

pub mod narrow;
pub mod quotient;
pub mod sqrt;
