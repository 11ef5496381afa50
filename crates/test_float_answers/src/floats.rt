// One operation of the crates `float` and `rounding`, on inputs of sample.rt.
use crate::try_all;
use float::bits::{from_bits, to_bits};
use float::floating::Floating;
use std::io;

pub(crate) fn try_float<F: Floating, G: Floating, O: Fn(F) -> G + Drop>(
    rt: &impl Print,
    name: &str,
    inputs: &[F::Bits],
    answers: &[G::Bits],
    operation: O,
) -> io::Result<()>
where
    G::Bits: PartialEq,
    requires { O.IsAlwaysCallable operation }
{
    let agreements = inputs
        .iter()
        .zip(answers)
        .map(|(x, answer)| to_bits(operation(from_bits(*x))) == *answer);
    try_all(rt, name, agreements)
}
