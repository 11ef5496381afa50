// One operation of the crate `frame`, on the inputs of frames.rt.
use crate::{frames, try_all};
use float::bits::{from_bits, to_bits};
use frame::Frame;
use std::io;

pub(crate) fn try_frame<O: Fn(Frame, Frame, f32) -> Frame + Drop>(
    rt: &impl Print,
    name: &str,
    answers: &[u32],
    operation: O,
) -> io::Result<()>
    requires { O.IsAlwaysCallable operation }
{
    let (inputs, _) = frames::INPUTS.as_chunks::<5>();
    let (answers, _) = answers.as_chunks::<2>();
    let agreements = inputs.iter().zip(answers).map(|(input, answer)| {
        let [a, b, c, d, n] = input.map(from_bits::<f32>);
        let frame = operation(Frame::new(a, b), Frame::new(c, d), n);
        [to_bits(frame.left), to_bits(frame.right)] == *answer
    });
    try_all(rt, name, agreements)
}
