// A delay's line of frames, left and right of each frame side by side. kira's `delay.rs` moves its
// whole buffer along; here the frame at the position is read, and the new one stored in its place.
ghost use Rattle.std.specs.Prelude.{◌≡◌};
ghost use Rattle.line.specs.Frames.{frame_at, frame_in};

use crate::floats::{float_at, put_float};
use frame::Frame;

// The frame at a position, counted in frames. What lies past the line's end is read as NaN.
pub fn frame_at(line: &[f32], at: usize) -> Frame
    ensures { result ≡ frame_at at line.now }
{
    if at < line.len() {
        Frame {
            left: float_at(line, 2 * at),
            right: float_at(line, 2 * at + 1),
        }
    } else {
        Frame::from_mono(f32::NAN)
    }
}

// Stores a frame at a position, counted in frames. Past the line's end nothing is stored.
pub fn put_frame(line: &mut [f32], at: usize, x: Frame)
    ensures { line.new ≡ frame_in at x line.old }
{
    if at < line.len() {
        put_float(line, 2 * at, x.left);
        put_float(line, 2 * at + 1, x.right);
    }
}
