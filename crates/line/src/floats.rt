// Reads and stores a float at a place of a line, for combs, all-passes and lines of frames.
ghost use Rattle.std.specs.Prelude.{◌≡◌, get_or, set};
ghost use Rattle.std.specs.Float.{nan};

// The float at a place; NaN past the line's end.
pub(crate) fn float_at(line: &[f32], place: usize) -> f32
    ensures { result ≡ get_or line.now place nan }
{
    line.get(place).copied().unwrap_or(f32::NAN)
}

// Stores a float at a place; past the line's end nothing is stored. (A slice's `get_mut` promises
// nothing of what the slice ends as.)
pub(crate) fn put_float(line: &mut [f32], place: usize, x: f32)
    ensures { line.new ≡ set line.old place x }
{
    if place < line.len() {
        line[place] = x;
    }
}
