// How a position moves along a line: one place on, and from the last place to the first.
ghost use Rattle.std.specs.Prelude.{◌≡◌};
ghost use Rattle.line.specs.Position.{next_position};

// The position after `at` on a line of this length: 0 from the last place on, past the end included.
pub fn next_position(at: usize, length: usize) -> usize
    ensures { result ≡ next_position at length }
{
    match at.checked_add(1) {
        Some(next) if next < length => next,
        _ => 0,
    }
}
