// A step of the stage at a list place.
ghost use Rattle.std.specs.Prelude.{◌≡◌};
ghost use Rattle.line.specs.Held.{holds, ran};
ghost use Rattle.stage_step.specs.Step.{process_at};

use crate::dispatch::step;
use frame::Frame;
use line_layout::layout::Layout;
use memories::PLACES;

// The frame x through the stage at place i, whose feedback stages are at i + 1 to e - 1, with their
// stretch of the store, the positions and the floats. The layout says where lines start. Where i is not
// before e, or e is above 16, the frame comes back and nothing changes.
pub fn process(
    layout: &Layout,
    i: usize,
    e: usize,
    x: Frame,
    store: &mut [f32],
    positions: &mut [usize],
    floats: &mut [f32],
) -> Frame
    ensures { ran result (holds store.new positions.new floats.new)
        ≡ process_at layout.now.setup layout.now.starts i e (ran x (holds store.old positions.old floats.old)) }
{
    if i >= e || e > PLACES {
        return x;
    }
    step(layout, i, e, 3, x, store, positions, floats)
}
