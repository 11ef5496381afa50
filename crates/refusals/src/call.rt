// All eleven refusals of a call on a block. What the checks work out on the way is given back too, so that
// it is worked out once: where lines start, and where the top stages stand.
ghost use Rattle.std.specs.Prelude.{◌≡◌};
ghost use Rattle.theory_tables.specs.Rows.{first_row};
ghost use Rattle.line_layout.specs.Layout.{starts_of};
ghost use Rattle.top_stages.specs.Tops.{tops_record};
ghost use Rattle.answer.specs.Answer.{accepted};
ghost use Rattle.refusals.specs.Refusals.{all_rows, answer_of};

use crate::chain::check_chain;
use crate::samples::check_samples;
use crate::state::check_state;
use answer::Answer;
use line_layout::layout::Layout;
use memories::{ALL_POSITIONS, PLACES};
use order_entries::check_order;
use stage::setup::Setup;
use top_stages::Tops;

// What the checks give: the answer, the chain with where its lines lie, and the top stages. It is a record
// and no `Result`, since layout and top stages are promised of a refused call too.
#[derive(Clone, Copy, Debug, PartialEq)]
pub struct Checked {
    pub answer: Answer,
    pub layout: Layout,
    pub tops: Tops,
}

// The checks in document 01's order, up to the first that refuses. A struct for the parameters would be made
// for the one call below.
fn first_refusal(
    setup: &Setup,
    needed: usize,
    tops: usize,
    floats: usize,
    samples: &[f32],
    positions: &[usize; ALL_POSITIONS],
    progress: &[usize; PLACES],
    order: &[usize],
) -> Answer
    ensures { result ≡ first_row (all_rows setup.now needed tops floats samples.now positions.now progress.now order.now) accepted }
{
    check_chain(setup, needed, floats)?;
    check_state(setup, tops, positions, samples.len(), progress)?;
    check_samples(tops, samples, progress)?;
    check_order(tops, samples.len() / 2, progress, order)
}

// All eleven checks: the first refusal that applies. `floats` is the length of the line store.
pub fn check(
    setup: Setup,
    floats: usize,
    samples: &[f32],
    positions: &[usize; ALL_POSITIONS],
    progress: &[usize; PLACES],
    order: &[usize],
) -> Checked
    ensures { (result.answer ≡ answer_of setup floats samples.now positions.now progress.now order.now)
        × (result.layout.setup ≡ setup) × (result.layout.starts ≡ starts_of setup) × (result.tops ≡ tops_record setup) }
{
    let layout = Layout::of(setup);
    let needed = layout.starts[setup.used()];
    let tops = Tops::of(setup);
    let answer = first_refusal(
        &setup, needed, tops.n, floats, samples, positions, progress, order,
    );
    Checked {
        answer,
        layout,
        tops,
    }
}
