// What is worked out once for a call and holds throughout it, and with it the steps of top stages on a block
// that was accepted, one after another. Samples, store and outcome stay separate parameters: a record of
// several `&mut`s has a contract in nested pairs at `.exit`, and no function can split it, since a function
// lends on behalf of one lender only.
ghost use Rattle.std.specs.Prelude.{◌≡◌, ◌-◌, ◌<◌, get_or, replicate, IfOk};
ghost use Rattle.line_layout.specs.Layout.{starts_of};
ghost use Rattle.top_stages.specs.Tops.{tops_of, tops_record};
ghost use Rattle.chain.specs.Chain.{frames_of, Ready, May, Orderly, stepped, ordered};
ghost use Rattle.chain.specs.Block.{block, answer_given};
ghost use Rattle.chain.specs.Run.{answer_on, order_to_end};

use crate::run::Outcome;
use answer::Refusal;
use frame::Frame;
use line_layout::layout::Layout;
use memories::{PLACE_FLOATS, PLACE_POSITIONS};
use refusals::call::check;
use stage::setup::Setup;
use stage_step::place;
use top_stages::Tops;

// A chain and where its lines start, and where its top stages stand.
#[derive(Clone, Copy)]
pub(crate) struct Plan {
    pub layout: Layout,
    pub tops: Tops,
    ghost starts_are: { layout.starts ≡ starts_of layout.setup },
    ghost tops_are: { tops ≡ tops_record layout.setup },
}

impl Plan {
    // Checks a call with this order, and gives the plan of the chain or the first refusal that applies.
    pub(crate) fn accepted(
        setup: Setup,
        samples: &[f32],
        store: &[f32],
        outcome: &Outcome,
        order: &[usize],
    ) -> Result<Plan, Refusal>
        ensures answer { answer_given result ≡ answer_on setup (block samples.now store.now outcome.now) order.now }
        ensures setup { IfOk result (λ plan. plan.layout.setup ≡ setup) }
    {
        let checked = check(
            setup,
            store.len(),
            samples,
            &outcome.memories.positions,
            &outcome.progress,
            order,
        );
        checked.answer?;
        Ok(Plan {
            layout: checked.layout,
            tops: checked.tops,
        })
    }

    // Runs top stage k on its next frame.
    fn advance(&self, k: usize, samples: &mut [f32], store: &mut [f32], outcome: &mut Outcome)
        requires ready { Ready self.now.layout.setup (block samples.old store.old outcome.old) }
        requires may { May self.now.layout.setup (block samples.old store.old outcome.old) k }
        ensures { block samples.new store.new outcome.new ≡ stepped self.now.layout.setup k (block samples.old store.old outcome.old) }
    {
        let i = self.tops.places[k];
        let e = self.tops.places[k + 1];
        let a = self.layout.starts[i];
        let b = self.layout.starts[e];
        let p = PLACE_POSITIONS * i;
        let pe = PLACE_POSITIONS * e;
        let f = PLACE_FLOATS * i;
        let fe = PLACE_FLOATS * e;
        let done = outcome.progress[k];
        let at = 2 * done;
        let x = Frame {
            left: samples[at],
            right: samples[at + 1],
        };
        let y = place::process(
            &self.layout,
            i,
            e,
            x,
            &mut store[a..b],
            &mut outcome.memories.positions[p..pe],
            &mut outcome.memories.floats[f..fe],
        );
        samples[at] = y.left;
        samples[at + 1] = y.right;
        outcome.progress[k] = done + 1;
    }

    // Runs an order, entry by entry.
    pub(crate) fn advance_all(
        &self,
        order: &[usize],
        samples: &mut [f32],
        store: &mut [f32],
        outcome: &mut Outcome,
    )
        requires ready { Ready self.now.layout.setup (block samples.old store.old outcome.old) }
        requires orderly { Orderly self.now.layout.setup (block samples.old store.old outcome.old) order.now }
        ensures { block samples.new store.new outcome.new ≡ ordered self.now.layout.setup (block samples.old store.old outcome.old) order.now }
    {
        for k in order {
            self.advance(*k, samples, store, outcome);
        }
    }

    // Runs top stage k on all the frames that it has left.
    fn advance_to_end(
        &self,
        k: usize,
        samples: &mut [f32],
        store: &mut [f32],
        outcome: &mut Outcome,
    )
        requires ready { Ready self.now.layout.setup (block samples.old store.old outcome.old) }
        requires k_bound { k < tops_of self.now.layout.setup }
        requires orderly { Orderly self.now.layout.setup (block samples.old store.old outcome.old) (replicate (frames_of samples.old - get_or outcome.old.progress k 0) k) }
        ensures { block samples.new store.new outcome.new
            ≡ ordered self.now.layout.setup (block samples.old store.old outcome.old) (replicate (frames_of samples.old - get_or outcome.old.progress k 0) k) }
    {
        let frames = samples.len() / 2;
        while outcome.progress[k] < frames {
            self.advance(k, samples, store, outcome);
        }
    }

    // Runs every top stage to the last frame, one stage after another.
    pub(crate) fn finish(&self, samples: &mut [f32], store: &mut [f32], outcome: &mut Outcome)
        requires ready { Ready self.now.layout.setup (block samples.old store.old outcome.old) }
        ensures { block samples.new store.new outcome.new
            ≡ ordered self.now.layout.setup (block samples.old store.old outcome.old) (order_to_end self.now.layout.setup (block samples.old store.old outcome.old)) }
    {
        for k in 0..self.tops.n {
            self.advance_to_end(k, samples, store, outcome);
        }
    }
}
