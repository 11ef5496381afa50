// Refusal 3: a delay owns stages beyond the list's end or its owner's end, or a stage is too deep. Five
// private functions ask for i < places, since each indexes the 16 slots.
ghost use Rattle.std.specs.Prelude.{◌≡◌, ◌<◌};
ghost use Rattle.theory_tables.specs.First.{found_of};
ghost use Rattle.theory_tables.specs.Condition.{decide, among};
ghost use Rattle.memories.specs.Sizes.{places};
ghost use Rattle.stage.specs.Holding.{owned_of};
ghost use Rattle.stage.specs.Setup.{stage_at, used_of};
ghost use Rattle.refusals.specs.Shape.{owns, outgrows, depth_of, faulty};

use stage::setup::Setup;

// How many stages after it the stage at i owns.
fn owned_at(setup: &Setup, i: usize) -> usize
    requires { i < places }
    ensures { result ≡ owned_of (stage_at setup.now i) }
{
    setup.slots[i].stage.holding().owned
}

// Whether the stage at j owns the stage at i.
fn is_owner(setup: &Setup, j: usize, i: usize) -> bool
    requires { (j < i) × (i < places) }
    ensures { result ≡ decide (owns setup.now j i) }
{
    i - j <= owned_at(setup, j)
}

// Whether the stage at j owns the stage at i, but not every stage that i owns.
fn is_outgrown(setup: &Setup, j: usize, i: usize) -> bool
    requires { (j < i) × (i < places) }
    ensures { result ≡ decide (outgrows setup.now i j) }
{
    let n = owned_at(setup, j);
    i - j <= n && n - (i - j) < owned_at(setup, i)
}

// Whether a stage owns the stage at i, but not every stage that i owns.
fn outgrows_an_owner(setup: &Setup, i: usize) -> bool
    requires { i < places }
    ensures { result ≡ decide (among i (outgrows setup.now i)) }
{
    (0..i).any(|j| is_outgrown(setup, j, i))
}

// The depth of the stage at i: how many stages own it.
fn depth(setup: &Setup, i: usize) -> usize
    requires { i < places }
    ensures { result ≡ depth_of setup.now i i }
{
    (0..i).filter(|j| is_owner(setup, *j, i)).count()
}

// Whether the stage at i has a wrong shape or is too deep.
fn is_faulty(setup: &Setup, i: usize) -> bool
    requires { i < used_of setup.now }
    ensures { result ≡ decide (faulty setup.now i) }
{
    setup.used() - i <= owned_at(setup, i) || outgrows_an_owner(setup, i) || 3 < depth(setup, i)
}

// The first stage that has a wrong shape or is too deep.
pub(crate) fn first_faulty(setup: &Setup) -> Option<usize>
    ensures { result ≡ found_of (λ i. decide (faulty setup.now i)) (used_of setup.now) }
{
    (0..setup.used()).find(|i| is_faulty(setup, *i))
}
