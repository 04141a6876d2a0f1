//! Both walks over a context: as its network is, and with the target's value inverted.
ghost use Rattle.std.specs.Prelude.{ℕ, ◌≤◌, length, take};
ghost use Rattle.network.specs.Limits.{minterms, max_signals};
ghost use Rattle.logic.specs.Lanes.{LaneRow, Admit};
ghost use Rattle.search.specs.Contexts.{net_in};
ghost use Rattle.search.specs.Plans.{Plans};
ghost use Rattle.search.specs.Lanes.{Shown, Valued};

use crate::plan::Plan;
use logic::logic::Logic;
use logic::needed::walk_needed;
use window::extracted::Context;

/// Both walks, from the leaves' values in the first places of `plain`. Only what matters to the target or
/// to a root is valued, and only what depends on the target is valued twice.
pub fn walk_context<L: Logic>(
    context: &Context,
    plan: &Plan,
    plain: &mut [L::Value],
    turned: &mut [L::Value],
    fold: &mut [L::Value],
)
    requires plan { Plans context.now plan.now }
    requires first { max_signals ≤ length plain.old }
    requires second { max_signals ≤ length turned.old }
    requires scratch { minterms ≤ length fold.old }
    ensures values { Valued L.Logic.picks L.Logic.constants context.now (take (net_in context.now).inputs plain.old) plain.new turned.new }
    ensures shown { (rows : ℕ → LaneRow) → Admit L.Logic.admits plain.old (net_in context.now).inputs rows → Shown L.Logic.admits context.now rows plain.new turned.new }
{
    walk_needed::<L>(
        context.network(),
        context.target(),
        plan.needed(),
        plan.marks(),
        plain,
        turned,
        fold,
    );
}
