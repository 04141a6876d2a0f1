//! Making a plan.
ghost use Rattle.std.specs.Prelude.{◌≡◌, ℕ, ◌+◌, ◌||◌, length, ◌==◌};
ghost use Rattle.context.specs.Windows.{is_output};
ghost use Rattle.window.specs.Sets.{has};
ghost use Rattle.network.specs.Limits.{max_signals};
ghost use Rattle.search.specs.Contexts.{net_in};
ghost use Rattle.search.specs.Plans.{Needs, Plans};

use super::Plan;
use logic::dependents::mark_dependents;
use network::limits::MAX_SIGNALS;
use window::extracted::Context;
use window::nodes::{node_row, node_signal};
use window::set::SignalSet;

/// The target and the roots.
fn seeds(context: &Context) -> SignalSet
    ensures { (s : ℕ) → has result s ≡ ((net_in context.now).inputs + context.now.target == s || is_output (net_in context.now) s) }
{
    let network = context.network();
    let mut set = SignalSet::empty();
    set.insert(node_signal(network, context.target()));
    set.insert_all(network.outputs());
    set
}

/// The signals that matter to the target or to a root.
fn needed(context: &Context) -> SignalSet
    ensures { Needs (net_in context.now) context.now.target result }
{
    let network = context.network();
    let mut set = seeds(context);
    for (n, row) in network.rows().iter().enumerate().rev() {
        if set.has(node_signal(network, n)) {
            set.insert_fanins(row);
        }
    }
    set
}

impl Plan {
    /// The plan of a context.
    pub fn of(context: &Context) -> Plan
        ensures { Plans context.now result }
    {
        let mut marks = [false; MAX_SIGNALS];
        mark_dependents(context.network(), context.target(), &mut marks);
        Plan {
            needed: needed(context),
            marks,
        }
    }

    /// The signals that matter to the target or to a root.
    pub fn needed(&self) -> &[bool]
        ensures value { result.now ≡ self.now.needed.flags }
        ensures count { length result.now ≡ max_signals }
    {
        self.needed.flags()
    }

    /// For each signal whether it depends on the target.
    pub fn marks(&self) -> &[bool]
        ensures value { result.now ≡ self.now.marks }
        ensures count { length result.now ≡ max_signals }
    {
        &self.marks
    }
}
