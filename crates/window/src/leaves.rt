//! The leaves of a context.
ghost use Rattle.std.specs.Prelude.{◌≡◌, ℕ, Bool, not, ◌&&◌, MatchResult, ◌==◌};
ghost use Rattle.network.specs.Parts.{net_of};
ghost use Rattle.context.specs.Windows.{is_leaf};
ghost use Rattle.window.specs.Sets.{has};
ghost use Rattle.window.specs.Lists.{listed};
ghost use Rattle.window.specs.Entries.{entries_of, Enters, NoLeaves, FoundLeaves};

use crate::leaf_list::LeafList;
use crate::limits::MAX_LEAVES;
use crate::nodes::node_signal;
use crate::refusal::ContextError;
use crate::region::Region;
use crate::set::SignalSet;
use network::row::Signal;
use roll::added::Added;
use roll::roll::Roll;
use std::alloc::Global;

impl<'a> LeafList<'a> {
    /// Enters the signal, unless it is a member; refused where no place is free.
    fn enter(&mut self, signal: Signal, members: &SignalSet) -> Result<(), ContextError>
        ensures { Enters (λ s. not (has members.now s) && signal.0 == s) (entries_of self.old) result (entries_of self.new) }
    {
        if members.has(signal) {
            return Ok(());
        }
        match self.roll.add(signal) {
            Added::Entered | Added::Present => Ok(()),
            Added::Full => Err(ContextError::Leaves),
        }
    }

    /// Enters the signals that are no members.
    fn enter_all(&mut self, signals: &[Signal], members: &SignalSet) -> Result<(), ContextError>
        ensures { Enters (λ s. not (has members.now s) && listed signals.now s) (entries_of self.old) result (entries_of self.new) }
    {
        for signal in signals {
            self.enter(*signal, members)?;
        }
        Ok(())
    }

    /// Enters the leaves.
    fn enter_leaves(&mut self, region: &Region) -> Result<(), ContextError>
        ensures { Enters (is_leaf (net_of region.now.network.now) (has region.now.members)) (entries_of self.old) result (entries_of self.new) }
    {
        for (n, row) in region.network.rows().iter().enumerate() {
            if region.members.has(node_signal(region.network, n)) {
                self.enter_all(row.used(), &region.members)?;
            }
        }
        Ok(())
    }
}

impl<'a> Region<'a> {
    /// The leaves, ascending.
    pub fn leaves(&self, heap: Global) -> Result<Vec<Signal>, ContextError>
        ensures { MatchResult result (λ v. FoundLeaves (net_of self.now.network.now) (has self.now.members) v.items) (NoLeaves (net_of self.now.network.now) (has self.now.members)) }
    {
        let mut places = [Signal(0); MAX_LEAVES];
        let mut list = LeafList {
            roll: Roll::over(&mut places),
        };
        list.enter_leaves(self)?;
        Ok(list.roll.entries().to_vec(heap)?)
    }
}
