//! The extracted network.
ghost use Rattle.std.specs.Prelude.{◌≡◌, ℕ, length, IfOk, MatchResult};
ghost use Rattle.network.specs.Nets.{size, bare};
ghost use Rattle.network.specs.Parts.{net_of};
ghost use Rattle.context.specs.Windows.{leaves_of};
ghost use Rattle.context.specs.Extracts.{extract_of};
ghost use Rattle.window.specs.Sets.{has};
ghost use Rattle.window.specs.Parts.{rows_to};

use crate::nodes::node_signal;
use crate::numbered::Numbered;
use crate::refusal::ContextError;
use network::network::Network;
use network::row::Signal;
use std::alloc::{AllocError, Global};

impl<'a> Numbered<'a> {
    /// Appends the rows of the members, renumbered.
    fn append_members(&self, out: &mut Network) -> Result<(), AllocError>
        requires { net_of out.old ≡ bare (length (leaves_of (net_of self.now.region.network.now) (has self.now.region.members))) }
        ensures { IfOk result (λ _. net_of out.new ≡ rows_to (net_of self.now.region.network.now) (has self.now.region.members) (size (net_of self.now.region.network.now))) }
    {
        let network = self.region.network;
        for (n, row) in network.rows().iter().enumerate() {
            if self.region.members.has(node_signal(network, n)) {
                out.append_row(self.numbers.row(row))?;
            }
        }
        Ok(())
    }

    /// Appends the roots, renumbered.
    fn append_roots(&self, out: &mut Network) -> Result<(), AllocError>
        requires { net_of out.old ≡ rows_to (net_of self.now.region.network.now) (has self.now.region.members) (size (net_of self.now.region.network.now)) }
        ensures { IfOk result (λ _. net_of out.new ≡ extract_of (net_of self.now.region.network.now) (has self.now.region.members) self.now.region.node) }
    {
        let roots = self.region.roots();
        // The number of a signal is meant, and no place of a list.
        for s in 0..self.region.network.signals() {
            let signal = Signal(s as u16);
            if roots.has(signal) {
                out.append_output(self.numbers.of(signal))?;
            }
        }
        Ok(())
    }

    /// The members, read as a network of their own.
    pub fn extract(&self, heap: Global) -> Result<Network, ContextError>
        ensures { MatchResult result (λ n. net_of n ≡ extract_of (net_of self.now.region.network.now) (has self.now.region.members) self.now.region.node) (λ e. e ≡ ContextError.NoMemory) }
    {
        let mut out = Network::new(heap, self.leaves.len()).unwrap();
        self.append_members(&mut out)?;
        self.append_roots(&mut out)?;
        Ok(out)
    }
}
