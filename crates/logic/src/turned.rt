//! Both walks over all signals.
ghost use Rattle.std.specs.Prelude.{◌≡◌, ◌<◌, ◌≤◌, length, None};
ghost use Rattle.network.specs.Limits.{minterms};
ghost use Rattle.network.specs.Nets.{size, nodes};
ghost use Rattle.network.specs.Parts.{net_of};
ghost use Rattle.theory.specs.Values.{target as inverting};
ghost use Rattle.logic.specs.Walks.{walked_into, AdmitSignals};
ghost use Rattle.logic.specs.Depends.{Marked};

use crate::logic::Logic;
use crate::needed::walk_needed;
use network::limits::MAX_SIGNALS;
use network::network::Network;

/// Every signal. A static, so that no call has to fill it.
static ALL: [bool; MAX_SIGNALS] = [true; MAX_SIGNALS];

/// Both walks: as the network is, into `plain`, whose first places hold the leaves' values,
/// and with the target's value inverted, into `turned`. `marks` has the target's dependents.
pub fn walk_both<L: Logic>(
    network: &Network,
    target: usize,
    marks: &[bool],
    plain: &mut [L::Value],
    turned: &mut [L::Value],
    fold: &mut [L::Value],
)
    requires aimed { target < nodes (net_of network.now) }
    requires marked { Marked (net_of network.now) target marks.now }
    requires first { size (net_of network.now) ≤ length plain.old }
    requires second { size (net_of network.now) ≤ length turned.old }
    requires marks { size (net_of network.now) ≤ length marks.now }
    requires scratch { minterms ≤ length fold.old }
    ensures plain { plain.new ≡ walked_into L.Logic.picks L.Logic.constants None (net_of network.now) plain.old plain.old }
    ensures turned { turned.new ≡ walked_into L.Logic.picks L.Logic.constants (inverting (net_of network.now) target) (net_of network.now) plain.old turned.old }
    ensures admits { AdmitSignals L.Logic.admits None (net_of network.now) plain.old plain.new }
    ensures inverted { AdmitSignals L.Logic.admits (inverting (net_of network.now) target) (net_of network.now) plain.old turned.new }
{
    walk_needed::<L>(network, target, &ALL, marks, plain, turned, fold);
}
