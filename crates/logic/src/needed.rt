//! Both walks at once, over the signals that are needed: as the network is, and with a node's value inverted.
ghost use Rattle.std.specs.Prelude.{◌≡◌, ◌<◌, ◌≤◌, length, take, drop, None, slice_index_or, slice_set};
ghost use Rattle.network.specs.Limits.{minterms};
ghost use Rattle.network.specs.Nets.{size, nodes};
ghost use Rattle.network.specs.Parts.{net_of};
ghost use Rattle.theory.specs.Values.{target as inverting};
ghost use Rattle.logic.specs.Folds.{inverse_of};
ghost use Rattle.logic.specs.Walks.{walked, over, WalkedWhere, AdmitWhere};
ghost use Rattle.logic.specs.Depends.{Marked};
ghost use Rattle.logic.specs.Sets.{Closed};

use crate::front::put_front;
use crate::logic::Logic;
use crate::walk::{inverse, walk_wanted};
use network::network::Network;

/// Copies the first `size` values, and puts the other value at one of them.
fn put_inverted<L: Logic>(size: usize, at: usize, plain: &[L::Value], turned: &mut [L::Value])
    requires within { at < size }
    requires first { size ≤ length plain.now }
    requires second { size ≤ length turned.old }
    ensures { (d : L.Value) → turned.new ≡ slice_set (over (take size plain.now) turned.old) at (inverse_of L.Logic.picks L.Logic.constants (slice_index_or plain.now at d)) }
{
    put_front(&plain[0..size], turned);
    turned[at] = inverse::<L>(plain[at]);
}

/// Both walks: as the network is, into `plain`, whose first places hold the leaves' values, and with the
/// target's value inverted, into `turned`. `marks` has the target's dependents: only they have another value
/// in the second walk. Only the signals of `needed`, which has the fanins of each of its nodes, get their
/// values; other places of a signal may hold anything, and what stands behind the last signal stays.
pub fn walk_needed<L: Logic>(
    network: &Network,
    target: usize,
    needed: &[bool],
    marks: &[bool],
    plain: &mut [L::Value],
    turned: &mut [L::Value],
    fold: &mut [L::Value],
)
    requires aimed { target < nodes (net_of network.now) }
    requires closed { Closed (net_of network.now) needed.now }
    requires marked { Marked (net_of network.now) target marks.now }
    requires first { size (net_of network.now) ≤ length plain.old }
    requires second { size (net_of network.now) ≤ length turned.old }
    requires needs { size (net_of network.now) ≤ length needed.now }
    requires marks { size (net_of network.now) ≤ length marks.now }
    requires scratch { minterms ≤ length fold.old }
    ensures plain { WalkedWhere needed.now (size (net_of network.now)) (walked L.Logic.picks L.Logic.constants None (net_of network.now).rows (take (net_of network.now).inputs plain.old)) plain.new }
    ensures turned { WalkedWhere needed.now (size (net_of network.now)) (walked L.Logic.picks L.Logic.constants (inverting (net_of network.now) target) (net_of network.now).rows (take (net_of network.now).inputs plain.old)) turned.new }
    ensures admits { AdmitWhere needed.now L.Logic.admits None (net_of network.now) plain.old plain.new }
    ensures inverted { AdmitWhere needed.now L.Logic.admits (inverting (net_of network.now) target) (net_of network.now) plain.old turned.new }
    ensures behind { drop (size (net_of network.now)) plain.new ≡ drop (size (net_of network.now)) plain.old }
    ensures behind_turned { drop (size (net_of network.now)) turned.new ≡ drop (size (net_of network.now)) turned.old }
{
    walk_wanted::<L, _>(network, 0, None, |s| needed[s], plain, fold);
    put_inverted::<L>(network.signals(), network.inputs() + target, plain, turned);
    walk_wanted::<L, _>(
        network,
        target + 1,
        None,
        |s| needed[s] & marks[s],
        turned,
        fold,
    );
}
