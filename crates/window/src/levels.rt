//! What lies within some edges of a set of signals.
ghost use Rattle.std.specs.Prelude.{◌≡◌, ℕ, ◌||◌};
ghost use Rattle.network.specs.Nets.{nodes};
ghost use Rattle.network.specs.Parts.{net_of};
ghost use Rattle.context.specs.Levels.{into, outof};
ghost use Rattle.window.specs.Sets.{has, feeds, fed};

use crate::nodes::{node_row, node_signal, with_nodes};
use crate::set::SignalSet;
use network::network::Network;

/// The marks, and the fanins of the nodes that are in `from`.
pub fn widen_in(network: &Network, from: &SignalSet, marks: SignalSet) -> SignalSet
    ensures { (s : ℕ) → has result s ≡ (has marks s || feeds (net_of network.now) (has from.now) (nodes (net_of network.now)) s) }
{
    let mut wider = marks;
    for (n, row) in network.rows().iter().enumerate() {
        if from.has(node_signal(network, n)) {
            wider.insert_fanins(row);
        }
    }
    wider
}

/// The set, and the fanins of its nodes. In place: a fanin is lower than its node, so each node is looked at
/// before anything is inserted that is not lower, and no copy of the set has to be kept.
fn with_fanins(network: &Network, set: SignalSet) -> SignalSet
    ensures { (s : ℕ) → has result s ≡ (has set s || feeds (net_of network.now) (has set) (nodes (net_of network.now)) s) }
{
    let mut wider = set;
    for (n, row) in network.rows().iter().enumerate() {
        if wider.has(node_signal(network, n)) {
            wider.insert_fanins(row);
        }
    }
    wider
}

/// The set, and the nodes that have a fanin in it. In place, from the last node down: a fanin is lower than
/// its node, so whatever a node reads is what the set had.
fn with_readers(network: &Network, set: SignalSet) -> SignalSet
    ensures { (s : ℕ) → has result s ≡ (has set s || fed (net_of network.now) (has set) (nodes (net_of network.now)) s) }
{
    let mut wider = set;
    for (n, row) in network.rows().iter().enumerate().rev() {
        if wider.has_any(row.used()) {
            wider.insert(node_signal(network, n));
        }
    }
    wider
}

/// The signals from which some signal of the set is reached in at most that many edges.
pub fn reaching(network: &Network, set: SignalSet, edges: u8) -> SignalSet
    ensures { (s : ℕ) → has result s ≡ into (net_of network.now) (has set) edges s }
{
    (0..edges).fold(set, |all, _edge| with_fanins(network, all))
}

/// The signals that are reached from some signal of the set in at most that many edges.
pub fn reached(network: &Network, set: SignalSet, edges: u8) -> SignalSet
    ensures { (s : ℕ) → has result s ≡ outof (net_of network.now) (has set) edges s }
{
    (0..edges).fold(set, |all, _edge| with_readers(network, all))
}
