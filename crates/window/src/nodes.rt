//! The nodes of a network, by their numbers.
ghost use Rattle.std.specs.Prelude.{◌≡◌, ℕ, ◌+◌, ◌<◌, ◌≤◌, Bool, false, ◌||◌, nat_lt};
ghost use Rattle.network.specs.Limits.{max_inputs, max_nodes};
ghost use Rattle.network.specs.Rows.{Legal};
ghost use Rattle.network.specs.Nets.{nodes, row_at};
ghost use Rattle.network.specs.Parts.{net_of};
ghost use Rattle.context.specs.Levels.{whole};
ghost use Rattle.window.specs.Sets.{has};

use crate::set::SignalSet;
use network::network::Network;
use network::row::{Row, Signal};

/// How many nodes there are.
pub(crate) fn node_count(network: &Network) -> usize
    ensures value { result ≡ nodes (net_of network.now) }
    ensures few { result ≤ max_nodes }
    ensures inputs { (net_of network.now).inputs ≤ max_inputs }
{
    network.rows().len()
}

/// Whether there is such a node.
pub(crate) fn is_node(network: &Network, n: usize) -> bool
    ensures { result ≡ nat_lt n (nodes (net_of network.now)) }
{
    n < node_count(network)
}

/// The signal of node n.
pub fn node_signal(network: &Network, n: usize) -> Signal
    requires { n < nodes (net_of network.now) }
    ensures value { result.0 ≡ (net_of network.now).inputs + n }
    ensures few { nodes (net_of network.now) ≤ max_nodes }
    ensures inputs { (net_of network.now).inputs ≤ max_inputs }
{
    Signal((network.inputs() + n) as u16)
}

/// The row of node n.
pub fn node_row(network: &Network, n: usize) -> &Row
    requires { n < nodes (net_of network.now) }
    ensures value { result.now ≡ row_at (net_of network.now) n }
    ensures legal { Legal ((net_of network.now).inputs + n) result.now }
{
    &network.rows()[n]
}

/// The marks, and the nodes whose numbers pass the test. Loops that do more with a node than mark it stand
/// where they are: each changes another thing, and some may fail.
pub(crate) fn with_nodes<F: Fn(usize) -> bool>(
    network: &Network,
    marks: SignalSet,
    test: F,
) -> SignalSet
    requires { (n : ℕ) → n < nodes (net_of network.now) → F.pre test n }
    ensures nodes { (n : ℕ) → n < nodes (net_of network.now) → (b : Bool) × F.post test n b × (has result ((net_of network.now).inputs + n) ≡ (has marks ((net_of network.now).inputs + n) || b)) }
    ensures others { (s : ℕ) → whole (net_of network.now) s ≡ false → has result s ≡ has marks s }
{
    let mut wider = marks;
    // The test is given the number of a node, and no place of a list.
    for n in 0..node_count(network) {
        if test(n) {
            wider.insert(node_signal(network, n));
        }
    }
    wider
}
