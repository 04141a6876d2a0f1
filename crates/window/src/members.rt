//! The members of a context.
ghost use Rattle.std.specs.Prelude.{◌≡◌, ℕ, ◌+◌, ◌<◌, ◌≤◌, Bool, false, ◌&&◌, ◌==◌, MatchResult};
ghost use Rattle.network.specs.Nets.{nodes};
ghost use Rattle.network.specs.Parts.{net_of};
ghost use Rattle.context.specs.Levels.{whole, into, outof};
ghost use Rattle.window.specs.Limits.{max_level};
ghost use Rattle.window.specs.Refusals.{number_of};
ghost use Rattle.window.specs.Scopes.{too_high, member_of};
ghost use Rattle.window.specs.Sets.{has};
ghost use Rattle.window.specs.Contexts.{refusal_of};
ghost use Rattle.window.specs.Regions.{IsRegion};

use crate::levels::{reached, reaching};
use crate::nodes::{is_node, node_signal, with_nodes};
use crate::refusal::ContextError;
use crate::region::Region;
use crate::scope::Scope;
use crate::set::SignalSet;
use network::network::Network;

/// All nodes.
fn all_nodes(network: &Network) -> SignalSet
    ensures { (s : ℕ) → has result s ≡ whole (net_of network.now) s }
{
    with_nodes(network, SignalSet::empty(), |_n| true)
}

/// The nodes that are in both sets.
pub fn common_nodes(network: &Network, a: &SignalSet, b: &SignalSet) -> SignalSet
    ensures { (s : ℕ) → has result s ≡ (whole (net_of network.now) s && (has a.now s && has b.now s)) }
{
    with_nodes(network, SignalSet::empty(), |n| {
        let signal = node_signal(network, n);
        a.has(signal) && b.has(signal)
    })
}

/// The set of the node's signal alone.
fn only(network: &Network, node: usize) -> SignalSet
    requires { node < nodes (net_of network.now) }
    ensures { (s : ℕ) → has result s ≡ ((net_of network.now).inputs + node == s) }
{
    let mut set = SignalSet::empty();
    set.insert(node_signal(network, node));
    set
}

/// The nodes of the window around a set of signals.
fn window(network: &Network, target: SignalSet, inward: u8, outward: u8) -> SignalSet
    requires inner { inward ≤ max_level }
    requires outer { outward ≤ max_level }
    ensures { (s : ℕ) → has result s ≡ (whole (net_of network.now) s && (into (net_of network.now) (outof (net_of network.now) (has target) outward) (inward + outward) s && outof (net_of network.now) (into (net_of network.now) (has target) inward) (inward + outward) s)) }
{
    let above = reached(network, target, outward);
    let below = reaching(network, target, inward);
    let edges = inward + outward;
    let towards = reaching(network, above, edges);
    let onward = reached(network, below, edges);
    common_nodes(network, &towards, &onward)
}

impl Scope {
    /// The members of the context of a node.
    fn members(self, network: &Network, node: usize) -> SignalSet
        requires node { node < nodes (net_of network.now) }
        requires low { too_high self ≡ false }
        ensures { (s : ℕ) → has result s ≡ member_of (net_of network.now) node self s }
    {
        match self {
            Scope::Whole => all_nodes(network),
            Scope::Window { inward, outward } => {
                window(network, only(network, node), inward, outward)
            }
        }
    }
}

impl<'a> Region<'a> {
    /// The members around a node, by the scope; or why there are none.
    pub fn around(
        network: &'a Network,
        node: usize,
        scope: Scope,
    ) -> Result<Region<'a>, ContextError>
        ensures { MatchResult result (IsRegion (net_of network.now) node scope) (λ e. refusal_of (net_of network.now) node scope ≡ number_of e) }
    {
        if !is_node(network, node) {
            return Err(ContextError::NoNode);
        }
        if scope.is_too_high() {
            return Err(ContextError::Level);
        }
        Ok(Region {
            network,
            node,
            members: scope.members(network, node),
        })
    }
}
