//! The members around a node.
ghost use Rattle.std.specs.Prelude.{◌≡◌, ℕ, ◌+◌, ◌<◌, ◌≤◌, true};
ghost use Rattle.network.specs.Nets.{size};
ghost use Rattle.network.specs.Parts.{net_of};
ghost use Rattle.window.specs.Sets.{has};

use crate::set::SignalSet;
use network::network::Network;

/// A node of a network, and the members of its context: nodes, the node itself among them.
#[derive(Clone, Copy)]
pub struct Region<'a> {
    pub network: &'a Network,
    pub node: usize,
    pub members: SignalSet,
    ghost above: { (s : ℕ) → has members s ≡ true → (net_of network.now).inputs ≤ s },
    ghost inside: { (s : ℕ) → has members s ≡ true → s < size (net_of network.now) },
    ghost held: { has members ((net_of network.now).inputs + node) ≡ true },
}
