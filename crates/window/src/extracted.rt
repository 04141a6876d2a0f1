//! A context: the members around a node, read as a network of their own.
ghost use Rattle.std.specs.Prelude.{◌≡◌, ◌<◌, ◌≤◌, length};
ghost use Rattle.network.specs.Nets.{nodes};
ghost use Rattle.network.specs.Parts.{net_of};
ghost use Rattle.window.specs.Limits.{max_leaves};

use network::network::Network;
use network::row::Signal;

mod build;
mod parts;

/// The extracted network, the node that the target is in it, and the signals that its inputs, the
/// leaves, stand for.
#[derive(Drop)]
pub struct Context {
    network: Network,
    target: usize,
    leaves: Vec<Signal>,
    ghost node: { target < nodes (net_of network) },
    ghost few: { (net_of network).inputs ≤ max_leaves },
    ghost named: { length leaves.items ≡ (net_of network).inputs },
}
