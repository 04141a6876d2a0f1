//! The parts of a context.
ghost use Rattle.std.specs.Prelude.{◌≡◌, ◌<◌, ◌≤◌, length};
ghost use Rattle.network.specs.Nets.{nodes};
ghost use Rattle.network.specs.Parts.{net_of};
ghost use Rattle.window.specs.Limits.{max_leaves};

use super::Context;
use network::network::Network;
use network::row::Signal;

impl Context {
    /// The extracted network; its inputs are the leaves.
    pub fn network(&self) -> &Network
        ensures value { result.now ≡ self.now.network }
        ensures few { (net_of result.now).inputs ≤ max_leaves }
    {
        &self.network
    }

    /// The node of the extracted network that the target is.
    pub fn target(&self) -> usize
        ensures value { result ≡ self.now.target }
        ensures node { result < nodes (net_of self.now.network) }
    {
        self.target
    }

    /// The signals that the leaves stand for, ascending.
    pub fn leaves(&self) -> &[Signal]
        ensures value { result.now ≡ self.now.leaves.items }
        ensures count { length result.now ≡ (net_of self.now.network).inputs }
    {
        self.leaves.as_slice()
    }
}
