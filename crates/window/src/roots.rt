//! The roots of a context.
ghost use Rattle.std.specs.Prelude.{◌≡◌, ℕ, ◌+◌, ◌<◌, Bool, not, ◌&&◌, ◌||◌};
ghost use Rattle.network.specs.Nets.{size};
ghost use Rattle.network.specs.Parts.{net_of};
ghost use Rattle.context.specs.Levels.{whole};
ghost use Rattle.context.specs.Windows.{reach_of, is_exposed, is_root};
ghost use Rattle.window.specs.Sets.{has};
ghost use Rattle.window.specs.Lists.{some_in};

use crate::levels::widen_in;
use crate::members::common_nodes;
use crate::nodes::{node_signal, with_nodes};
use crate::region::Region;
use crate::set::SignalSet;
use network::row::Signal;

/// Whether the target leads to the node with those fanins through members, where `led` has the lower
/// signals to which it does.
fn is_led(fanins: &[Signal], is_member: bool, is_target: bool, led: &SignalSet) -> bool
    ensures { result ≡ (is_member && (is_target || some_in (has led.now) fanins.now)) }
{
    is_member && (is_target || led.has_any(fanins))
}

impl<'a> Region<'a> {
    /// The signals to which the node leads through members.
    fn led(&self) -> SignalSet
        ensures { (s : ℕ) → s < size (net_of self.now.network.now) → has result s ≡ reach_of (net_of self.now.network.now) (has self.now.members) ((net_of self.now.network.now).inputs + self.now.node) s }
    {
        // Each test reads the set as it has grown so far, which `with_nodes` shows to no test.
        let mut led = SignalSet::empty();
        for (n, row) in self.network.rows().iter().enumerate() {
            let signal = node_signal(self.network, n);
            if is_led(row.used(), self.members.has(signal), n == self.node, &led) {
                led.insert(signal);
            }
        }
        led
    }

    /// The nodes that are no members.
    fn others(&self) -> SignalSet
        ensures { (s : ℕ) → has result s ≡ (whole (net_of self.now.network.now) s && not (has self.now.members s)) }
    {
        with_nodes(self.network, SignalSet::empty(), |n| {
            !self.members.has(node_signal(self.network, n))
        })
    }

    /// The outputs and the fanins of nodes that are no members.
    fn exposed(&self) -> SignalSet
        ensures { (s : ℕ) → has result s ≡ is_exposed (net_of self.now.network.now) (has self.now.members) s }
    {
        let mut outputs = SignalSet::empty();
        outputs.insert_all(self.network.outputs());
        widen_in(self.network, &self.others(), outputs)
    }

    /// The roots.
    pub fn roots(&self) -> SignalSet
        ensures { (s : ℕ) → s < size (net_of self.now.network.now) → has result s ≡ is_root (net_of self.now.network.now) (has self.now.members) ((net_of self.now.network.now).inputs + self.now.node) s }
    {
        common_nodes(self.network, &self.led(), &self.exposed())
    }
}
