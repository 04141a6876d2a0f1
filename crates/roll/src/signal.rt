//! Signals, by their number.
ghost use Rattle.roll.specs.Signals.{signal_below};
ghost use Rattle.std.proofs.Common.{rules};

use crate::order::Ranked;
use network::row::Signal;

impl Ranked for Signal {
    ghost below = { signal_below };

    ghost irreflexive = { Prim.search rules };

    ghost transitive = { Prim.search rules };

    ghost connected = { Prim.search rules };

    fn precedes(&self, other: &Signal) -> bool {
        self.0 < other.0
    }
}
