//! Cubes.
ghost use Rattle.std.specs.Prelude.{◌≡◌, ℕ, ◌/◌, ◌^◌, ◌<◌};
ghost use Rattle.cover.specs.Cubes.{struck, start, cube_below};
ghost use Rattle.std.proofs.Common.{rules};

use crate::fanins::Fanins;
use network::row::Minterm;
use roll::order::Ranked;

/// Bit i of the mask is a literal on fanin i, and bit i of the values says which. A minterm is in the
/// cube if it has the values under the mask.
#[derive(Clone, Copy, PartialEq, Eq, Debug)]
pub struct Cube {
    pub mask: u16,
    pub values: u16,
}

/// By mask, then by values.
// A roll needs that of two unequal cubes one is below, which an `Ord` does not say.
impl Ranked for Cube {
    ghost below = { cube_below };

    ghost irreflexive = { Prim.search rules };

    ghost transitive = { Prim.search rules };

    ghost connected = { Prim.search rules };

    fn precedes(&self, other: &Cube) -> bool {
        (self.mask, self.values) < (other.mask, other.values)
    }
}

impl Cube {
    /// The cube of all literals: minterm y alone.
    pub(crate) fn of_minterm(fanins: Fanins, y: Minterm) -> Cube
        ensures { result ≡ start fanins.count y.0 }
    {
        Cube {
            mask: fanins.minterms() - 1,
            values: y.0,
        }
    }

    /// The cube without its literal on fanin i.
    pub(crate) fn strike(self, i: u16) -> Cube
        requires { i < 16 }
        ensures { result ≡ struck self i }
    {
        let keep = !(1u16 << i);
        Cube {
            mask: self.mask & keep,
            values: self.values & keep,
        }
    }
}
