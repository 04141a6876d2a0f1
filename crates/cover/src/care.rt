//! A function on its care set.
ghost use Rattle.std.specs.Prelude.{◌≡◌, ℕ, ◌^◌, ◌<◌, true, false, ◌&&◌, nat_lt};
ghost use Rattle.cover.specs.Tables.{IsSet};
ghost use Rattle.cover.specs.Covers.{care_with};

use crate::cube::Cube;
use crate::fanins::Fanins;
use crate::shape::table;
use crate::table::{common, without};
use network::limits::MINTERMS;
use network::row::Function;

/// A function of so many fanins, and its care minterms: at the others any value will do.
#[derive(Clone, Copy)]
pub struct CareFunction {
    pub fanins: Fanins,
    pub function: Function,
    pub care: Function,
}

impl CareFunction {
    /// The minterms that are care with function 1.
    pub(crate) fn on(&self) -> Function
        ensures { IsSet result (λ y. nat_lt y (2 ^ self.now.fanins.count) && care_with true self.now y) }
    {
        common(domain(self.fanins), common(self.care, self.function))
    }

    /// The minterms that are care with function 0.
    pub(crate) fn off(&self) -> Function
        ensures { IsSet result (λ y. nat_lt y (2 ^ self.now.fanins.count) && care_with false self.now y) }
    {
        common(domain(self.fanins), without(self.care, self.function))
    }
}

/// The minterms of a node with so many fanins: the bits from there on are 0.
pub(crate) fn domain(fanins: Fanins) -> Function
    ensures { IsSet result (λ y. nat_lt y (2 ^ fanins.count)) }
{
    table(Cube {
        mask: MINTERMS as u16 - fanins.minterms(),
        values: 0,
    })
}
