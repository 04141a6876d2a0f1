//! Plain bits: one lane.
ghost use Rattle.logic.specs.Bits.{bit_admits, bit_is, bit_pick};
ghost use Rattle.std.proofs.Common.{rules};

use crate::logic::{Exact, Logic};

/// The logic of plain bits.
#[derive(Clone, Copy)]
pub struct Bits;

impl Logic for Bits {
    type Value = bool;

    ghost LANES = { 1 };

    const LANES: usize = 1;

    ghost admits = { bit_admits };

    ghost constants = { bit_is };

    ghost picks = { bit_pick };

    ghost steady = { Prim.search rules };

    ghost sound = { Prim.search rules };

    fn constant(bit: bool) -> bool {
        bit
    }

    fn pick(s: bool, h: bool, l: bool) -> bool {
        if s { h } else { l }
    }
}

impl Exact for Bits {
    ghost row = { λ v l. v };

    ghost own = { Prim.search rules };

    ghost one = { Prim.search rules };

    fn read(value: bool, _lane: usize) -> bool {
        value
    }
}
