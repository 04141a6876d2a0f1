//! Words: a bit for each of 64 lanes.
ghost use Rattle.network.specs.Rows.{bit_at};
ghost use Rattle.logic.specs.Limits.{word_bits};
ghost use Rattle.logic.specs.Words.{word_admits, word_of, word_pick};
ghost use Rattle.std.proofs.Math.Path.{ap};
ghost use Rattle.std.proofs.Common.{◌∙◌, rules};
ghost use Rattle.std.specs.Prelude.{◌-◌, true, false, nat_eq};
ghost use Rattle.logic.specs.Digits.{digit-zero, digit_not, digit-pick};

use crate::limits::WORD_BITS;
use crate::logic::{Exact, Logic};

/// The logic of words: bit l of a word is the value in lane l.
#[derive(Clone, Copy)]
pub struct Words;

impl Logic for Words {
    type Value = u64;

    ghost LANES = { word_bits };

    const LANES: usize = WORD_BITS;

    ghost admits = { word_admits };

    ghost constants = { word_of };

    ghost picks = { word_pick };

    ghost steady = { unfold bit_at in
        elim [
          | true ↦ λ l h. ap (λ n. nat_eq n 1) (digit_not 0 l h ∙ ap (λ n. 1 - n) (digit-zero l))
          | false ↦ λ l h. ap (λ n. nat_eq n 1) (digit-zero l)
        ] };

    ghost sound = { unfold bit_at in
        λ x y z a b d s h l i below.
        let p = digit-pick x y z i below in
        let sa = s i below in
        let hb = h i below in
        let ld = l i below in
        p ∙ (cc) };

    fn constant(bit: bool) -> u64 {
        if bit { u64::MAX } else { 0 }
    }

    fn pick(s: u64, h: u64, l: u64) -> u64 {
        (s & h) | (!s & l)
    }
}

impl Exact for Words {
    ghost row = { bit_at };

    ghost own = { Prim.search rules };

    ghost one = { Prim.search rules };

    fn read(value: u64, lane: usize) -> bool {
        (value >> lane) & 1 == 1
    }
}
