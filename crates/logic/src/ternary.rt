//! Three-valued bits: one lane, in which the bit is 0, 1 or not known.
ghost use Rattle.std.specs.Prelude.{◌≡◌, ℕ, ◌<◌, Bool, ◌⊎◌, List, length, if◌then◌else◌, Option, ◌≢◌, slice_index_or};
ghost use Rattle.network.specs.Nets.{Net, LegalNet, size};
ghost use Rattle.theory.specs.Values.{value};
ghost use Rattle.logic.specs.Lanes.{always, Admit};
ghost use Rattle.logic.specs.Trits.{trit_admits, trit_of, unknown, trit_pick, Known};
ghost use Rattle.logic.specs.Walks.{walked};
ghost use Rattle.std.proofs.Common.{rules};

use crate::logic::Logic;
use crate::trit::Trit;

/// The logic of three-valued bits.
#[derive(Clone, Copy)]
pub struct Ternary;

impl Logic for Ternary {
    type Value = Trit;

    ghost LANES = { 1 };

    const LANES: usize = 1;

    ghost admits = { trit_admits };

    ghost constants = { trit_of };

    ghost picks = { trit_pick };

    ghost steady = { Prim.search rules };

    ghost sound = { Prim.search rules };

    fn constant(bit: bool) -> Trit {
        Trit::known(bit)
    }

    fn pick(s: Trit, h: Trit, l: Trit) -> Trit {
        Trit::pick(s, h, l)
    }
}

/// A value is a known bit or unknown. A known bit picks its side; an unknown one the common value of two
/// that are known and equal, and else what is unknown.
pub fn picks_stand()
    ensures three { (v : Trit) → (v ≡ unknown) ⊎ ((b : Bool) × (v ≡ trit_of b)) }
    ensures known { (b : Bool) (h l : Trit) → trit_pick (trit_of b) h l ≡ (if b then h else l) }
    ensures common { (b : Bool) → trit_pick unknown (trit_of b) (trit_of b) ≡ trit_of b }
    ensures otherwise { (h l : Trit) → ((b : Bool) → h ≡ trit_of b → l ≢ trit_of b) → trit_pick unknown h l ≡ unknown }
{}

/// With every leaf known, every value is known and is the signal's. Whatever the leaves are, a known
/// value is the signal's under each assignment that the leaves admit.
pub fn known_values_stand()
    ensures exact { (turn : Option ℕ) (net : Net) (leaves : List Trit) (x : ℕ → Bool) → LegalNet net → length leaves ≡ net.inputs → Known leaves net.inputs x → Known (walked trit_pick trit_of turn net.rows leaves) (size net) (value turn net x) }
    ensures sound { (turn : Option ℕ) (net : Net) (leaves : List Trit) (x : ℕ → Bool) → LegalNet net → length leaves ≡ net.inputs → Admit trit_admits leaves net.inputs (λ i. always (x i)) → (s : ℕ) (d : Trit) (b : Bool) → s < size net → slice_index_or (walked trit_pick trit_of turn net.rows leaves) s d ≡ trit_of b → value turn net x s ≡ b }
{}
