//! Theorems about networks: each is the contract of a function that has nothing to compute.
#![tactic(auto)]

ghost use Rattle.std.specs.Prelude.{◌≡◌, ℕ, ◌^◌, ◌<◌, Bool, None, Option};
ghost use Rattle.network.specs.Rows.{bit_at};
ghost use Rattle.network.specs.Nets.{Net, nodes, row_at, LegalNet, replaced};
ghost use Rattle.network.specs.declared.row.Function.{Function};
ghost use Rattle.theory.specs.Values.{AgreeBelow, value};
ghost use Rattle.theory.specs.Same.{SameOutputs, SameFunction, SameWhereRead};
ghost use Rattle.theory.specs.Claims.{Determined, AfterReplacing, Equivalence};

/// Under each assignment of the inputs a network's signals have values that agree with the assignment
/// and with every row, and no others do, also where one node's value is inverted.
pub fn values_stand()
    ensures { (turn : Option ℕ) (net : Net) (x : ℕ → Bool) → LegalNet net → Determined turn net x (value turn net x) }
{}

/// Another function at a node changes no lower signal. Under each assignment it changes nothing, where
/// it has the old value at the minterm that the node reads, or else exactly what an inversion of the
/// node's value changes.
pub fn replacing_stands()
    ensures { (net : Net) (t : ℕ) (f : Function) (x : ℕ → Bool) → LegalNet net → t < nodes net → AfterReplacing net t f x (value None (replaced net t f) x) }
{}

/// To have the same outputs is an equivalence. A function that differs from a node's only where the
/// node never reads it can replace it. Of two replacements at one node the later one counts, and the
/// node's own function replaces nothing.
pub fn same_outputs_stand()
    ensures equivalence { Equivalence SameOutputs }
    ensures unread { (net : Net) (t : ℕ) (f : Function) → LegalNet net → t < nodes net → SameWhereRead net t f (row_at net t).function → SameOutputs net (replaced net t f) }
    ensures equal { (net : Net) (t : ℕ) (f : Function) → LegalNet net → t < nodes net → SameFunction (row_at net t).count f (row_at net t).function → SameOutputs net (replaced net t f) }
    ensures twice { (net : Net) (t : ℕ) (f g : Function) → t < nodes net → replaced (replaced net t f) t g ≡ replaced net t g }
    ensures own { (net : Net) (t : ℕ) → t < nodes net → replaced net t (row_at net t).function ≡ net }
{}

/// A signal's value depends on the values of the network's own inputs alone, so the assignments are the
/// numbers below 2^inputs, bit i for input i.
pub fn inputs_matter()
    ensures alone { (turn : Option ℕ) (net : Net) (x y : ℕ → Bool) → AgreeBelow net.inputs x y → (s : ℕ) → value turn net x s ≡ value turn net y s }
    ensures numbered { (net : Net) (x : ℕ → Bool) → (a : ℕ) × (a < 2 ^ net.inputs) × ((turn : Option ℕ) (s : ℕ) → value turn net x s ≡ value turn net (bit_at a) s) }
{}
