//! The value of one node, folded from the constants of its function upward.
ghost use Rattle.std.specs.Prelude.{◌≡◌, ℕ, ◌+◌, ◌-◌, ◌*◌, ◌^◌, ◌<◌, ◌≤◌, Bool, length, slice_index_or};
ghost use Rattle.network.specs.Limits.{max_fanins, minterms};
ghost use Rattle.network.specs.Rows.{bit_at, bit_of, Lower};
ghost use Rattle.logic.specs.Folds.{Holds, folded_at, node_of};

use crate::logic::Logic;
use network::row::{Function, Minterm, Row};

/// Bits 2 * i and 2 * i + 1 of a function, as a number.
fn bit_pair(function: &Function, i: usize) -> usize
    requires { 2 * i + 1 < minterms }
    ensures small { result < 4 }
    ensures low { bit_at result 0 ≡ bit_of function.now (2 * i) }
    ensures high { bit_at result 1 ≡ bit_of function.now (2 * i + 1) }
{
    (function.bytes[i / 4] >> (2 * (i % 4))) as usize % 4
}

/// Puts what a value picks of two constants, for each pair of bits.
fn put_picks<L: Logic>(s: L::Value, picks: &mut [L::Value])
    requires { 4 ≤ length picks.old }
    ensures { Holds picks.new 4 (λ k. L.Logic.picks s (L.Logic.constants (bit_at k 1)) (L.Logic.constants (bit_at k 0))) }
{
    let zero = L::constant(false);
    let one = L::constant(true);
    picks[0] = L::pick(s, zero, zero);
    picks[1] = L::pick(s, zero, one);
    picks[2] = L::pick(s, one, zero);
    picks[3] = L::pick(s, one, one);
}

/// Puts the pick of each pair of a function's bits, as far as there is room.
fn put_pairs<L: Logic>(function: &Function, picks: &[L::Value], fold: &mut [L::Value])
    requires few { length fold.old + length fold.old ≤ minterms }
    requires four { 4 ≤ length picks.now }
    ensures { (at : Bool → Bool → L.Value) → Holds picks.now 4 (λ k. at (bit_at k 1) (bit_at k 0)) → Holds fold.new (length fold.old) (λ i. at (bit_of function.now (2 * i + 1)) (bit_of function.now (2 * i))) }
{
    for (i, place) in fold.iter_mut().enumerate() {
        *place = picks[bit_pair(function, i)];
    }
}

/// Replaces each of the first `size` pairs of values by what `s` picks of it.
fn halve<L: Logic>(s: L::Value, size: usize, fold: &mut [L::Value])
    requires { size + size ≤ length fold.old }
    ensures { (at : ℕ → L.Value) → Holds fold.old (size + size) at → Holds fold.new size (λ i. L.Logic.picks s (at (2 * i + 1)) (at (2 * i))) }
{
    // Pairs are read ahead of the place that is written, so no iterator can lend both.
    for i in 0..size {
        fold[i] = L::pick(s, fold[2 * i + 1], fold[2 * i]);
    }
}

/// Folds in the fanins after the first.
fn fold_further<L: Logic>(row: &Row, values: &[L::Value], fold: &mut [L::Value]) -> L::Value
    requires some { 0 < row.now.count }
    requires few { row.now.count ≤ max_fanins }
    requires lower { Lower (length values.now) row.now }
    requires room { 2 ^ (row.now.count - 1) ≤ length fold.old }
    ensures { (d : L.Value) → Holds fold.old (2 ^ (row.now.count - 1)) (folded_at L.Logic.picks L.Logic.constants row.now (λ s. slice_index_or values.now s d) 1) → result ≡ node_of L.Logic.picks L.Logic.constants row.now (λ s. slice_index_or values.now s d) }
{
    let mut size = 1usize << (row.count - 1);
    for fanin in &row.fanins[1..row.count as usize] {
        size /= 2;
        halve::<L>(values[fanin.0 as usize], size, fold);
    }
    fold[0]
}

/// The value of a node at the values of the lower signals. The first fanin picks among four pairs of
/// constants, each further one among pairs of what is folded so far.
pub fn node_value<L: Logic>(row: &Row, values: &[L::Value], fold: &mut [L::Value]) -> L::Value
    requires few { row.now.count ≤ max_fanins }
    requires lower { Lower (length values.now) row.now }
    requires scratch { minterms ≤ length fold.old }
    ensures { (d : L.Value) → result ≡ node_of L.Logic.picks L.Logic.constants row.now (λ s. slice_index_or values.now s d) }
{
    if row.count == 0 {
        return L::constant(row.function.bit(Minterm(0)));
    }
    let (picks, rest) = fold.split_at_mut(4);
    put_picks::<L>(values[row.fanins[0].0 as usize], picks);
    put_pairs::<L>(
        &row.function,
        picks,
        &mut rest[0..1usize << (row.count - 1)],
    );
    fold_further::<L>(row, values, rest)
}
