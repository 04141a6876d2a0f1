//! The outputs of a network under an assignment of its inputs.
ghost use Rattle.std.specs.Prelude.{◌≡◌, ℕ, ◌/◌, ◌%◌, ◌^◌, ◌<◌, ◌≤◌, min, false, map, length, get_or, take, drop, None, ◌==◌, slice_index, slice_index_or};
ghost use Rattle.std.specs.List.{range_with_len};
ghost use Rattle.network.specs.Limits.{minterms};
ghost use Rattle.network.specs.Rows.{bit_at, no_signal};
ghost use Rattle.network.specs.Nets.{size, output_at};
ghost use Rattle.network.specs.Parts.{net_of};
ghost use Rattle.theory.specs.Values.{number, output};
ghost use Rattle.logic.specs.Limits.{word_bits};
ghost use Rattle.logic.specs.Walks.{over, walked_into, AdmitOutputs};

use crate::bits::Bits;
use crate::front::put_front;
use crate::limits::WORD_BITS;
use crate::logic::Logic;
use crate::number::number_of;
use crate::walk::walk;
use crate::words::Words;
use network::limits::{MAX_SIGNALS, MINTERMS};
use network::network::Network;
use network::row::{Assignment, Signal};

/// Bit i of an assignment. A function of its own, which the check proves with no file.
fn bit(x: Assignment, i: usize) -> bool
    requires { i < word_bits }
    ensures { result ≡ (x.0 / 2 ^ i % 2 == 1) }
{
    (x.0 >> i) % 2 == 1
}

/// Puts the bits of an assignment as the leaves' values.
pub fn put_bits(x: Assignment, count: usize, values: &mut [bool])
    requires few { count ≤ word_bits }
    requires room { count ≤ length values.old }
    ensures { values.new ≡ over (map (bit_at x.0) (range_with_len 0 count)) values.old }
{
    // A count beside the slice: of a part lent alone each caller would have to show that the rest stays.
    for (i, value) in values[0..count].iter_mut().enumerate() {
        *value = bit(x, i);
    }
}

/// The number whose bit j is the value of the signal j of some signals.
fn gather(signals: &[Signal], values: &[bool]) -> u64
    requires { (j : ℕ) → j < length signals.now → (get_or signals.now j no_signal).0 < length values.now }
    ensures { result ≡ number (λ j. get_or values.now (get_or signals.now j no_signal).0 false) (min (length signals.now) word_bits) }
{
    let count = signals.len().min(WORD_BITS);
    number_of(&signals[..count], |signal| values[signal.0 as usize])
}

/// The outputs under an assignment, output j as bit j, as far as a word has bits. Bits of the assignment
/// that are no input's do not matter.
pub fn outputs(network: &Network, x: Assignment) -> u64
    ensures values { result ≡ number (output None (net_of network.now) (bit_at x.0)) (min (length (net_of network.now).outputs) word_bits) }
    ensures inputs { result ≡ number (output None (net_of network.now) (bit_at (x.0 % 2 ^ (net_of network.now).inputs))) (min (length (net_of network.now).outputs) word_bits) }
{
    let mut values = [false; MAX_SIGNALS];
    let mut fold = [false; MINTERMS];
    put_bits(x, network.inputs(), &mut values);
    walk::<Bits>(network, None, &mut values, &mut fold);
    gather(network.outputs(), &values)
}

/// Puts the values of some signals, as far as there is room.
fn put_values<T: Copy>(signals: &[Signal], values: &[T], places: &mut [T])
    requires { (j : ℕ) → j < length signals.now → (get_or signals.now j no_signal).0 < length values.now }
    ensures { (d : T) → places.new ≡ over (map (λ j. slice_index_or values.now (get_or signals.now j no_signal).0 d) (range_with_len 0 (min (length signals.now) (length places.old)))) places.old }
{
    let count = signals.len().min(places.len());
    // By place, and no zip: over a zip of places that are written the proof did not close.
    for (j, place) in places[0..count].iter_mut().enumerate() {
        *place = values[signals[j].0 as usize];
    }
}

/// The value of each output, by a walk over places that the caller lends: the leaves' values stand in the
/// first of `values`, and stay. Outputs for which there is no room are not put.
pub fn output_values<L: Logic>(
    network: &Network,
    values: &mut [L::Value],
    fold: &mut [L::Value],
    outputs: &mut [L::Value],
)
    requires room { size (net_of network.now) ≤ length values.old }
    requires scratch { minterms ≤ length fold.old }
    ensures walked { values.new ≡ walked_into L.Logic.picks L.Logic.constants None (net_of network.now) values.old values.old }
    ensures values { (j : ℕ) (d : L.Value) → j < length (net_of network.now).outputs → j < length outputs.old → slice_index_or outputs.new j d ≡ slice_index_or values.new (output_at (net_of network.now) j) d }
    ensures admits { AdmitOutputs L.Logic.admits (net_of network.now) values.old outputs.new }
    ensures leaves { take (net_of network.now).inputs values.new ≡ take (net_of network.now).inputs values.old }
    ensures count { length outputs.new ≡ length outputs.old }
    ensures rest { drop (length (net_of network.now).outputs) outputs.new ≡ drop (length (net_of network.now).outputs) outputs.old }
{
    walk::<L>(network, None, values, fold);
    put_values(network.outputs(), values, outputs);
}

/// The outputs under 64 assignments at once: bit l of word i is the value of input i under assignment l,
/// or 0 where there is no such word, and bit l of the word that is put at j is that of output j. Outputs
/// for which there is no room are not put.
pub fn output_words(network: &Network, leaves: &[u64], outputs: &mut [u64])
    ensures values { (l j : ℕ) → l < word_bits → j < length (net_of network.now).outputs → j < length outputs.old → bit_at (slice_index outputs.new j) l ≡ output None (net_of network.now) (λ i. bit_at (slice_index leaves.now i) l) j }
    ensures rest { drop (length (net_of network.now).outputs) outputs.new ≡ drop (length (net_of network.now).outputs) outputs.old }
{
    let mut values = [0u64; MAX_SIGNALS];
    let mut fold = [0u64; MINTERMS];
    let given = network.inputs().min(leaves.len());
    put_front(&leaves[0..given], &mut values);
    output_values::<Words>(network, &mut values, &mut fold, outputs);
}
