//! What a row has to meet as the row of a signal.
ghost use Rattle.std.specs.Prelude.{◌≡◌, ℕ, ◌+◌, ◌-◌, ◌*◌, ◌/◌, ◌%◌, ◌^◌, ◌<◌, ◌≤◌, length, take, Decides, slice_index, slice_index_or};
ghost use Rattle.network.specs.Limits.{max_fanins, function_bytes};
ghost use Rattle.network.specs.Rows.{bit_of, no_signal, fanin, Lower, Unused, Clean, Bytes, Legal};

use crate::limits::{FUNCTION_BYTES, MAX_FANINS, MINTERMS};
use crate::row::{Function, Minterm, Row, Signal};

impl Function {
    /// How many bytes there are, for a proof that starts from a function inside another value.
    fn len(self) -> usize
        ensures value { result ≡ function_bytes }
        ensures whole { length self.bytes ≡ function_bytes }
        ensures byte { Bytes self }
    {
        self.bytes.len()
    }

    /// Byte k; 0 past the last.
    fn byte(&self, k: usize) -> u8
        ensures { result ≡ slice_index self.now.bytes k }
    {
        if k < FUNCTION_BYTES { self.bytes[k] } else { 0 }
    }

    /// The value at a minterm; 0 at a number that is no minterm of any node.
    pub fn bit(&self, y: Minterm) -> bool
        ensures { result ≡ bit_of self.now y.0 }
    {
        (self.byte(y.0 as usize / 8) >> (y.0 % 8)) % 2 == 1
    }

    /// Whether no bit at or above 2^count is set.
    pub fn is_clean(&self, count: u8) -> bool
        requires { count ≤ max_fanins }
        ensures { Decides result (Clean count self.now) }
    {
        // A minterm is a number, and no list holds them; of `all` over a range the proof did not close.
        for y in (1u16 << count)..MINTERMS as u16 {
            if self.bit(Minterm(y)) {
                return false;
            }
        }
        true
    }
}

impl Row {
    /// How many places for fanins there are, for a proof that starts from a row inside another value.
    fn places(self) -> usize
        ensures value { result ≡ max_fanins }
        ensures whole { length self.fanins ≡ max_fanins }
    {
        self.fanins.len()
    }

    /// The fanins: the places that are used.
    pub fn used(&self) -> &[Signal]
        ensures value { result.now ≡ take self.now.count self.now.fanins }
        ensures count { self.now.count ≤ max_fanins → length result.now ≡ self.now.count }
        ensures fanin { (i : ℕ) → i < length result.now → (slice_index_or result.now i no_signal).0 ≡ fanin self.now i }
    {
        &self.fanins[0..(self.count as usize).min(MAX_FANINS)]
    }

    /// Whether every fanin is a lower signal.
    fn is_lower(&self, signal: Signal) -> bool
        requires { self.now.count ≤ max_fanins }
        ensures { Decides result (Lower signal.0 self.now) }
    {
        self.used().iter().all(|fanin| fanin.0 < signal.0)
    }

    /// Whether the places past the last fanin hold 0.
    fn is_unused(&self) -> bool
        requires { self.now.count ≤ max_fanins }
        ensures { Decides result (Unused self.now) }
    {
        for fanin in &self.fanins[self.count as usize..] {
            if fanin.0 != 0 {
                return false;
            }
        }
        true
    }

    /// Whether the row can be that of the signal.
    pub fn is_legal(&self, signal: Signal) -> bool
        ensures { Decides result (Legal signal.0 self.now) }
    {
        self.count as usize <= MAX_FANINS
            && self.places() == MAX_FANINS
            && self.function.len() == FUNCTION_BYTES
            && self.is_lower(signal)
            && self.is_unused()
            && self.function.is_clean(self.count)
    }
}
