//! Sets of signals.
ghost use Rattle.std.specs.Prelude.{◌≡◌, ℕ, ◌<◌, ◌≤◌, Bool, true, false, ◌||◌, length, ◌==◌, slice_index_or};
ghost use Rattle.network.specs.Limits.{max_fanins, max_signals};
ghost use Rattle.network.specs.Rows.{fanin, no_signal};
ghost use Rattle.context.specs.Levels.{is_fanin};
ghost use Rattle.window.specs.Sets.{has};
ghost use Rattle.window.specs.Lists.{listed, some_in};

use network::limits::MAX_SIGNALS;
use network::row::{Row, Signal};

/// A flag for each number that a signal can have. An array: a set is copied as a whole, and no memory can
/// be wanting.
#[derive(Clone, Copy)]
pub struct SignalSet {
    flags: [bool; MAX_SIGNALS],
}

impl SignalSet {
    /// The set without signals.
    pub fn empty() -> SignalSet
        ensures { (s : ℕ) → has result s ≡ false }
    {
        SignalSet {
            flags: [false; MAX_SIGNALS],
        }
    }

    /// Whether the signal is in the set.
    pub fn has(&self, signal: Signal) -> bool
        ensures { result ≡ has self.now signal.0 }
    {
        self.flags.get(signal.0 as usize).copied().unwrap_or(false)
    }

    /// Whether some of the signals is in the set.
    pub(crate) fn has_any(&self, signals: &[Signal]) -> bool
        ensures { result ≡ some_in (has self.now) signals.now }
    {
        signals.iter().any(|signal| self.has(*signal))
    }

    /// A flag for each number that a signal can have.
    pub fn flags(&self) -> &[bool]
        ensures value { result.now ≡ self.now.flags }
        ensures count { length result.now ≡ max_signals }
    {
        &self.flags
    }

    /// One signal more, which is one of those that a network can have, as an index is one of a slice's.
    pub fn insert(&mut self, signal: Signal)
        requires { signal.0 < max_signals }
        ensures { (s : ℕ) → has self.new s ≡ (has self.old s || signal.0 == s) }
    {
        self.flags[signal.0 as usize] = true;
    }

    /// Inserts the signals.
    pub fn insert_all(&mut self, signals: &[Signal])
        requires { (i : ℕ) → i < length signals.now → (slice_index_or signals.now i no_signal).0 < max_signals }
        ensures { (s : ℕ) → has self.new s ≡ (has self.old s || listed signals.now s) }
    {
        for signal in signals {
            self.insert(*signal);
        }
    }

    /// Inserts the fanins of the row.
    pub fn insert_fanins(&mut self, row: &Row)
        requires few { row.now.count ≤ max_fanins }
        requires small { (i : ℕ) → i < row.now.count → fanin row.now i < max_signals }
        ensures { (s : ℕ) → has self.new s ≡ (has self.old s || is_fanin row.now s) }
    {
        self.insert_all(row.used());
    }
}
