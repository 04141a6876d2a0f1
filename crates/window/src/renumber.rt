//! The new numbers of leaves and members.
ghost use Rattle.std.specs.Prelude.{◌≡◌, ℕ, ◌+◌, ◌<◌, ◌≤◌, true, false, length, if◌then◌else◌, nat_eq, slice_index_or};
ghost use Rattle.network.specs.Limits.{max_fanins, max_signals};
ghost use Rattle.network.specs.Rows.{no_signal, Legal};
ghost use Rattle.network.specs.Nets.{size};
ghost use Rattle.network.specs.Parts.{net_of};
ghost use Rattle.context.specs.Extracts.{signal_of, renumber};
ghost use Rattle.context.specs.Care.{count_below};
ghost use Rattle.window.specs.Limits.{max_leaves};
ghost use Rattle.window.specs.Sets.{has};
ghost use Rattle.window.specs.Entries.{leaf_signals};
ghost use Rattle.window.specs.Numbers.{new_at, Numbers};

use crate::nodes::{node_count, node_signal};
use crate::region::Region;
use network::limits::{MAX_FANINS, MAX_SIGNALS};
use network::row::{Row, Signal};

/// A new number for each number that a signal can have. An array: whatever signal is asked for has a
/// place, and no memory can be wanting.
#[derive(Clone, Copy)]
pub struct Renumbering {
    numbers: [u16; MAX_SIGNALS],
}

impl Renumbering {
    /// The new number of the signal.
    pub fn of(&self, signal: Signal) -> Signal
        ensures { result ≡ signal_of (new_at self.now signal.0) }
    {
        Signal(self.numbers.get(signal.0 as usize).copied().unwrap_or(0))
    }

    /// Gives the signal a new number.
    fn put(&mut self, signal: Signal, new: Signal)
        requires { signal.0 < max_signals }
        ensures { (s : ℕ) → new_at self.new s ≡ (if nat_eq signal.0 s then new.0 else new_at self.old s) }
    {
        self.numbers[signal.0 as usize] = new.0;
    }

    /// The row with its fanins renumbered.
    pub fn row(&self, row: &Row) -> Row
        requires { (s : ℕ) × Legal s row.now }
        ensures { result ≡ renumber (new_at self.now) row.now }
    {
        let mut fanins = row.fanins;
        for fanin in &mut fanins[..row.count as usize] {
            *fanin = self.of(*fanin);
        }
        Row {
            count: row.count,
            fanins,
            function: row.function,
        }
    }

    /// Numbers the leaves, by their places.
    fn of_leaves(leaves: &[Signal]) -> Renumbering
        requires few { length leaves.now ≤ max_leaves }
        requires small { (i : ℕ) → i < length leaves.now → (slice_index_or leaves.now i no_signal).0 < max_signals }
        requires rising { (i j : ℕ) → i < j → j < length leaves.now → (slice_index_or leaves.now i no_signal).0 < (slice_index_or leaves.now j no_signal).0 }
        ensures { (i : ℕ) → i < length leaves.now → new_at result (slice_index_or leaves.now i no_signal).0 ≡ i }
    {
        let mut numbers = Renumbering {
            numbers: [0; MAX_SIGNALS],
        };
        for (i, leaf) in leaves.iter().enumerate() {
            numbers.put(*leaf, Signal(i as u16));
        }
        numbers
    }

    /// Numbers the members, behind the leaves.
    fn add_members(&mut self, region: &Region, leaves: usize)
        requires { leaves ≤ max_leaves }
        ensures members { (s : ℕ) → has region.now.members s ≡ true → new_at self.new s ≡ leaves + count_below s (has region.now.members) }
        ensures others { (s : ℕ) → has region.now.members s ≡ false → new_at self.new s ≡ new_at self.old s }
    {
        // The members alone are counted, so the number of a node is not its new number.
        let mut next = leaves;
        for n in 0..node_count(region.network) {
            let signal = node_signal(region.network, n);
            if region.members.has(signal) {
                self.put(signal, Signal(next as u16));
                next += 1;
            }
        }
    }

    /// Numbers the leaves, and behind them the members.
    pub fn new(region: &Region, leaves: &[Signal]) -> Renumbering
        requires leaves { leaves.now ≡ leaf_signals (net_of region.now.network.now) (has region.now.members) }
        requires few { length leaves.now ≤ max_leaves }
        ensures { Numbers (net_of region.now.network.now) (has region.now.members) (new_at result) }
    {
        let mut numbers = Renumbering::of_leaves(leaves);
        numbers.add_members(region, leaves.len());
        numbers
    }
}
