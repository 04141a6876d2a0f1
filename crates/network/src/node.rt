//! A row that has passed the check as the row of its signal.
ghost use Rattle.std.specs.Prelude.{◌≡◌, ◌≤◌, length, MatchOption};
ghost use Rattle.network.specs.Limits.{max_fanins, function_bytes};
ghost use Rattle.network.specs.Rows.{Legal, Lower, Unused, Clean, Bytes};

use crate::row::{Row, Signal};

/// A node: its own signal, and a row with at most 8 fanins, each a lower signal, and no function bit
/// at or above 2^count.
#[derive(Clone, Copy)]
pub struct Node {
    signal: Signal,
    row: Row,
    ghost few: { row.count ≤ max_fanins },
    ghost lower: { Lower signal.0 row },
    ghost unused: { Unused row },
    ghost clean: { Clean row.count row.function },
    ghost places: { length row.fanins ≡ max_fanins },
    ghost bytes: { length row.function.bytes ≡ function_bytes },
    ghost byte: { Bytes row.function },
}

impl Node {
    /// The node of a signal, exactly if the row passes the check.
    pub fn from_row(signal: Signal, row: Row) -> Option<Node>
        ensures { MatchOption result (Legal signal.0 row → ⊥) (λ n. Legal signal.0 row × (n.signal ≡ signal) × (n.row ≡ row)) }
    {
        if row.is_legal(signal) {
            Some(Node { signal, row })
        } else {
            None
        }
    }

    pub fn signal(&self) -> Signal
        ensures { result ≡ self.now.signal }
    {
        self.signal
    }

    pub fn row(&self) -> Row
        ensures value { result ≡ self.now.row }
        ensures legal { Legal self.now.signal.0 result }
    {
        self.row
    }
}
