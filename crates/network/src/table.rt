//! The rows of a network.
ghost use Rattle.std.specs.Prelude.{◌≡◌, ℕ, ◌+◌, ◌<◌, ◌≤◌, [], ◌∷◌, ◌++◌, length, is_ok, if◌then◌else◌, MatchOption, slice_index_or, slice_set};
ghost use Rattle.network.specs.Rows.{blank, with_function};

use crate::row::{Function, Row};
use std::alloc::{AllocFailed, Global};

/// Plain rows, row n being that of node n. They are written whole.
#[derive(Drop)]
pub struct Table {
    rows: Vec<Row>,
}

impl Table {
    pub fn new(heap: Global) -> Table
        ensures { result.rows.items ≡ [] }
    {
        Table {
            rows: Vec::new(heap),
        }
    }

    pub fn len(&self) -> usize
        ensures { result ≡ length self.now.rows.items }
    {
        self.rows.len()
    }

    pub fn rows(&self) -> &[Row]
        ensures { result.now ≡ self.now.rows.items }
    {
        self.rows.as_slice()
    }

    /// Row n, if there is one.
    pub fn get(&self, n: usize) -> Option<Row>
        ensures { MatchOption result (length self.now.rows.items ≤ n) (λ x. (n < length self.now.rows.items) × (x ≡ slice_index_or self.now.rows.items n blank)) }
    {
        self.rows.get(n).copied()
    }

    pub fn push(&mut self, row: Row) -> Result<(), AllocFailed<Row>>
        ensures { self.new.rows.items ≡ (if is_ok result then self.old.rows.items ++ row ∷ [] else self.old.rows.items) }
    {
        self.rows.push(row)
    }

    /// Gives row n another function; the row is written whole.
    pub fn set_function(&mut self, n: usize, function: Function)
        requires { n < length self.old.rows.items }
        ensures { self.new.rows.items ≡ slice_set self.old.rows.items n (with_function (slice_index_or self.old.rows.items n blank) function) }
    {
        let mut row = self.rows[n];
        row.function = function;
        self.rows[n] = row;
    }
}
