//! A network: its primary inputs, its nodes and its outputs.
ghost use Rattle.std.specs.Prelude.{◌≡◌, ℕ, ◌+◌, ◌<◌, ◌≤◌, length, get_or, slice_index_or};
ghost use Rattle.network.specs.Limits.{max_inputs, max_nodes};
ghost use Rattle.network.specs.declared.network.PushError.TheVariants.{NoMemory};
ghost use Rattle.network.specs.Rows.{blank, no_signal, Legal};

use crate::row::{Row, Signal};
use crate::table::Table;
use std::alloc::AllocError;

mod ops;
mod parts;

/// Signals below `inputs` are primary inputs, and signal inputs + n is node n. Every row is legal at
/// its place, so fanins are lower signals and no walk over the rows meets a cycle; every output is a
/// signal.
#[derive(Drop)]
pub struct Network {
    inputs: usize,
    table: Table,
    outputs: Vec<Signal>,
    ghost small: { inputs ≤ max_inputs },
    ghost few: { length table.rows.items ≤ max_nodes },
    ghost legal: { (n : ℕ) → n < length table.rows.items → ∥ Legal (inputs + n) (slice_index_or table.rows.items n blank) ∥₁ },
    ghost exits: { (j : ℕ) → j < length outputs.items → (get_or outputs.items j no_signal).0 < inputs + length table.rows.items },
}

/// Why a network takes no further row or output.
#[derive(Clone, Copy, PartialEq, Eq, Debug, Drop)]
pub enum PushError {
    /// It has as many nodes as a network may have.
    Full,
    /// The row cannot be that of the next node.
    Illegal,
    /// The output is no signal.
    NoSignal,
    NoMemory,
}

impl From<AllocError> for PushError {
    ghost from_gives = { λ _ e. e ≡ NoMemory };

    fn from(_: AllocError) -> PushError {
        PushError::NoMemory
    }
}
