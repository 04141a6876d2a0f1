//! How large a network may be. `specs/Limits.antt` has the same numbers for the statements.

/// Primary inputs of a network.
pub const MAX_INPUTS: usize = 48;

/// Nodes of a network.
pub const MAX_NODES: usize = 480;

/// Signals of a network.
pub const MAX_SIGNALS: usize = MAX_INPUTS + MAX_NODES;

/// Fanins of a node.
pub const MAX_FANINS: usize = 8;

/// Minterms of a node with `MAX_FANINS` fanins.
pub const MINTERMS: usize = 256;

/// Bytes of a function: a bit for each minterm.
pub const FUNCTION_BYTES: usize = 32;
