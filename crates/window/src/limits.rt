//! How large a context may be. `specs/Limits.antt` has the same numbers for the statements.

/// Leaves of a context.
pub const MAX_LEAVES: usize = 32;

/// A level of a window.
pub const MAX_LEVEL: u8 = 10;
