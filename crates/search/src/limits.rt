//! How large a look may be. `specs/Limits.antt` has the same number for the statements.

/// The budget of a look.
pub const MAX_BUDGET: u32 = 65_536;
