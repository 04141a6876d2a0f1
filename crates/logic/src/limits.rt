//! How many bits a word has. `specs/Limits.antt` has the same number for the statements.

/// Bits of a word: its lanes, and the outputs that one number holds.
pub const WORD_BITS: usize = 64;
