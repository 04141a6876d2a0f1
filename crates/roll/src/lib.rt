//! Rolls: entries of one kind, ascending and no two equal, in a list that the caller supplies.
#![tactic(auto)]

pub mod added;
mod enter;
pub mod order;
pub mod roll;
pub mod search;
pub mod signal;
