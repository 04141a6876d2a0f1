//! Logics, and the one walk over the nodes of a network that serves them all.
#![tactic(auto)]

pub mod bits;
pub mod dependents;
pub mod evaluate;
pub mod fold;
pub mod front;
pub mod limits;
pub mod logic;
pub mod needed;
pub mod number;
pub mod ternary;
pub mod trit;
pub mod turned;
pub mod walk;
pub mod words;
