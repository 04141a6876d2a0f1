//! Boolean networks: signals, nodes and their functions.
#![tactic(auto)]

pub mod check;
pub mod limits;
pub mod network;
pub mod node;
pub mod row;
mod table;
