//! Covers of a node: cubes, expansion, irredundancy.
#![tactic(auto)]

pub mod care;
pub mod cover;
pub mod cube;
mod expand;
pub mod fanins;
pub mod function;
mod gather;
mod prune;
mod shape;
mod table;
