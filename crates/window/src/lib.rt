//! Contexts: what an examination of a node looks at, extracted as a network of its own.
#![tactic(auto)]

mod extract;
pub mod extracted;
mod leaf_list;
mod leaves;
mod levels;
pub mod limits;
mod members;
pub mod nodes;
mod numbered;
pub mod refusal;
mod region;
mod renumber;
mod roots;
pub mod scope;
pub mod set;
