//! Job files: reading, with every refusal, and writing.
#![tactic(auto)]

pub mod denial;
mod fields;
pub mod job;
mod judge;
mod load;
mod store;
