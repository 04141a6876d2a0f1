//! The search for a care minterm that is not listed yet.
#![tactic(auto)]

pub mod answer;
pub mod counting;
pub mod finder;
pub mod lane;
pub mod limits;
pub mod listed;
pub mod plan;
pub mod round;
pub mod single;
pub mod walked;
pub mod walks;
