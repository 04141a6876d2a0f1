//! A node as plain data: which signals it reads, and its function.
use crate::limits::{FUNCTION_BYTES, MAX_FANINS};

/// The number of a signal: the primary inputs come first, then the nodes.
#[derive(Clone, Copy, PartialEq, Eq)]
pub struct Signal(pub u16);

/// A minterm of a node: a number whose bit i is the value of the node's fanin i.
#[derive(Clone, Copy, PartialEq, Eq)]
pub struct Minterm(pub u16);

/// An assignment: a number whose bit i is the value of primary input i, or of leaf i of a window.
#[derive(Clone, Copy, PartialEq, Eq, Debug)]
pub struct Assignment(pub u64);

/// The truth table of a node: the value at minterm y is bit y mod 8 of byte y div 8.
#[derive(Clone, Copy)]
pub struct Function {
    pub bytes: [u8; FUNCTION_BYTES],
}

/// A node's fanins, the first `count` of `fanins`, and its function, with nothing known of them.
/// An array with a count beside it, and no `Vec`: rows are plain data that is copied, and a walk over
/// them follows no pointers. A function that has to know more of a row asks it, since a plain row is of
/// no network; of its own rows a network knows it.
#[derive(Clone, Copy)]
pub struct Row {
    pub count: u8,
    pub fanins: [Signal; MAX_FANINS],
    pub function: Function,
}
