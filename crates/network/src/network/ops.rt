//! What can be done with a network.
ghost use Rattle.std.specs.Prelude.{◌≡◌, ℕ, ◌+◌, ◌<◌, ◌≤◌, cond, length, MatchOption, MatchResult, nat_le, nat_lt};
ghost use Rattle.network.specs.Limits.{max_inputs, max_nodes};
ghost use Rattle.network.specs.Rows.{Clean, Legal};
ghost use Rattle.network.specs.Nets.{nodes, size, row_at, bare, with_row, with_output, replaced};
ghost use Rattle.network.specs.Parts.{net_of, NodeIs, PushesRow, PushesOutput};

use super::{Network, PushError};
use crate::limits::{MAX_INPUTS, MAX_NODES};
use crate::node::Node;
use crate::row::{Function, Row, Signal};
use crate::table::Table;
use std::alloc::{AllocError, Global};

impl Network {
    /// The network of some inputs, with no nodes and no outputs; None where the inputs are too many.
    pub fn new(heap: Global, inputs: usize) -> Option<Network>
        ensures { MatchOption result (max_inputs < inputs) (λ n. net_of n ≡ bare inputs) }
    {
        if inputs > MAX_INPUTS {
            return None;
        }
        Some(Network {
            inputs,
            table: Table::new(heap),
            outputs: Vec::new(heap),
        })
    }

    /// How many signals there are.
    pub fn signals(&self) -> usize
        ensures { result ≡ size (net_of self.now) }
    {
        self.inputs + self.table.len()
    }

    /// Whether there is such a signal.
    pub fn is_signal(&self, signal: Signal) -> bool
        ensures { result ≡ nat_lt signal.0 (size (net_of self.now)) }
    {
        (signal.0 as usize) < self.signals()
    }

    /// Whether no further node is taken.
    fn is_full(&self) -> bool
        ensures { result ≡ nat_le max_nodes (nodes (net_of self.now)) }
    {
        self.table.len() >= MAX_NODES
    }

    /// Node n, if there is one.
    pub fn node(&self, n: usize) -> Option<Node>
        ensures { MatchOption result (nodes (net_of self.now) ≤ n) (λ m. NodeIs m ((net_of self.now).inputs + n) (row_at (net_of self.now) n)) }
    {
        let row = self.table.get(n)?;
        Node::from_row(Signal((self.inputs + n) as u16), row)
    }

    /// One node more, whose row is known to be legal: only memory can be wanting.
    pub fn append_row(&mut self, row: Row) -> Result<(), AllocError>
        requires room { nodes (net_of self.old) < max_nodes }
        requires legal { Legal (size (net_of self.old)) row }
        ensures { MatchResult result (λ _. net_of self.new ≡ with_row (net_of self.old) row) (λ _. net_of self.new ≡ net_of self.old) }
    {
        self.table.push(row)?;
        Ok(())
    }

    /// One node more.
    pub fn push_row(&mut self, row: Row) -> Result<(), PushError>
        ensures { PushesRow (net_of self.old) row result (net_of self.new) }
    {
        if self.is_full() {
            return Err(PushError::Full);
        }
        if !row.is_legal(Signal(self.signals() as u16)) {
            return Err(PushError::Illegal);
        }
        self.append_row(row)?;
        Ok(())
    }

    /// One output more, which is known to be a signal: only memory can be wanting.
    pub fn append_output(&mut self, signal: Signal) -> Result<(), AllocError>
        requires { signal.0 < size (net_of self.old) }
        ensures { MatchResult result (λ _. net_of self.new ≡ with_output (net_of self.old) signal) (λ _. net_of self.new ≡ net_of self.old) }
    {
        self.outputs.push(signal)?;
        Ok(())
    }

    /// One output more.
    pub fn push_output(&mut self, signal: Signal) -> Result<(), PushError>
        ensures { PushesOutput (net_of self.old) signal result (net_of self.new) }
    {
        if !self.is_signal(signal) {
            return Err(PushError::NoSignal);
        }
        self.append_output(signal)?;
        Ok(())
    }

    /// Gives node n another function.
    pub fn replace_function(&mut self, n: usize, f: Function)
        requires within { n < nodes (net_of self.old) }
        requires clean { Clean (row_at (net_of self.old) n).count f }
        ensures { net_of self.new ≡ replaced (net_of self.old) n f }
    {
        self.table.set_function(n, f);
    }
}
