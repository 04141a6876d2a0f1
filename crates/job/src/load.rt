//! Reading a job that has passed every check.
ghost use Rattle.std.specs.Prelude.{◌≡◌, ℕ, ◌+◌, ◌*◌, ◌<◌, ◌≤◌, cond, length, nat_lt, IfOk, OnOk, slice_index, slice_index_or};
ghost use Rattle.network.specs.Limits.{max_fanins, function_bytes};
ghost use Rattle.network.specs.Nets.{bare};
ghost use Rattle.network.specs.Parts.{net_of};
ghost use Rattle.network.specs.Rows.{no_signal};
ghost use Rattle.job.specs.Checks.{byte_at, word_at, inputs_of, nodes_of, outputs_of, width_of, offset_of};
ghost use Rattle.job.specs.Bytes.{encode};
ghost use Rattle.job.specs.Loads.{RowLoaded, RowsLoaded, OutputsLoaded};

use crate::fields::{Passed, Record};
use network::limits::{FUNCTION_BYTES, MAX_FANINS};
use network::network::Network;
use network::row::{Function, Row, Signal};
use std::alloc::{AllocError, Global};

impl Record<'_> {
    /// Fanin i, and 0 past the last.
    fn fanin_or_zero(&self, i: usize) -> u16
        ensures { result ≡ cond (nat_lt i (byte_at self.now.bytes.now self.now.at)) (word_at self.now.bytes.now (self.now.at + 1 + 2 * i)) 0 }
    {
        if i < usize::from(self.count()) {
            self.fanin(i)
        } else {
            0
        }
    }

    /// Its fanins, and 0 past them.
    fn load_fanins(&self) -> [Signal; MAX_FANINS]
        ensures words { (i : ℕ) → i < byte_at self.now.bytes.now self.now.at → (slice_index_or result i no_signal).0 ≡ word_at self.now.bytes.now (self.now.at + 1 + 2 * i) }
        ensures unused { (i : ℕ) → byte_at self.now.bytes.now self.now.at ≤ i → (slice_index_or result i no_signal).0 ≡ 0 }
        ensures places { length result ≡ max_fanins }
    {
        let mut fanins = [Signal(0); MAX_FANINS];
        for (i, fanin) in fanins.iter_mut().enumerate() {
            *fanin = Signal(self.fanin_or_zero(i));
        }
        fanins
    }

    /// Its function, with 0 past its bytes.
    fn load_function(&self) -> Function
        ensures bytes { (k : ℕ) → k < width_of (byte_at self.now.bytes.now self.now.at) → slice_index result.bytes k ≡ byte_at self.now.bytes.now (self.now.at + 1 + 2 * byte_at self.now.bytes.now self.now.at + k) }
        ensures unused { (k : ℕ) → width_of (byte_at self.now.bytes.now self.now.at) ≤ k → slice_index result.bytes k ≡ 0 }
        ensures places { length result.bytes ≡ function_bytes }
    {
        let mut bytes = [0u8; FUNCTION_BYTES];
        let known = self.function();
        bytes[..known.len()].copy_from_slice(known);
        Function { bytes }
    }
}

impl<'a> Passed<'a> {
    /// The record of node n.
    fn record_at(&self, n: usize) -> Record<'a>
        requires { n < nodes_of self.now.head.bytes.now }
        ensures bytes { result.bytes.now ≡ self.now.head.bytes.now }
        ensures place { result.at ≡ offset_of self.now.head.bytes.now n }
    {
        Record {
            bytes: self.head.bytes,
            at: self.head.offset(n),
        }
    }

    /// The row of node n.
    fn load_row(&self, n: usize) -> Row
        requires { n < nodes_of self.now.head.bytes.now }
        ensures { RowLoaded self.now.head.bytes.now (offset_of self.now.head.bytes.now n) result }
    {
        let found = self.record_at(n);
        Row {
            count: found.count(),
            fanins: found.load_fanins(),
            function: found.load_function(),
        }
    }

    /// All nodes.
    fn load_rows(&self, network: &mut Network) -> Result<(), AllocError>
        requires { net_of network.old ≡ bare (inputs_of self.now.head.bytes.now) }
        ensures { OnOk result (RowsLoaded self.now.head.bytes.now (nodes_of self.now.head.bytes.now) (net_of network.new)) }
    {
        // The number of a node gives the place of its pair in the file.
        for n in 0..self.head.nodes() {
            network.append_row(self.load_row(n))?;
        }
        Ok(())
    }

    /// All outputs.
    fn load_outputs(&self, network: &mut Network) -> Result<(), AllocError>
        requires { RowsLoaded self.now.head.bytes.now (nodes_of self.now.head.bytes.now) (net_of network.old) }
        ensures { OnOk result (OutputsLoaded self.now.head.bytes.now (outputs_of self.now.head.bytes.now) (net_of network.new)) }
    {
        // The number of an output gives its place in the file.
        for j in 0..self.head.outputs() {
            network.append_output(Signal(self.head.output(j)))?;
        }
        Ok(())
    }

    /// The network of the file.
    pub(crate) fn load(&self, heap: Global) -> Result<Network, AllocError>
        ensures same { IfOk result (λ n. encode (net_of n) ≡ self.now.head.bytes.now) }
        ensures outputs { IfOk result (λ n. length (net_of n).outputs ≡ outputs_of self.now.head.bytes.now) }
    {
        let mut network = Network::new(heap, self.head.inputs()).unwrap();
        self.load_rows(&mut network)?;
        self.load_outputs(&mut network)?;
        Ok(network)
    }
}
