//! Writing a job.
ghost use Rattle.std.specs.Prelude.{◌≡◌, ◌+◌, ◌-◌, ◌*◌, ◌<◌, ◌≤◌, ◌∷◌, length};
ghost use Rattle.std.specs.List.{flat_map};
ghost use Rattle.network.specs.Limits.{max_fanins};
ghost use Rattle.network.specs.Parts.{net_of};
ghost use Rattle.job.specs.Checks.{max_outputs, max_file_length, record_size};
ghost use Rattle.job.specs.Bytes.{le16, signal_bytes, record_bytes, sizes, pairs_from, splice, encode};

use crate::fields::{record_len, width};
use network::network::Network;
use network::row::{Row, Signal};

// The place goes along: a writer that held it would have to say of each step how far it moved.
fn put_word(out: &mut [u8], at: usize, x: u16)
    requires { at + 2 ≤ length out.old }
    ensures { out.new ≡ splice out.old at (le16 x) }
{
    put_bytes(out, at, &x.to_le_bytes());
}

fn put_signals(out: &mut [u8], at: usize, signals: &[Signal])
    requires { at + 2 * length signals.now ≤ length out.old }
    ensures { out.new ≡ splice out.old at (signal_bytes signals.now) }
{
    for (i, signal) in signals.iter().enumerate() {
        put_word(out, at + 2 * i, signal.0);
    }
}

fn put_bytes(out: &mut [u8], at: usize, src: &[u8])
    requires { at + length src.now ≤ length out.old }
    ensures { out.new ≡ splice out.old at src.now }
{
    let end = at + src.len();
    out[at..end].copy_from_slice(src);
}

/// Writes the record of a row.
fn put_record(out: &mut [u8], at: usize, row: &Row)
    requires few { row.now.count ≤ max_fanins }
    requires within { at + record_size row.now.count ≤ length out.old }
    ensures { out.new ≡ splice out.old at (record_bytes row.now) }
{
    let count = usize::from(row.count);
    let wide = width(row.count);
    out[at] = row.count;
    put_signals(out, at + 1, row.used());
    put_bytes(out, at + 1 + 2 * count, &row.function.bytes[..wide]);
}

/// How many bytes the records have.
pub(crate) fn records_len(network: &Network) -> usize
    ensures value { result ≡ sizes (net_of network.now).rows }
    ensures most { result ≤ 49 * length (net_of network.now).rows }
{
    let mut len = 0;
    for row in network.rows() {
        len += record_len(row.count);
    }
    len
}

/// Writes offset and length of each record, where the first starts at a place.
fn put_pairs(out: &mut [u8], network: &Network, first: usize)
    requires within { 4 + 4 * length (net_of network.now).rows ≤ length out.old }
    requires few { first + sizes (net_of network.now).rows < 65536 }
    ensures { out.new ≡ splice out.old 4 (pairs_from first (net_of network.now).rows) }
{
    let mut at = first;
    for (n, row) in network.rows().iter().enumerate() {
        let len = record_len(row.count);
        put_word(out, 4 + 4 * n, at as u16);
        put_word(out, 6 + 4 * n, len as u16);
        at += len;
    }
}

/// Writes the records from a place on.
fn put_records(out: &mut [u8], network: &Network, first: usize)
    requires { first + sizes (net_of network.now).rows ≤ length out.old }
    ensures { out.new ≡ splice out.old first (flat_map record_bytes (net_of network.now).rows) }
{
    let mut at = first;
    for row in network.rows() {
        put_record(out, at, row);
        at += record_len(row.count);
    }
}

/// Writes the counts: inputs, outputs and nodes.
fn put_counts(out: &mut [u8], inputs: u8, outputs: u8, nodes: u16)
    requires { 4 ≤ length out.old }
    ensures { out.new ≡ splice out.old 0 (inputs ∷ outputs ∷ le16 nodes) }
{
    out[0] = inputs;
    out[1] = outputs;
    put_word(out, 2, nodes);
}

/// Writes the job file of a network from the first byte on.
pub(crate) fn store(out: &mut [u8], network: &Network)
    requires few { length (net_of network.now).outputs ≤ max_outputs }
    requires fits { length (encode (net_of network.now)) ≤ max_file_length }
    requires within { length (encode (net_of network.now)) ≤ length out.old }
    ensures { out.new ≡ splice out.old 0 (encode (net_of network.now)) }
{
    let nodes = network.rows().len();
    let outputs = network.outputs();
    let head = 4 + 4 * nodes;
    let first = head + 2 * outputs.len();
    put_counts(
        out,
        network.inputs() as u8,
        outputs.len() as u8,
        nodes as u16,
    );
    put_pairs(out, network, first);
    put_signals(out, head, outputs);
    put_records(out, network, first);
}
