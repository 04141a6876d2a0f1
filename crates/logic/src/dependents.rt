//! The signals that depend on a node.
ghost use Rattle.std.specs.Prelude.{◌≡◌, ℕ, ◌<◌, ◌≤◌, false, length, drop, replicate, slice_index_or};
ghost use Rattle.std.specs.List.{list_any};
ghost use Rattle.network.specs.Rows.{no_signal};
ghost use Rattle.network.specs.Nets.{size, nodes};
ghost use Rattle.network.specs.Parts.{net_of};
ghost use Rattle.logic.specs.Walks.{over};
ghost use Rattle.logic.specs.Depends.{Marked};

use network::network::Network;
use network::row::Signal;

/// Whether one of some fanins is marked.
fn reads_marked(fanins: &[Signal], marks: &[bool]) -> bool
    requires { (i : ℕ) → i < length fanins.now → (slice_index_or fanins.now i no_signal).0 < length marks.now }
    ensures { result ≡ list_any (λ f. slice_index_or marks.now f.0 false) fanins.now }
{
    fanins.iter().any(|fanin| marks[fanin.0 as usize])
}

/// Unmarks the first `count` signals. A function of its own, which the check proves with no file.
fn unmark(count: usize, marks: &mut [bool])
    requires { count ≤ length marks.old }
    ensures { marks.new ≡ over (replicate count false) marks.old }
{
    marks[..count].fill(false);
}

/// Marks a node and every node that depends on it, and unmarks every other signal.
pub fn mark_dependents(network: &Network, target: usize, marks: &mut [bool])
    requires aimed { target < nodes (net_of network.now) }
    requires room { size (net_of network.now) ≤ length marks.old }
    ensures marks { Marked (net_of network.now) target marks.new }
    ensures rest { drop (size (net_of network.now)) marks.new ≡ drop (size (net_of network.now)) marks.old }
{
    // The target is asked to be a node as an index is asked to be in range: no other number has dependents.
    let inputs = network.inputs();
    unmark(inputs, marks);
    for (n, row) in network.rows().iter().enumerate() {
        marks[inputs + n] = (n == target) | reads_marked(row.used(), marks);
    }
}
