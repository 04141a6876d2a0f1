//! The one walk over the nodes of a network.
//!
//! Values and scratch are slices that the caller lends and reads between the walks, so their lengths stand in
//! each contract: a struct round them would be made anew for each call.
ghost use Rattle.std.specs.Prelude.{◌≡◌, ℕ, ◌<◌, ◌≤◌, Bool, length, take};
ghost use Rattle.network.specs.Limits.{minterms};
ghost use Rattle.network.specs.Nets.{size, nodes};
ghost use Rattle.network.specs.Parts.{net_of};
ghost use Rattle.theory.specs.Values.{turns};
ghost use Rattle.logic.specs.Folds.{inverse_of, turned_of};
ghost use Rattle.logic.specs.Walks.{turn_of, walked_into, AdmitSignals, Passed};

use crate::fold::node_value;
use crate::logic::Logic;
use network::network::Network;
use network::row::Signal;

/// The other value in every lane.
pub(crate) fn inverse<L: Logic>(v: L::Value) -> L::Value
    ensures { result ≡ inverse_of L.Logic.picks L.Logic.constants v }
{
    L::pick(v, L::constant(false), L::constant(true))
}

/// Whether a signal is the one to invert.
fn is_turned(turn: Option<Signal>, signal: usize) -> bool
    ensures { result ≡ turns (turn_of turn) signal }
{
    turn.is_some_and(|t| t.0 as usize == signal)
}

/// The value of a signal, inverted if it is the one to invert.
fn turned<L: Logic>(v: L::Value, turn: Option<Signal>, signal: usize) -> L::Value
    ensures { result ≡ turned_of L.Logic.picks L.Logic.constants (turns (turn_of turn) signal) v }
{
    if is_turned(turn, signal) {
        inverse::<L>(v)
    } else {
        v
    }
}

/// Gives each node from node `first` on whose signal is wanted its value, in ascending order, with the
/// value of one signal inverted or of none. No other place changes.
pub(crate) fn walk_wanted<L: Logic, W: Fn(usize) -> bool>(
    network: &Network,
    first: usize,
    turn: Option<Signal>,
    wanted: W,
    values: &mut [L::Value],
    fold: &mut [L::Value],
)
    requires within { first ≤ nodes (net_of network.now) }
    requires callable { (s : ℕ) → s < size (net_of network.now) → W.pre wanted s }
    requires room { size (net_of network.now) ≤ length values.old }
    requires scratch { minterms ≤ length fold.old }
    ensures { (is : ℕ → Bool) → ((s : ℕ) (b : Bool) → s < size (net_of network.now) → W.post wanted s b → b ≡ is s) → Passed L.Logic.picks L.Logic.constants (turn_of turn) (net_of network.now) first (nodes (net_of network.now)) is values.old values.new }
{
    let start = network.inputs() + first;
    for (n, row) in network.rows()[first..].iter().enumerate() {
        let i = start + n;
        if wanted(i) {
            let v = node_value::<L>(row, values, fold);
            values[i] = turned::<L>(v, turn, i);
        }
    }
}

/// Gives each node its value, in ascending order, with the value of one signal inverted or of none. The
/// leaves' values stand in the first places; what stands behind the last signal stays.
pub fn walk<L: Logic>(
    network: &Network,
    turn: Option<Signal>,
    values: &mut [L::Value],
    fold: &mut [L::Value],
)
    requires room { size (net_of network.now) ≤ length values.old }
    requires scratch { minterms ≤ length fold.old }
    ensures values { values.new ≡ walked_into L.Logic.picks L.Logic.constants (turn_of turn) (net_of network.now) values.old values.old }
    ensures leaves { take (net_of network.now).inputs values.new ≡ take (net_of network.now).inputs values.old }
    ensures admits { AdmitSignals L.Logic.admits (turn_of turn) (net_of network.now) values.old values.new }
{
    walk_wanted::<L, _>(network, 0, turn, |_| true, values, fold);
}
