//! What is read in a lane.
ghost use Rattle.std.specs.Prelude.{◌≡◌, ℕ, ◌<◌, ◌≤◌, length};
ghost use Rattle.network.specs.Limits.{max_fanins};
ghost use Rattle.network.specs.Rows.{Lower};
ghost use Rattle.theory.specs.Values.{reads};
ghost use Rattle.logic.specs.Lanes.{LaneRow};
ghost use Rattle.search.specs.Lanes.{AdmitFanins};

use logic::logic::Exact;
use logic::number::number_of;
use network::row::{Minterm, Row};

/// The minterm that a row's fanins read in a lane.
pub fn minterm<E: Exact>(row: &Row, lane: usize, values: &[E::Value]) -> Minterm
    requires lane { lane < E.Logic.LANES }
    requires few { row.now.count ≤ max_fanins }
    requires lower { Lower (length values.now) row.now }
    ensures { (a : ℕ → LaneRow) → AdmitFanins E.Logic.admits row.now values.now a → result.0 ≡ reads row.now (λ s. a s lane) }
{
    Minterm(number_of(row.used(), |fanin| E::read(values[fanin.0 as usize], lane)) as u16)
}
