//! One test of a lane for every exact logic.
ghost use Rattle.std.specs.Prelude.{◌≡◌, ℕ, ◌<◌};
ghost use Rattle.std.specs.List.{list_any};
ghost use Rattle.network.specs.Limits.{max_signals};
ghost use Rattle.logic.specs.Lanes.{LaneRow};
ghost use Rattle.search.specs.Contexts.{net_in, dull_in};
ghost use Rattle.search.specs.Lanes.{unlike, Shown, Lowest};

use super::Walked;
use crate::lane::minterm;
use crate::listed::Listed;
use logic::logic::Exact;
use network::row::Signal;

impl<'a, 'b, E: Exact> Walked<'a, 'b, E> {
    /// Whether a signal differs in a lane.
    fn differs_at(&self, signal: Signal, lane: usize) -> bool
        requires signal { signal.0 < max_signals }
        requires lane { lane < E.Logic.LANES }
        ensures { (d : E.Value) → result ≡ unlike E.Exact.row self.now.plain.now self.now.turned.now lane d signal }
    {
        let at = signal.0 as usize;
        E::read(self.plain[at], lane) != E::read(self.turned[at], lane)
    }

    /// Whether some root differs in a lane.
    fn differs(&self, lane: usize) -> bool
        requires { lane < E.Logic.LANES }
        ensures { (d : E.Value) → result ≡ list_any (unlike E.Exact.row self.now.plain.now self.now.turned.now lane d) (net_in self.now.context.now).outputs }
    {
        self.context
            .network()
            .outputs()
            .iter()
            .any(|root| self.differs_at(*root, lane))
    }

    /// Whether the assignment of a lane is dull.
    pub fn lane_dull(&self, listed: &Listed, lane: usize) -> bool
        requires { lane < E.Logic.LANES }
        ensures { (rows : ℕ → LaneRow) → Shown E.Logic.admits self.now.context.now rows self.now.plain.now self.now.turned.now → result ≡ dull_in self.now.context.now listed.now rows lane }
    {
        if !self.differs(lane) {
            return true;
        }
        let rows = self.context.network().rows();
        listed.has(minterm::<E>(&rows[self.context.target()], lane, self.plain))
    }

    /// The lowest lane whose assignment is not dull, if there is one.
    pub fn lowest_lane(&self, listed: &Listed) -> Option<usize>
        ensures { (rows : ℕ → LaneRow) → Shown E.Logic.admits self.now.context.now rows self.now.plain.now self.now.turned.now → Lowest E.Logic.LANES (dull_in self.now.context.now listed.now rows) result }
    {
        (0..E::LANES).find(|lane| !self.lane_dull(listed, *lane))
    }
}
