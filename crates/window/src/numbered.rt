//! A region whose leaves and members have new numbers.
ghost use Rattle.std.specs.Prelude.{◌≡◌, ℕ, ◌+◌, ◌<◌, ◌≤◌, Bool, true, ◌||◌, length, MatchResult};
ghost use Rattle.network.specs.Nets.{size};
ghost use Rattle.network.specs.Parts.{net_of};
ghost use Rattle.context.specs.Windows.{is_leaf, leaves_of};
ghost use Rattle.context.specs.Extracts.{new_of};
ghost use Rattle.window.specs.Limits.{max_leaves};
ghost use Rattle.window.specs.Sets.{has};
ghost use Rattle.window.specs.Entries.{leaf_signals, NoLeaves};
ghost use Rattle.window.specs.Numbers.{new_at, Numbers};

use crate::refusal::ContextError;
use crate::region::Region;
use crate::renumber::Renumbering;
use network::row::Signal;
use std::alloc::Global;

/// A region with its leaves, which are few enough, and the new numbers of its leaves and members.
#[derive(Drop)]
pub struct Numbered<'a> {
    pub region: Region<'a>,
    pub leaves: Vec<Signal>,
    pub numbers: Renumbering,
    ghost list: { leaves.items ≡ leaf_signals (net_of region.network.now) (has region.members) },
    ghost few: { length (leaves_of (net_of region.network.now) (has region.members)) ≤ max_leaves },
    ghost numbered: { Numbers (net_of region.network.now) (has region.members) (new_at numbers) },
}

impl<'a> Numbered<'a> {
    /// Lists the leaves of the region, and numbers it.
    pub fn of(heap: Global, region: Region<'a>) -> Result<Numbered<'a>, ContextError>
        ensures { MatchResult result (λ n. n.region ≡ region.entry) (NoLeaves (net_of region.entry.network.now) (has region.entry.members)) }
    {
        let leaves = region.leaves(heap)?;
        let numbers = Renumbering::new(&region, leaves.as_slice());
        Ok(Numbered {
            region,
            leaves,
            numbers,
        })
    }
}
