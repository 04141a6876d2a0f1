//! Building a context.
ghost use Rattle.std.specs.Prelude.{◌≡◌, ℕ, MatchResult};
ghost use Rattle.network.specs.Parts.{net_of};
ghost use Rattle.window.specs.Sets.{has};
ghost use Rattle.window.specs.Contexts.{IsContext, Gathers, Builds};
ghost use Rattle.window.specs.Laws.{ByPaths, OfContext, SameValues, SameInverted, FreeExactly, FreeSoundly, FreeInWhole, OwnFunction, Safe, Harmful};

use super::Context;
use crate::nodes::node_signal;
use crate::numbered::Numbered;
use crate::refusal::ContextError;
use crate::region::Region;
use crate::scope::Scope;
use network::network::Network;
use std::alloc::Global;

/// The context of a numbered region.
fn assemble(heap: Global, numbered: Numbered) -> Result<Context, ContextError>
    ensures { MatchResult result (IsContext (net_of numbered.entry.region.network.now) (has numbered.entry.region.members) numbered.entry.region.node) (λ e. e ≡ ContextError.NoMemory) }
{
    let network = numbered.extract(heap)?;
    let signal = node_signal(numbered.region.network, numbered.region.node);
    let target = numbered.numbers.of(signal).0 as usize - numbered.leaves.len();
    Ok(Context {
        network,
        target,
        leaves: numbered.leaves,
    })
}

/// The context of a region.
fn gather(heap: Global, region: Region) -> Result<Context, ContextError>
    ensures { Gathers (net_of region.entry.network.now) (has region.entry.members) region.entry.node result }
{
    assemble(heap, Numbered::of(heap, region)?)
}

/// The context, or the first refusal that applies. A function of its own, since the laws that `build`
/// ensures are proved from what this one does.
fn judge(
    heap: Global,
    network: &Network,
    node: usize,
    scope: Scope,
) -> Result<Context, ContextError>
    ensures { Builds (net_of network.now) node scope result }
{
    gather(heap, Region::around(network, node, scope)?)
}

impl Context {
    /// Builds the context of a node. `specs/Contexts.antt` says what it is and when it is refused,
    /// `specs/Laws.antt` what it is good for.
    pub fn build(
        heap: Global,
        network: &Network,
        node: usize,
        scope: Scope,
    ) -> Result<Context, ContextError>
        ensures builds { Builds (net_of network.now) node scope result }
        ensures paths { ByPaths (net_of network.now) node scope }
        ensures values { OfContext result (SameValues (net_of network.now) node scope) }
        ensures inverted { OfContext result (SameInverted (net_of network.now) node scope) }
        ensures exact { OfContext result FreeExactly }
        ensures sound { OfContext result (FreeSoundly (net_of network.now) node) }
        ensures whole { OfContext result (FreeInWhole (net_of network.now) node scope) }
        ensures own { OfContext result (OwnFunction (net_of network.now) node scope) }
        ensures safe { OfContext result (Safe (net_of network.now) node) }
        ensures harm { OfContext result (Harmful (net_of network.now) node scope) }
    {
        judge(heap, network, node, scope)
    }
}
