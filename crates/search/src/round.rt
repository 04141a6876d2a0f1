//! A round: 64 assignments at once.
ghost use Rattle.std.specs.Prelude.{◌≡◌, ◌<◌, ◌≤◌, length};
ghost use Rattle.network.specs.Limits.{max_signals};
ghost use Rattle.logic.specs.Limits.{word_bits};
ghost use Rattle.search.specs.Contexts.{net_in, space};
ghost use Rattle.search.specs.Rounds.{lane_at, Round};

use crate::listed::Listed;
use crate::plan::Plan;
use crate::walked::Walked;
use crate::walks::walk_context;
use logic::front::put_front;
use logic::logic::Exact;
use logic::number::number_of;
use logic::words::Words;
use network::limits::{MAX_SIGNALS, MINTERMS};
use network::row::Assignment;
use window::extracted::Context;

/// The lowest lane whose assignment is not dull, if there is one, where bit l of word i is the value of
/// leaf i in lane l.
pub fn round(context: &Context, listed: &Listed, words: &[u64]) -> Option<usize>
    requires enough { (net_in context.now).inputs ≤ length words.now }
    requires few { length words.now ≤ max_signals }
    ensures { Round context.now listed.now words.now result }
{
    let plan = Plan::of(context);
    let mut plain = [0u64; MAX_SIGNALS];
    let mut turned = [0u64; MAX_SIGNALS];
    let mut fold = [0u64; MINTERMS];
    put_front(words, &mut plain);
    walk_context::<Words>(context, &plan, &mut plain, &mut turned, &mut fold);
    Walked::<Words>::over(context, &plain, &turned).lowest_lane(listed)
}

/// The assignment of a lane.
pub fn lane_assignment(context: &Context, words: &[u64], lane: usize) -> Assignment
    requires enough { (net_in context.now).inputs ≤ length words.now }
    requires lane { lane < word_bits }
    ensures value { result.0 ≡ lane_at context.now words.now lane }
    ensures small { result.0 < space context.now }
{
    let leaves = &words[..context.network().inputs()];
    Assignment(number_of(leaves, |word| <Words as Exact>::read(*word, lane)))
}
