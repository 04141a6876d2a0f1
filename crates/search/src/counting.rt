//! The counting finder.
ghost use Rattle.search.specs.Counts.{Counts, CountsOnce};

use crate::answer::Answer;
use crate::finder::Finder;
use crate::listed::Listed;
use crate::single::Single;
use network::row::Assignment;
use window::extracted::Context;

/// Goes upward from "from", and settles dull assignments one by one.
#[derive(Clone, Copy)]
pub struct Counting;

/// Settles assignments one by one, until one is not dull, the budget is spent or none is left. A function of
/// its own, since the rules that `look` ensures are proved from what this one does.
fn count_up(context: &Context, listed: &Listed, from: u64, budget: u32) -> Answer
    ensures { Counts context.now listed.now from budget result }
{
    let mut single = Single::of(context, listed);
    let end = 1u64 << context.network().inputs();
    let stop = from.saturating_add(budget as u64).min(end);
    // The assignments by their numbers.
    for at in from..stop {
        if !single.is_dull(Assignment(at)) {
            return Answer::Found {
                at: Assignment(at),
                upto: at,
            };
        }
    }
    if stop < end {
        return Answer::Spent { upto: stop };
    }
    Answer::Exhausted
}

impl Finder for Counting {
    ghost may = { λ s c l from b r t. Counts c l from b r };

    fn look(&mut self, context: &Context, listed: &Listed, from: u64, budget: u32) -> Answer {
        count_up(context, listed, from, budget)
    }
}

/// The counting finder has just one answer.
pub fn counts_once()
    ensures { CountsOnce }
{}
