//! What a finder is.
ghost use Rattle.std.specs.Prelude.{ℕ};
ghost use Rattle.window.specs.declared.extracted.Context.{Context};
ghost use Rattle.search.specs.Rules.{Rules};
ghost use Rattle.search.specs.declared.listed.Listed.{Listed};
ghost use Rattle.search.specs.declared.answer.Answer.{Answer};

use crate::answer::Answer;
use crate::listed::Listed;
use window::extracted::Context;

/// Looks for an assignment that is not dull. Each look keeps the finder rules, whatever the finder
/// remembers from before; it refuses nothing.
pub trait Finder {
    /// What one look may do: the finder before it, what it is given, its answer and the finder after it.
    /// A finder that is free to choose leaves it open.
    ghost may: { Self → Context → Listed → ℕ → ℕ → Answer → Self → Type 0 };

    // What a look is given stands in its signature, since the rules speak of each.
    fn look(&mut self, context: &Context, listed: &Listed, from: u64, budget: u32) -> Answer
        ensures rules { Rules context.now listed.now from budget result }
        ensures may { may self.old context.now listed.now from budget result self.new };
}
