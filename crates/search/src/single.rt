//! One assignment.
ghost use Rattle.std.proofs.Props.{props};
ghost use Rattle.std.specs.Prelude.{◌≡◌, ◌^◌, ◌<◌};
ghost use Rattle.network.specs.Rows.{bit_at};
ghost use Rattle.network.specs.Nets.{row_at};
ghost use Rattle.theory.specs.Values.{minterm_at};
ghost use Rattle.search.specs.Contexts.{net_in, dull_at};
ghost use Rattle.search.specs.Plans.{Plans};

use crate::lane::minterm;
use crate::listed::Listed;
use crate::plan::Plan;
use crate::walked::Walked;
use crate::walks::walk_context;
use logic::bits::Bits;
use logic::evaluate::put_bits;
use logic::walk::walk;
use network::limits::{MAX_SIGNALS, MINTERMS};
use network::row::{Assignment, Minterm};
use window::extracted::Context;

/// The minterm that the target's fanins read under an assignment of the leaves.
pub fn reads_at(context: &Context, at: Assignment) -> Minterm
    ensures value { result.0 ≡ minterm_at (net_in context.now) context.now.target (bit_at at.0) }
    ensures small { result.0 < 2 ^ (row_at (net_in context.now) context.now.target).count }
{
    let network = context.network();
    let mut values = [false; MAX_SIGNALS];
    let mut fold = [false; MINTERMS];
    put_bits(at, network.inputs(), &mut values);
    walk::<Bits>(network, None, &mut values, &mut fold);
    let rows = network.rows();
    minterm::<Bits>(&rows[context.target()], 0, &values)
}

/// A test of single assignments against a list, with the places for the values of both walks. It is made
/// once in a look.
#[derive(Drop)]
pub struct Single<'a> {
    context: &'a Context,
    plan: Plan,
    listed: Listed,
    plain: [bool; MAX_SIGNALS],
    turned: [bool; MAX_SIGNALS],
    fold: [bool; MINTERMS],
    ghost planned: { Plans context.now plan } by { Prim.hlevel props },
}

impl<'a> Single<'a> {
    /// The test of a context's assignments against a list.
    pub fn of(context: &'a Context, listed: &Listed) -> Single<'a>
        ensures context { result.context.now ≡ context.now }
        ensures listed { result.listed ≡ listed.now }
    {
        Single {
            context,
            plan: Plan::of(context),
            listed: *listed,
            plain: [false; MAX_SIGNALS],
            turned: [false; MAX_SIGNALS],
            fold: [false; MINTERMS],
        }
    }

    /// Whether an assignment of the leaves is dull.
    pub fn is_dull(&mut self, at: Assignment) -> bool
        ensures dull { result ≡ dull_at self.old.context.now self.old.listed at.0 }
        ensures context { self.new.context.now ≡ self.old.context.now }
        ensures listed { self.new.listed ≡ self.old.listed }
    {
        put_bits(at, self.context.network().inputs(), &mut self.plain);
        walk_context::<Bits>(
            self.context,
            &self.plan,
            &mut self.plain,
            &mut self.turned,
            &mut self.fold,
        );
        Walked::<Bits>::over(self.context, &self.plain, &self.turned).lane_dull(&self.listed, 0)
    }
}
