//! What both walks over a context left.
ghost use Rattle.std.specs.Prelude.{◌≡◌, ◌≤◌, length};
ghost use Rattle.network.specs.Limits.{max_signals};

mod lane;

use logic::logic::Logic;
use window::extracted::Context;

/// The values of the signals of a context: as its network is, and with the target's value inverted.
#[derive(Drop)]
pub struct Walked<'a, 'b, L: Logic> {
    context: &'a Context,
    plain: &'b [L::Value],
    turned: &'b [L::Value],
    ghost first: { max_signals ≤ length plain.now },
    ghost second: { max_signals ≤ length turned.now },
}

impl<'a, 'b, L: Logic> Walked<'a, 'b, L> {
    /// The values that two slices hold.
    pub fn over(
        context: &'a Context,
        plain: &'b [L::Value],
        turned: &'b [L::Value],
    ) -> Walked<'a, 'b, L>
        requires first { max_signals ≤ length plain.now }
        requires second { max_signals ≤ length turned.now }
        ensures context { result.context.now ≡ context.now }
        ensures plain { result.plain.now ≡ plain.now }
        ensures turned { result.turned.now ≡ turned.now }
    {
        Walked {
            context,
            plain,
            turned,
        }
    }

    /// The values as the network is.
    pub fn plain(&self) -> &'b [L::Value]
        ensures { result.now ≡ self.now.plain.now }
    {
        self.plain
    }

    /// The values with the target's inverted.
    pub fn turned(&self) -> &'b [L::Value]
        ensures { result.now ≡ self.now.turned.now }
    {
        self.turned
    }
}
