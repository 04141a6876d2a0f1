//! A list of leaves, as it grows.
ghost use Rattle.std.specs.Prelude.{◌≡◌, length};
ghost use Rattle.window.specs.Limits.{max_leaves};

use network::row::Signal;
use roll::roll::Roll;

/// A roll of signals, with room for as many as a context may have leaves.
#[derive(Drop)]
pub struct LeafList<'a> {
    pub roll: Roll<'a, Signal>,
    ghost room: { length roll.places.now ≡ max_leaves },
}
