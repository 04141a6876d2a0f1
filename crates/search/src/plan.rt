//! Which signals a look has to value.

mod make;

use network::limits::MAX_SIGNALS;
use window::set::SignalSet;

/// The signals that matter to the target or to a root, and for each signal whether it depends on the
/// target. A walk values no others, and values twice only what depends on the target. It reads both
/// as slices; as arrays they want no memory. A plan borrows no context, so a caller can keep both together:
/// of which context it is the plan is said where it is used.
#[derive(Clone, Copy)]
pub struct Plan {
    needed: SignalSet,
    marks: [bool; MAX_SIGNALS],
}
