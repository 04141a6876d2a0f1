//! Which nodes are the members of a context.
ghost use Rattle.std.specs.Prelude.{◌≡◌};
ghost use Rattle.window.specs.Scopes.{too_high};

use crate::limits::MAX_LEVEL;

/// `specs/Scopes.antt` says which members each has.
#[derive(Clone, Copy, PartialEq, Eq, Debug)]
pub enum Scope {
    /// All nodes.
    Whole,
    /// The nodes around the target, by levels towards the inputs and towards the outputs.
    Window { inward: u8, outward: u8 },
}

impl Scope {
    /// Whether a level is above the limit.
    pub fn is_too_high(self) -> bool
        ensures { result ≡ too_high self }
    {
        match self {
            Scope::Whole => false,
            Scope::Window { inward, outward } => inward > MAX_LEVEL || outward > MAX_LEVEL,
        }
    }
}
