//! Why there is no context.
ghost use Rattle.std.specs.Prelude.{◌≡◌, Some};
ghost use Rattle.window.specs.Refusals.{number_of, words_of};
ghost use Rattle.window.specs.declared.refusal.ContextError.TheVariants.{NoMemory};

use std::alloc::AllocError;
use std::error::Error;
use std::fmt;

/// Why a context is not built.
#[derive(Clone, Copy, PartialEq, Eq, Debug, Drop)]
pub enum ContextError {
    /// There is no such node.
    NoNode,
    /// A level is above the limit.
    Level,
    /// There are too many leaves.
    Leaves,
    /// Memory ran out; this has no number.
    NoMemory,
}

impl ContextError {
    /// The number of the refusal, which the programs print.
    pub fn number(self) -> Option<u8>
        ensures { result ≡ number_of self }
    {
        // Want of memory has no number to cast, so each is written out.
        match self {
            ContextError::NoNode => Some(8),
            ContextError::Level => Some(9),
            ContextError::Leaves => Some(10),
            ContextError::NoMemory => None,
        }
    }
}

impl fmt::Display for ContextError {
    ghost output = { λ e. Some (words_of e) };

    fn fmt<W: fmt::Write>(&self, f: &mut fmt::Formatter<W>) -> fmt::Result {
        match self {
            ContextError::NoNode => write!(f, "there is no such node"),
            ContextError::Level => write!(f, "a level is above the limit"),
            ContextError::Leaves => write!(f, "there are too many leaves"),
            ContextError::NoMemory => write!(f, "memory ran out"),
        }
    }
}

impl Error for ContextError {}

impl From<AllocError> for ContextError {
    ghost from_gives = { λ _ e. e ≡ NoMemory };

    fn from(_: AllocError) -> Self {
        Self::NoMemory
    }
}
