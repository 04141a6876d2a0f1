//! What a call answers, and why it is refused.
use crate::text::Hex;
use crate::view::View;
use job::denial::{Cause, ReadError, Refusal};
use std::alloc::AllocError;
use std::fmt;
use window::extracted::Context;
use window::refusal::ContextError;

/// What a call answers.
#[derive(Drop)]
pub(crate) enum Answer {
    Opened,
    Context(Context),
    /// The outputs' values, output j as bit j.
    Outputs(u64),
    /// The length of the job file, and the buffer that it was written into.
    Written(usize, Vec<u8>),
}

impl fmt::Display for Answer {
    fn fmt<W: fmt::Write>(&self, f: &mut fmt::Formatter<W>) -> fmt::Result {
        match self {
            Answer::Opened => write!(f, "0"),
            Answer::Context(context) => write!(f, "{}", View(context)),
            Answer::Outputs(bits) => write!(f, "{bits}"),
            Answer::Written(length, buffer) => write!(f, "{length} {}", Hex(buffer.as_slice())),
        }
    }
}

/// Why a call is refused.
#[derive(Drop)]
pub(crate) enum Denied {
    File(Refusal),
    Context(ContextError),
    Write(Cause),
    NoMemory(AllocError),
}

impl From<AllocError> for Denied {
    fn from(e: AllocError) -> Denied {
        Denied::NoMemory(e)
    }
}

impl From<ReadError> for Denied {
    fn from(e: ReadError) -> Denied {
        match e {
            ReadError::Refused(refusal) => Denied::File(refusal),
            ReadError::NoMemory => Denied::NoMemory(AllocError),
        }
    }
}

impl From<ContextError> for Denied {
    fn from(e: ContextError) -> Denied {
        match e {
            ContextError::NoMemory => Denied::NoMemory(AllocError),
            _ => Denied::Context(e),
        }
    }
}

impl From<Cause> for Denied {
    fn from(cause: Cause) -> Denied {
        Denied::Write(cause)
    }
}

/// The number of the refusal, and of a file also the place.
impl fmt::Display for Denied {
    fn fmt<W: fmt::Write>(&self, f: &mut fmt::Formatter<W>) -> fmt::Result {
        match self {
            Denied::File(refusal) => write!(f, "{} {}", refusal.cause.number(), refusal.place),
            // Only want of memory has no number, and it is no context's refusal here.
            Denied::Context(e) => write!(f, "{}", e.number().unwrap_or(0)),
            Denied::Write(cause) => write!(f, "{}", cause.number()),
            Denied::NoMemory(e) => write!(f, "{e}"),
        }
    }
}
