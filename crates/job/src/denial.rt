//! Why a job is not read or not written, and at which byte.
ghost use Rattle.std.specs.Prelude.{◌≡◌, [], ◌∷◌, Some};
ghost use Rattle.std.specs.Result.{result_err};
ghost use Rattle.job.specs.declared.denial.ReadError.TheVariants.{Refused, NoMemory};
ghost use Rattle.job.specs.Checks.{check, verdict};
ghost use Rattle.job.specs.Causes.{number_of, words_of, Says, refusal_text, error_text};

use std::alloc::AllocError;
use std::error::Error;
use std::fmt;

/// What is wrong. `specs/Causes.antt` gives each cause its number.
#[derive(Clone, Copy, PartialEq, Eq, Debug, Drop)]
pub enum Cause {
    /// The file ends in its head.
    HeadShort = 1,
    /// I, O or N is beyond its range.
    CountRange = 2,
    /// A pair is out of line or past the end.
    PairLine = 3,
    /// f is above 8, or the record's length is wrong.
    RecordShape = 4,
    /// A fanin is not lower, or an output is no signal.
    SignalRange = 5,
    /// A function bit at or above 2^f is set.
    StrayBit = 6,
    /// The bytes supplied for writing are too few.
    OutputShort = 18,
}

/// A cause, and the first byte of the field at fault.
#[derive(Clone, Copy, PartialEq, Eq, Debug, Drop)]
pub struct Refusal {
    pub cause: Cause,
    pub place: usize,
}

/// Why no job came of some bytes.
#[derive(Clone, Copy, PartialEq, Eq, Debug, Drop)]
pub enum ReadError {
    Refused(Refusal),
    NoMemory,
}

impl Cause {
    pub fn number(self) -> u8
        ensures { result ≡ number_of self }
    {
        self as u8
    }

    /// The cause in words, for a person: what `Display` prints, as a text that a contract can name.
    pub fn words(self) -> &'static str
        ensures { Says self result.now }
    {
        match self {
            Cause::HeadShort => "the file ends in its head",
            Cause::CountRange => "I, O or N is beyond its range",
            Cause::PairLine => "a pair is out of line or past the end",
            Cause::RecordShape => "f is above 8, or the record's length is wrong",
            Cause::SignalRange => "a fanin is not lower, or an output is no signal",
            Cause::StrayBit => "a function bit at or above 2^f is set",
            Cause::OutputShort => "the bytes supplied for writing are too few",
        }
    }
}

impl Refusal {
    /// A check: refuses with a cause and a place unless it holds.
    pub(crate) fn unless(holds: bool, cause: Cause, place: usize) -> Result<(), Refusal>
        ensures { result_err result ≡ verdict (check holds cause place ∷ []) }
    {
        if holds {
            Ok(())
        } else {
            Err(Refusal { cause, place })
        }
    }
}

impl From<Refusal> for ReadError {
    ghost from_gives = { λ r e. e ≡ Refused r };

    fn from(reason: Refusal) -> ReadError {
        ReadError::Refused(reason)
    }
}

impl From<AllocError> for ReadError {
    ghost from_gives = { λ _ e. e ≡ NoMemory };

    fn from(_: AllocError) -> ReadError {
        ReadError::NoMemory
    }
}

impl fmt::Display for Cause {
    ghost output = { λ cause. Some (words_of cause) };

    fn fmt<W: fmt::Write>(&self, f: &mut fmt::Formatter<W>) -> fmt::Result {
        f.write_str(self.words())
    }
}

impl fmt::Display for Refusal {
    ghost output = { λ refusal. Some (refusal_text refusal) };

    fn fmt<W: fmt::Write>(&self, f: &mut fmt::Formatter<W>) -> fmt::Result {
        let number = self.cause.number();
        write!(f, "{number} at {}: {}", self.place, self.cause)
    }
}

impl fmt::Display for ReadError {
    ghost output = { λ error. Some (error_text error) };

    fn fmt<W: fmt::Write>(&self, f: &mut fmt::Formatter<W>) -> fmt::Result {
        match self {
            ReadError::Refused(refusal) => write!(f, "refused: {refusal}"),
            ReadError::NoMemory => write!(f, "no memory"),
        }
    }
}

impl Error for Cause {}

impl Error for Refusal {}

impl Error for ReadError {}
