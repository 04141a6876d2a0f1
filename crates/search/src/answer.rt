//! What a look answers.
ghost use Rattle.std.specs.Prelude.{◌≡◌};
ghost use Rattle.search.specs.Answers.{number_of};

use network::row::Assignment;

/// What a look answers. `specs/Answers.antt` gives each answer its number and says up to where it has
/// settled the assignments.
#[derive(Clone, Copy, PartialEq, Eq, Debug)]
pub enum Answer {
    /// An assignment that is not dull.
    Found { at: Assignment, upto: u64 },
    /// The budget is spent.
    Spent { upto: u64 },
    /// All assignments are dull.
    Exhausted,
}

impl Answer {
    /// The answer's number.
    pub fn number(self) -> u8
        ensures { result ≡ number_of self }
    {
        // A variant with fields has no number to cast, so each is written out.
        match self {
            Answer::Found { .. } => 1,
            Answer::Spent { .. } => 2,
            Answer::Exhausted => 3,
        }
    }
}
