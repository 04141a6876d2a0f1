//! What adding an entry answers.
ghost use Rattle.std.specs.Prelude.{◌≡◌};
ghost use Rattle.roll.specs.Adding.{grown};

/// `specs/Adding.antt` says what each answer means.
#[derive(Clone, Copy, PartialEq, Eq, Debug)]
pub enum Added {
    /// It was absent, and is an entry now.
    Entered,
    /// An equal entry is there already.
    Present,
    /// It is absent, and no place is free.
    Full,
}

impl Added {
    /// How many entries more there are after this answer.
    pub fn growth(self) -> usize
        ensures { result ≡ grown self }
    {
        match self {
            Added::Entered => 1,
            Added::Present | Added::Full => 0,
        }
    }
}
