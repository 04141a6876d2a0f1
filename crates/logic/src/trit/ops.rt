//! What can be done with a bit that may not be known.
ghost use Rattle.std.specs.Prelude.{◌≡◌};
ghost use Rattle.logic.specs.Trits.{trit_of, unknown, either, trit_pick, bit_known};

use super::Trit;

impl Trit {
    pub fn known(bit: bool) -> Trit
        ensures { result ≡ trit_of bit }
    {
        if bit {
            return Trit {
                zero: false,
                one: true,
            };
        }
        Trit {
            zero: true,
            one: false,
        }
    }

    pub fn unknown() -> Trit
        ensures { result ≡ unknown }
    {
        Trit {
            zero: true,
            one: true,
        }
    }

    /// The bit, if it is known.
    pub fn bit(self) -> Option<bool>
        ensures { result ≡ bit_known self }
    {
        if self.zero && self.one {
            None
        } else {
            Some(self.one)
        }
    }

    /// What one of two may be: their common value if both are known and equal, else unknown.
    fn either(self, other: Trit) -> Trit
        ensures { result ≡ either self other }
    {
        Trit {
            zero: self.zero | other.zero,
            one: self.one | other.one,
        }
    }

    /// h or l if s is known, else what one of them may be.
    pub(crate) fn pick(s: Trit, h: Trit, l: Trit) -> Trit
        ensures { result ≡ trit_pick s h l }
    {
        if !s.one {
            l
        } else if !s.zero {
            h
        } else {
            h.either(l)
        }
    }
}
