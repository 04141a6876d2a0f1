//! A bit that may not be known.
ghost use Rattle.std.specs.Prelude.{◌||◌, T};

mod ops;

/// The bits that a signal may have: 0, 1 or either. Two flags, since a walk at `Option<bool>` takes about a
/// quarter longer (`docs/PROGRAMS.md` has the figures).
#[derive(Clone, Copy)]
pub struct Trit {
    zero: bool,
    one: bool,
    ghost some: { T (zero || one) },
}
