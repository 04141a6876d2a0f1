//! What a logic has to give: values, each of which admits rows of bits.
ghost use Rattle.std.specs.Prelude.{◌≡◌, ℕ, ◌<◌, Bool};
ghost use Rattle.logic.specs.Lanes.{LaneRow, always, picked};

/// A logic's values stand for the bits of a signal in some lanes. A value admits the rows that the
/// signal may have, a row being a bit for each lane.
pub trait Logic {
    type Value: Copy;

    ghost LANES: { ℕ };

    const LANES: usize;

    ghost admits: { Self.Value → LaneRow → Type 0 };

    ghost constants: { Bool → Self.Value };

    ghost picks: { Self.Value → Self.Value → Self.Value → Self.Value };

    /// The value that has the bit in every lane.
    fn constant(bit: bool) -> Self::Value
        ensures { result ≡ constants bit };

    /// The value of h in the lanes where s has 1, and of l elsewhere.
    fn pick(s: Self::Value, h: Self::Value, l: Self::Value) -> Self::Value
        ensures { result ≡ picks s h l };

    ghost steady: { (b : Bool) → admits (constants b) (always b) };

    ghost sound: { (s h l : Self.Value) (a b c : LaneRow) → admits s a → admits h b → admits l c → admits (picks s h l) (picked a b c) };
}

/// A logic in which every value admits just one row.
pub trait Exact: Logic {
    ghost row: { Self.Value → LaneRow };

    /// The bit that a value has in a lane.
    // A lane below LANES is asked for as an index is: a value says nothing of any other.
    fn read(value: Self::Value, lane: usize) -> bool
        requires { lane < Self.Logic.LANES }
        ensures { (a : LaneRow) → Self.Logic.admits value a → result ≡ a lane };

    ghost own: { (v : Self.Value) → Self.Logic.admits v (row v) };

    ghost one: { (v : Self.Value) (a : LaneRow) → Self.Logic.admits v a → (l : ℕ) → l < Self.Logic.LANES → a l ≡ row v l };
}
