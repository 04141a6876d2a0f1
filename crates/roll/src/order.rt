//! What the entries of a roll are ordered by.
ghost use Rattle.std.specs.Prelude.{◌≡◌, Bool, true, false};

/// A total order: of two values that are not equal exactly one is below the other. `Ord` of the standard
/// library does not say so much, since it may hold two values equal that differ, and a roll's entries differ.
pub trait Ranked: Copy {
    ghost below: { Self → Self → Bool };

    /// Whether `self` is below `other`.
    fn precedes(&self, other: &Self) -> bool
        ensures { result ≡ below self.now other.now };

    ghost irreflexive: { (x : Self) → below x x ≡ false };

    ghost transitive: { (x y z : Self) → below x y ≡ true → below y z ≡ true → below x z ≡ true };

    ghost connected: { (x y : Self) → below x y ≡ false → below y x ≡ false → x ≡ y };
}
