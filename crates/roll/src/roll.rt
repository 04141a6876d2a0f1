//! The roll.
ghost use Rattle.std.specs.Prelude.{◌≡◌, ℕ, ◌+◌, ◌≤◌, true, length, take};
ghost use Rattle.roll.specs.Rolls.{ascending, IsRoll, Distinct};
ghost use Rattle.roll.specs.Adding.{Adds, grown};

use crate::added::Added;
use crate::enter::enter;
use crate::order::Ranked;

/// The first `count` places of a lent list, ascending and no two equal. The list is the caller's again
/// once the roll is gone; what it holds then is what the last call left.
#[derive(Drop)]
pub struct Roll<'a, T: Ranked> {
    places: &'a mut [T],
    count: usize,
    ghost fits: { count ≤ length places.now },
    ghost rising: { ascending T.below (take count places.now) ≡ true },
}

impl<'a, T: Ranked> Roll<'a, T> {
    /// A roll without entries over the whole list.
    pub fn over(places: &'a mut [T]) -> Self
        ensures count { result.count ≡ 0 }
        ensures places { result.places ≡ places.entry }
        ensures roll { IsRoll T.below result.count result.places.now }
    {
        Roll { places, count: 0 }
    }

    /// How many entries there are.
    pub fn len(&self) -> usize
        ensures { result ≡ self.now.count }
    {
        self.count
    }

    /// The entries, ascending.
    pub fn entries(&self) -> &[T]
        ensures { result.now ≡ take self.now.count self.now.places.now }
    {
        &self.places[0..self.count]
    }

    /// Adds an entry.
    pub fn add(&mut self, item: T) -> Added
        ensures adds { Adds T.below item self.old.count self.old.places.now result self.new.places.now }
        ensures count { self.new.count ≡ self.old.count + grown result }
        ensures roll { IsRoll T.below self.new.count self.new.places.now }
        ensures distinct { Distinct (take self.new.count self.new.places.now) }
        ensures lender { self.new.places.ghost_name ≡ self.old.places.ghost_name }
    {
        let Roll { places, count } = self;
        let added = enter(places, *count, item);
        *count += added.growth();
        added
    }
}
