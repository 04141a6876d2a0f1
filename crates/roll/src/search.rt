//! Where a value stands in an ascending list, or would go.
ghost use Rattle.std.specs.Prelude.{◌≡◌, ℕ, ◌<◌, true, length, MatchResult};
ghost use Rattle.roll.specs.Rolls.{ascending, place};
ghost use Rattle.roll.specs.Adding.{Stands, Goes};

use crate::order::Ranked;

/// How many entries at the front are below the item, by halving.
fn place_of<T: Ranked>(entries: &[T], item: &T) -> usize
    requires { ascending T.below entries.now ≡ true }
    ensures { result ≡ place T.below item.now entries.now }
{
    entries.partition_point(
        |entry|
            ensures { result ≡ T.below entry.now item.entry.now }
        { entry.precedes(item) },
    )
}

/// Where the item stands among the entries (Ok), or where it would go (Err).
pub fn seek<T: Ranked>(entries: &[T], item: &T) -> Result<usize, usize>
    requires { ascending T.below entries.now ≡ true }
    ensures { MatchResult result (Stands item.now entries.now) (Goes T.below item.now entries.now) }
{
    let at = place_of(entries, item);
    if at >= entries.len() {
        return Err(at);
    }
    if item.precedes(&entries[at]) {
        Err(at)
    } else {
        Ok(at)
    }
}
