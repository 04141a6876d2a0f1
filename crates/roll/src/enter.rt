//! Entering a value among the entries that stand first in a list.
ghost use Rattle.std.specs.Prelude.{◌≡◌, ℕ, ◌+◌, ◌<◌, ◌≤◌, true, ◌++◌, length, take, drop};
ghost use Rattle.std.specs.List.{insert};
ghost use Rattle.roll.specs.Rolls.{IsRoll};
ghost use Rattle.roll.specs.Adding.{Adds};

use crate::added::Added;
use crate::order::Ranked;
use crate::search::seek;

/// Puts the item at `at`, and moves what stood from there up to `count` one place on.
fn insert_at<T: Copy>(places: &mut [T], count: usize, at: usize, item: T)
    requires within { at ≤ count }
    requires free { count < length places.old }
    ensures { places.new ≡ insert (take count places.old) at item ++ drop (count + 1) places.old }
{
    places[count] = item;
    let part = &mut places[at..count + 1];
    part.rotate_right(1);
}

/// Adds the item to the `count` entries that stand first in `places`. These are a roll's fields, taken
/// apart: what a roll knows of them holds again only when both have changed.
pub fn enter<T: Ranked>(places: &mut [T], count: usize, item: T) -> Added
    requires { IsRoll T.below count places.old }
    ensures { Adds T.below item count places.old result places.new }
{
    match seek(&places[0..count], &item) {
        Ok(_) => Added::Present,
        Err(at) => {
            if count >= places.len() {
                Added::Full
            } else {
                insert_at(places, count, at, item);
                Added::Entered
            }
        }
    }
}
