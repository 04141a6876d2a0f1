//! Cubes for every on-minterm.
ghost use Rattle.std.specs.Prelude.{◌≡◌, ℕ, ◌^◌, ◌≤◌, [], length, take, drop};
ghost use Rattle.std.specs.List.{range_with_len};
ghost use Rattle.cover.specs.Tables.{members, members_below};
ghost use Rattle.cover.specs.Covers.{gathered};

use crate::cube::Cube;
use crate::expand::expand;
use crate::fanins::Fanins;
use crate::shape::table;
use crate::table::without;
use network::row::{Function, Minterm};
use roll::roll::Roll;

/// Each on-minterm, ascending, that is in no cube yet is expanded, and its cube is entered in a roll over
/// the list. How many cubes there are then.
pub fn gather(fanins: Fanins, on: Function, off: &Function, list: &mut [Cube]) -> usize
    requires { 2 ^ fanins.count ≤ length list.old }
    ensures cubes { take result list.new ≡ gathered fanins.count (range_with_len 0 fanins.count) (members off.now) (members_below (2 ^ fanins.count) on) [] }
    ensures few { result ≤ 2 ^ fanins.count }
    ensures rest { drop (2 ^ fanins.count) list.new ≡ drop (2 ^ fanins.count) list.old }
{
    let mut roll = Roll::over(list);
    let mut left = on;
    // A minterm is a number, and no list holds them.
    for y in 0..fanins.minterms() {
        let minterm = Minterm(y);
        if left.bit(minterm) {
            let cube = expand(fanins, off, minterm);
            left = without(left, table(cube));
            let _ = roll.add(cube);
        }
    }
    roll.len()
}
