//! Irredundancy: cubes that can go.
ghost use Rattle.std.specs.Prelude.{◌≡◌, ℕ, ◌+◌, ◌<◌, ◌≤◌, [], length, take, drop, slice_index_or};
ghost use Rattle.network.specs.Limits.{minterms};
ghost use Rattle.cover.specs.Cubes.{in_cover};
ghost use Rattle.cover.specs.Tables.{IsSet, members, no_table};
ghost use Rattle.cover.specs.Covers.{pruned};

use crate::cube::Cube;
use crate::shape::{meets, table};
use crate::table::{none, union, without};
use network::limits::MINTERMS;
use network::row::Function;

/// Entry i becomes the minterms of the cubes behind cube i.
fn fill_later(cubes: &[Cube], later: &mut [Function])
    requires { length cubes.now ≤ length later.old }
    ensures { (i : ℕ) → i < length cubes.now → IsSet (slice_index_or later.new i no_table) (in_cover (drop (i + 1) cubes.now)) }
{
    let mut behind = none();
    for (i, cube) in cubes.iter().enumerate().rev() {
        later[i] = behind;
        behind = union(table(*cube), behind);
    }
}

/// In list order a cube goes if its on-minterms all lie in others still there; the others move up. How
/// many cubes stay.
pub fn prune(on: Function, cubes: &mut [Cube]) -> usize
    requires { length cubes.old ≤ minterms }
    ensures cubes { take result cubes.new ≡ pruned (members on) [] cubes.old }
    ensures few { result ≤ length cubes.old }
{
    // An array, with a place for as many cubes as there can be: no memory can be wanting.
    let mut later = [none(); MINTERMS];
    fill_later(cubes, &mut later);
    let mut left = on;
    let mut stays = 0;
    // Cubes move up within the list that is read, so no iterator can lend both.
    for (i, behind) in later[..cubes.len()].iter().enumerate() {
        let cube = cubes[i];
        let lone = without(left, *behind);
        if meets(&lone, cube) {
            cubes[stays] = cube;
            left = without(left, table(cube));
            stays += 1;
        }
    }
    stays
}
