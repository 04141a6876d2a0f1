//! The function of a cover.
ghost use Rattle.std.specs.Prelude.{◌≡◌, ℕ, ◌^◌, ◌&&◌, nat_lt};
ghost use Rattle.network.specs.Rows.{Clean};
ghost use Rattle.cover.specs.Cubes.{in_cover};
ghost use Rattle.cover.specs.Laws.{Lawful, Agrees};
ghost use Rattle.cover.specs.Tables.{IsSet};

use crate::care::{CareFunction, domain};
use crate::cube::Cube;
use crate::fanins::Fanins;
use crate::shape::table;
use crate::table::{common, none, union};
use network::row::Function;

/// The minterms in the cubes.
fn united(cubes: &[Cube]) -> Function
    ensures { IsSet result (in_cover cubes.now) }
{
    let mut all = none();
    for cube in cubes {
        all = union(all, table(*cube));
    }
    all
}

/// The function that is 1 exactly in the cubes.
pub fn function_of(fanins: Fanins, cubes: &[Cube]) -> Function
    ensures value { IsSet result (λ y. nat_lt y (2 ^ fanins.count) && in_cover cubes.now y) }
    ensures clean { Clean fanins.count result }
    ensures agrees { (target : CareFunction) → target.fanins.count ≡ fanins.count → Lawful target cubes.now → Agrees target result }
{
    common(domain(fanins), united(cubes))
}
