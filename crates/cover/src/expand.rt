//! Expansion: a cube without the literals that can go.
ghost use Rattle.std.specs.Prelude.{◌≡◌};
ghost use Rattle.std.specs.List.{range_with_len};
ghost use Rattle.cover.specs.Cubes.{start};
ghost use Rattle.cover.specs.Tables.{members};
ghost use Rattle.cover.specs.Covers.{expanded};

use crate::cube::Cube;
use crate::fanins::Fanins;
use crate::shape::meets;
use network::row::{Function, Minterm};

/// The cube of minterm y, expanded: fanins are tried from 0 upward, and a literal goes if the larger
/// cube holds no off-minterm.
pub fn expand(fanins: Fanins, off: &Function, y: Minterm) -> Cube
    ensures { result ≡ expanded (members off.now) (range_with_len 0 fanins.count) (start fanins.count y.0) }
{
    let mut cube = Cube::of_minterm(fanins, y);
    // A fanin is its number here, and no list holds them.
    for i in 0..fanins.count() as u16 {
        let larger = cube.strike(i);
        if !meets(off, larger) {
            cube = larger;
        }
    }
    cube
}
