//! The minterms of a cube, byte by byte of a truth table.
ghost use Rattle.std.specs.Prelude.{◌≡◌, ℕ, ◌<◌, Decides};
ghost use Rattle.network.specs.Rows.{bit_at};
ghost use Rattle.cover.specs.Cubes.{in_cube};
ghost use Rattle.cover.specs.Bytes.{agrees, low_byte, byte_of};
ghost use Rattle.cover.specs.Tables.{IsSet, Meets};

use crate::cube::Cube;
use network::row::Function;
use std::array;

/// Of the eight minterms of a byte, those in which fanin 0 is 1.
const AXIS_0: u8 = 0xaa;

/// Those in which fanin 1 is 1.
const AXIS_1: u8 = 0xcc;

/// Those in which fanin 2 is 1.
const AXIS_2: u8 = 0xf0;

/// Bit i of a number.
#[tactic(auto, unfolding(network::specs::Rows::bit_at))]
fn bit(n: u16, i: u16) -> bool
    requires { i < 16 }
    ensures { result ≡ bit_at n i }
{
    (n >> i) % 2 == 1
}

/// Of the eight minterms of a byte, those that agree with a cube on one fanin: a literal asks for the
/// value, and the axis has the minterms with the value 1.
fn agreeing(literal: bool, value: bool, axis: u8) -> u8
    ensures { result ≡ agrees literal value axis }
{
    match (literal, value) {
        (true, true) => axis,
        (true, false) => !axis,
        (false, true) => 0,
        (false, false) => u8::MAX,
    }
}

/// Of the eight minterms of a byte, those that agree with the cube on the first three fanins.
#[tactic(auto, unfolding(crate::specs::Bytes::low_byte))]
fn low_byte(cube: Cube) -> u8
    ensures { result ≡ low_byte cube.mask cube.values }
{
    let zero = agreeing(bit(cube.mask, 0), bit(cube.values, 0), AXIS_0);
    let one = agreeing(bit(cube.mask, 1), bit(cube.values, 1), AXIS_1);
    let two = agreeing(bit(cube.mask, 2), bit(cube.values, 2), AXIS_2);
    zero & one & two
}

/// Byte k of the cube's minterms: the low ones, if k agrees with the cube on the other fanins.
#[tactic(auto, unfolding(crate::specs::Bytes::byte_of))]
fn byte(cube: Cube, low: u8, k: usize) -> u8
    requires { low ≡ low_byte cube.mask cube.values }
    ensures { result ≡ byte_of cube k }
{
    if k & (cube.mask / 8) as usize == (cube.values / 8) as usize {
        low
    } else {
        0
    }
}

/// The cube's minterms.
pub fn table(cube: Cube) -> Function
    ensures { IsSet result (in_cube cube) }
{
    let low = low_byte(cube);
    Function {
        bytes: array::from_fn(|k| byte(cube, low, k)),
    }
}

/// Whether one of the minterms is in the cube.
pub fn meets(set: &Function, cube: Cube) -> bool
    ensures { Decides result (Meets set.now cube) }
{
    let low = low_byte(cube);
    set.bytes
        .iter()
        .enumerate()
        .any(|(k, b)| *b & byte(cube, low, k) != 0)
}
