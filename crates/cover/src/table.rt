//! Sets of minterms as truth tables: a minterm is in the set if the value at it is 1.
ghost use Rattle.std.specs.Prelude.{◌≡◌, ℕ, ◌<◌, false, not, ◌&&◌, ◌||◌, slice_index};
ghost use Rattle.network.specs.Limits.{function_bytes};
ghost use Rattle.network.specs.Rows.{bit_of};
ghost use Rattle.cover.specs.Tables.{IsSet};

use network::limits::FUNCTION_BYTES;
use network::row::Function;
use std::array;

/// No minterms.
pub fn none() -> Function
    ensures { IsSet result (λ _. false) }
{
    Function {
        bytes: [0; FUNCTION_BYTES],
    }
}

/// The table of which each byte is made from the two that stand there in `a` and `b`.
fn combined<F: Fn(u8, u8) -> u8>(a: Function, b: Function, op: F) -> Function
    requires { F.IsAlwaysCallable op }
    ensures { (k : ℕ) → k < function_bytes → F.post op (slice_index a.bytes k) (slice_index b.bytes k) (slice_index result.bytes k) }
{
    Function {
        bytes: array::from_fn(|k| op(a.bytes[k], b.bytes[k])),
    }
}

/// The minterms of either.
pub fn union(a: Function, b: Function) -> Function
    ensures { IsSet result (λ y. bit_of a y || bit_of b y) }
{
    combined(a, b, |x, y| x | y)
}

/// The minterms of both.
pub fn common(a: Function, b: Function) -> Function
    ensures { IsSet result (λ y. bit_of a y && bit_of b y) }
{
    combined(a, b, |x, y| x & y)
}

/// The minterms of the first that are not in the second.
pub fn without(a: Function, b: Function) -> Function
    ensures { IsSet result (λ y. bit_of a y && not (bit_of b y)) }
{
    combined(a, b, |x, y| x & !y)
}
