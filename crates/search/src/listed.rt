//! Lists of minterms.
ghost use Rattle.std.specs.Prelude.{◌≡◌, ℕ, ◌*◌, ◌<◌, ◌≤◌, true, false, not, ◌||◌, ◌==◌, length};
ghost use Rattle.network.specs.Limits.{minterms, function_bytes};
ghost use Rattle.network.specs.Rows.{bit_of};
ghost use Rattle.context.specs.Care.{any_below, count_below};
ghost use Rattle.search.specs.Lists.{has};

use network::limits::FUNCTION_BYTES;
use network::row::{Function, Minterm};

/// The minterms of a target that are listed, as a truth table that is 1 at each of them.
#[derive(Clone, Copy)]
pub struct Listed {
    table: Function,
}

/// How many minterms have a 1 in some bytes of a truth table.
fn count_ones(bytes: &[u8]) -> usize
    requires { length bytes.now ≤ function_bytes }
    ensures { result ≡ count_below (8 * length bytes.now) (bit_of (record { bytes = bytes.now })) }
{
    let ones = bytes.iter().map(|byte| byte.count_ones() as usize);
    ones.sum()
}

/// Whether some minterm has a 1 in some bytes of a truth table.
fn has_ones(bytes: &[u8]) -> bool
    ensures { result ≡ any_below (8 * length bytes.now) (bit_of (record { bytes = bytes.now })) }
{
    bytes.iter().any(|byte| *byte != 0)
}

impl Listed {
    /// The list without minterms.
    pub fn empty() -> Listed
        ensures { (y : ℕ) → has result y ≡ false }
    {
        Listed {
            table: Function {
                bytes: [0; FUNCTION_BYTES],
            },
        }
    }

    /// Whether the minterm is listed.
    pub fn has(&self, y: Minterm) -> bool
        ensures { result ≡ has self.now y.0 }
    {
        self.table.bit(y)
    }

    /// The list with one minterm more.
    pub fn with(self, y: Minterm) -> Listed
        requires { y.0 < minterms }
        ensures { (z : ℕ) → has result z ≡ (has self z || y.0 == z) }
    {
        let mut bytes = self.table.bytes;
        bytes[y.0 as usize / 8] |= 1 << (y.0 % 8);
        Listed {
            table: Function { bytes },
        }
    }

    /// How many minterms are listed.
    pub fn count(&self) -> usize
        ensures { result ≡ count_below minterms (has self.now) }
    {
        count_ones(&self.table.bytes)
    }

    /// Whether no minterm is listed.
    pub fn is_empty(&self) -> bool
        ensures { result ≡ not (any_below minterms (has self.now)) }
    {
        !has_ones(&self.table.bytes)
    }

    /// The truth table that is 1 at each minterm that is listed.
    pub fn table(&self) -> Function
        ensures { result ≡ self.now.table }
    {
        self.table
    }
}
