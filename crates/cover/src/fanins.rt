//! How many fanins a node has.
ghost use Rattle.std.specs.Prelude.{◌≡◌, ℕ, ◌^◌, ◌<◌, ◌≤◌, MatchOption};
ghost use Rattle.network.specs.Limits.{max_fanins};

use network::limits::MAX_FANINS;
use network::node::Node;

/// A number of fanins that a node may have.
#[derive(Clone, Copy)]
pub struct Fanins {
    count: u8,
    ghost few: { count ≤ max_fanins },
}

impl Fanins {
    /// The number, if a node may have so many.
    // There is one way to fail, so an `Option` says all that an error would.
    pub fn new(count: u8) -> Option<Fanins>
        ensures { MatchOption result (max_fanins < count) (λ f. f.count ≡ count) }
    {
        if count as usize <= MAX_FANINS {
            Some(Fanins { count })
        } else {
            None
        }
    }

    /// How many a node has.
    // A node is more than its number of fanins, so this is no `From`.
    pub fn of_node(node: &Node) -> Fanins
        ensures { result.count ≡ node.now.row.count }
    {
        let row = node.row();
        Fanins { count: row.count }
    }

    pub fn count(self) -> u8
        ensures { result ≡ self.count }
    {
        self.count
    }

    /// How many minterms there are.
    pub fn minterms(self) -> u16
        ensures { result ≡ 2 ^ self.count }
    {
        1u16 << self.count
    }
}
