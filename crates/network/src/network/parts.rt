//! The parts of a network.
ghost use Rattle.std.specs.Prelude.{◌≡◌};
ghost use Rattle.network.specs.Nets.{LegalNet};
ghost use Rattle.network.specs.Parts.{net_of};

use super::Network;
use crate::row::{Row, Signal};

impl Network {
    /// How many primary inputs there are.
    pub fn inputs(&self) -> usize
        ensures { result ≡ (net_of self.now).inputs }
    {
        self.inputs
    }

    /// The rows, row n being that of node n.
    pub fn rows(&self) -> &[Row]
        ensures value { result.now ≡ (net_of self.now).rows }
        ensures legal { LegalNet (net_of self.now) }
    {
        self.table.rows()
    }

    /// The signals of the outputs.
    pub fn outputs(&self) -> &[Signal]
        ensures { result.now ≡ (net_of self.now).outputs }
    {
        self.outputs.as_slice()
    }
}
