//! A context as text.
use crate::text::Hex;
use network::row::Signal;
use std::fmt;
use window::extracted::Context;

/// Signals, parted by commas; `-` for none.
#[derive(Clone, Copy)]
struct Signals<'a>(&'a [Signal]);

impl fmt::Display for Signals<'_> {
    fn fmt<W: fmt::Write>(&self, f: &mut fmt::Formatter<W>) -> fmt::Result {
        let Some((first, others)) = self.0.split_first() else {
            return f.write_str("-");
        };
        write!(f, "{}", first.0)?;
        for signal in others {
            write!(f, ",{}", signal.0)?;
        }
        Ok(())
    }
}

/// The number of leaves, the target's node, the leaves, the roots, and each node's fanins and function.
#[derive(Clone, Copy)]
pub(crate) struct View<'a>(pub(crate) &'a Context);

impl fmt::Display for View<'_> {
    fn fmt<W: fmt::Write>(&self, f: &mut fmt::Formatter<W>) -> fmt::Result {
        let network = self.0.network();
        let count = network.inputs();
        let target = self.0.target();
        let leaves = Signals(self.0.leaves());
        let roots = Signals(network.outputs());
        write!(f, "{count} {target} {leaves} {roots}")?;
        for row in network.rows() {
            let fanins = Signals(row.used());
            let function = Hex(&row.function.bytes);
            write!(f, " {fanins}:{function}")?;
        }
        Ok(())
    }
}
