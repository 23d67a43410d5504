//! Nets of two-input gates. By the type's invariant operands (fanins) are earlier nodes, so the order of the
//! gates is topological.

ghost use Rattle.std.specs.Prelude.{◌≡◌, All};
ghost use Rattle.net_theory.specs.Net.{IsNet, IsSigBelow, end_of};

use net_theory::{Gate, Sig};
use std::marker::Model;

/// A net (logic network): the nodes 1 to `sources` are its sources, and the gates follow in order. A gate's
/// operands are constants or earlier nodes, and a sink is a constant or a node. A net has fewer than 2^31
/// nodes.
#[derive(Drop)]
pub struct Net {
    pub(crate) sources: u32,
    pub(crate) gates: Vec<Gate>,
    pub(crate) sinks: Vec<Sig>,
}

impl Model for Net {
    ghost use Rattle.net_theory.specs.Net as net;
    ghost use Rattle.net_theory.specs.Net.{IsNet};

    ghost Value = { net.Net };

    ghost view = { λ n. record { sources = n.sources; gates = n.gates.items; sinks = n.sinks.items } };

    ghost invariant = { λ n. IsNet (record { sources = n.sources; gates = n.gates.items; sinks = n.sinks.items }) };
}

impl Net {
    /// The net with `sources` sources, `gates`, whose first one is the node after the sources, and `sinks`.
    pub fn new(sources: u32, gates: Vec<Gate>, sinks: Vec<Sig>) -> Net
        requires { IsNet (record { sources = sources; gates = gates.items; sinks = sinks.items }) }
        ensures { result ≡ record { sources = sources; gates = gates.items; sinks = sinks.items } }
    {
        Net {
            sources,
            gates,
            sinks,
        }
    }

    /// The number of sources.
    pub fn sources(&self) -> u32
        ensures sources { result ≡ self.now.sources }
        ensures net { IsNet self.now }
    {
        self.sources
    }

    /// The gates in the order of their nodes.
    pub fn gates(&self) -> &[Gate]
        ensures gates { result.now ≡ self.now.gates }
        ensures net { IsNet self.now }
    {
        &self.gates
    }

    /// The sinks (outputs), in order.
    pub fn sinks(&self) -> &[Sig]
        ensures sinks { result.now ≡ self.now.sinks }
        ensures net { IsNet self.now }
    {
        &self.sinks
    }

    /// The net with its sinks replaced.
    pub fn with_sinks(self, sinks: Vec<Sig>) -> Net
        requires { All (IsSigBelow (end_of self)) sinks.items }
        ensures { result ≡ record self { sinks = sinks.items } }
    {
        let Net {
            sources,
            gates,
            sinks: _,
        } = self;
        Net {
            sources,
            gates,
            sinks,
        }
    }
}
