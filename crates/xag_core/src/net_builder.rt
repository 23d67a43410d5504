//! Nets that grow gate by gate. An operand that isn't in the net counts as the constant 0, so the result is a
//! net whatever operands are given.
ghost use Rattle.std.specs.Prelude.{◌≡◌, ◌<◌, OnOk, IfOk, length};
ghost use Rattle.net_theory.specs.Net.{IsSigBelow};
ghost use Rattle.xag_core.specs.Grown.{IsGrownNet, HasSignals};

use net_core::{Gate, Net, Op, Sig};
use std::alloc::{AllocError, Global};
use std::marker::Model;

/// The sources, and the gates so far.
#[derive(Drop)]
pub struct NetBuilder {
    sources: u32,
    gates: Vec<Gate>,
}

impl Model for NetBuilder {
    ghost use Rattle.xag_core.specs.Grown as grown;
    ghost use Rattle.xag_core.specs.Grown.{IsGrownNet};

    ghost Value = { grown.GrownNet };

    ghost view = { λ b. record { sources = b.sources; gates = b.gates.items } };

    ghost invariant = { λ b. IsGrownNet (record { sources = b.sources; gates = b.gates.items }) };
}

/// The signal itself, or the constant 0 where its node isn't below `end`.
fn below(end: u64, sig: Sig) -> Sig
    ensures { IsSigBelow end result }
{
    match sig {
        Sig::Node(net_node) => {
            if net_node >= 1 && u64::from(net_node) < end {
                Sig::Node(net_node)
            } else {
                Sig::Zero
            }
        }
        _ => sig,
    }
}

impl NetBuilder {
    /// A net of `sources` sources without gates.
    pub fn new(alloc: Global, sources: u32) -> Result<NetBuilder, AllocError>
        ensures { IfOk result (λ net. net.sources ≡ sources) }
    {
        if sources >= 0x8000_0000 {
            return Err(AllocError);
        }
        Ok(NetBuilder {
            sources,
            gates: Vec::new(alloc),
        })
    }

    /// The number after the last node.
    fn end(&self) -> u64 {
        u64::from(self.sources) + 1 + self.gates.len() as u64
    }

    /// Appends a gate and returns its node. Fails as if out of memory at 2^31 nodes.
    pub fn append(&mut self, op: Op, first: u32, second: u32) -> Result<u32, AllocError>
        ensures { OnOk result (self.new.sources ≡ self.old.sources) }
    {
        let end = u64::from(self.sources) + 1 + self.gates.len() as u64;
        if end >= 0x8000_0000 {
            return Err(AllocError);
        }
        let a = below(end, Sig::Node(first));
        let b = below(end, Sig::Node(second));
        self.gates.push(Gate { op, a, b })?;
        Ok(end as u32)
    }

    /// The signals, with the constant 0 for each that isn't in the net.
    fn signals_within(&self, alloc: Global, signals: &[Sig]) -> Result<Vec<Sig>, AllocError>
        ensures { IfOk result (λ sinks. HasSignals self.now signals.now sinks.items) }
    {
        let end = u64::from(self.sources) + 1 + self.gates.len() as u64;
        let mut sinks = Vec::with_capacity(alloc, signals.len())?;
        for signal in signals {
            sinks.push(below(end, *signal))?;
        }
        Ok(sinks)
    }

    /// The net with these sinks.
    pub fn finish(self, alloc: Global, signals: &[Sig]) -> Result<Net, AllocError>
        ensures sources { IfOk result (λ net. net.sources ≡ self.sources) }
        ensures sinks { IfOk result (λ net. length net.sinks ≡ length signals.now) }
    {
        let sinks = self.signals_within(alloc, signals)?;
        let NetBuilder { sources, gates } = self;
        Ok(Net::new(sources, gates, sinks))
    }
}
