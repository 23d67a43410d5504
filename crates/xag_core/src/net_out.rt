//! A graph as a net. Complements go into operators: a gate that only complemented sinks read is complemented
//! itself, and a NOT gate is made only where sinks read a gate both ways, or a source complemented.
ghost use Rattle.std.specs.Prelude.{◌≡◌, OnOk, IfOk, length};

use crate::net_builder::NetBuilder;
use crate::{Substitution, Xag, XagGate, rebuild};
use net_core::{Net, Op, Sig};
use rows::{at, bit_at, put};
use std::alloc::{AllocError, Global};

/// Which nodes become complemented: the gates that some sinks read, all of them complemented.
fn complemented_nodes(alloc: Global, xag: &Xag) -> Result<Vec<bool>, AllocError> {
    let mut complemented = vec![in alloc; false; xag.nodes() as usize]?;
    for sink in xag.sinks() {
        if xag.is_gate(sink >> 1) && sink & 1 == 1 {
            put(&mut complemented, sink >> 1, true);
        }
    }
    for sink in xag.sinks() {
        if sink & 1 == 0 {
            put(&mut complemented, sink >> 1, false);
        }
    }
    Ok(complemented)
}

/// Whether a literal is the complement of the net's signal for its node.
fn is_complemented(complemented: &[bool], literal: u32) -> bool {
    bit_at(complemented, literal >> 1) != (literal & 1 == 1)
}

/// The operator of a gate, by which operands it reads complemented and whether its own value is complemented
/// (`all`).
pub fn operator(gate: XagGate, first: bool, second: bool, all: bool) -> Op {
    if gate.is_xor {
        let is_odd = (first != second) != all;
        return Op::with_values(is_odd, !is_odd, !is_odd, is_odd);
    }
    Op::with_values(
        (first && second) != all,
        (first && !second) != all,
        (!first && second) != all,
        (!first && !second) != all,
    )
}

/// Appends the gates, each with the number of its node.
fn append_gates(net: &mut NetBuilder, xag: &Xag, complemented: &[bool]) -> Result<(), AllocError>
    ensures { OnOk result (net.new.sources ≡ net.old.sources) }
{
    let mut node = xag.sources().wrapping_add(1);
    for gate in xag.gates() {
        let op = operator(
            *gate,
            is_complemented(complemented, gate.first),
            is_complemented(complemented, gate.second),
            bit_at(complemented, node),
        );
        net.append(op, gate.first >> 1, gate.second >> 1)?;
        node = node.wrapping_add(1);
    }
    Ok(())
}

/// The signal of a sink. `opposites` has the nodes of the NOT gates made so far, 0 for none.
fn sink_signal(
    net: &mut NetBuilder,
    complemented: &[bool],
    opposites: &mut [u32],
    literal: u32,
) -> Result<Sig, AllocError>
    ensures { OnOk result (net.new.sources ≡ net.old.sources) }
{
    let node = literal >> 1;
    if node == 0 {
        return Ok(if literal == 0 { Sig::Zero } else { Sig::One });
    }
    if !is_complemented(complemented, literal) {
        return Ok(Sig::Node(node));
    }
    let known = at(opposites, node);
    if known != 0 {
        return Ok(Sig::Node(known));
    }
    let opposite = net.append(Op::new(12), node, node)?;
    put(opposites, node, opposite);
    Ok(Sig::Node(opposite))
}

/// The signals of the sinks.
fn sink_signals(
    alloc: Global,
    net: &mut NetBuilder,
    xag: &Xag,
    complemented: &[bool],
) -> Result<Vec<Sig>, AllocError>
    ensures sources { OnOk result (net.new.sources ≡ net.old.sources) }
    ensures count { IfOk result (λ sinks. length sinks.items ≡ length xag.now.sinks) }
{
    let mut opposites = vec![in alloc; 0u32; xag.nodes() as usize]?;
    let mut signals = Vec::with_capacity(alloc, xag.sinks().len())?;
    for sink in xag.sinks() {
        let signal = sink_signal(net, complemented, &mut opposites, *sink)?;
        signals.push(signal)?;
    }
    Ok(signals)
}

/// The net of a graph, gate by gate.
fn whole_net(alloc: Global, xag: &Xag) -> Result<Net, AllocError>
    ensures sources { IfOk result (λ net. net.sources ≡ xag.now.sources) }
    ensures sinks { IfOk result (λ net. length net.sinks ≡ length xag.now.sinks) }
{
    let complemented = complemented_nodes(alloc, xag)?;
    let mut net = NetBuilder::new(alloc, xag.sources())?;
    append_gates(&mut net, xag, &complemented)?;
    let signals = sink_signals(alloc, &mut net, xag, &complemented)?;
    net.finish(alloc, &signals)
}

/// The net of a graph: its gates in the order of `rebuild`, without dangling ones, and then the NOT gates
/// that sinks need.
pub fn into_net(alloc: Global, xag: &Xag) -> Result<Net, AllocError>
    ensures sources { IfOk result (λ net. net.sources ≡ xag.now.sources) }
    ensures sinks { IfOk result (λ net. length net.sinks ≡ length xag.now.sinks) }
{
    let unchanged = Substitution::new(alloc, xag);
    match rebuild(alloc, xag, &unchanged)? {
        Some(live) => whole_net(alloc, &live),
        None => whole_net(alloc, xag),
    }
}
