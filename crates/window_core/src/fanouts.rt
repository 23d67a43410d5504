//! The index of a net, made in three loops over its gates: the reference count of each node, and linked
//! fanout lists, in which each gate has, for both of its fanins, their next lower and their next higher
//! fanout. It serves all windows of the net.

ghost use Rattle.std.specs.Prelude.{◌≡◌, ℕ, ◌+◌, ◌<◌, min, List, [], length, slice_index_or, All, IfOk, OnOk};
ghost use Rattle.net_theory.specs.declared.data.Gate.{Gate as GateValue};
ghost use Rattle.net_theory.specs.Net.{end_of};
ghost use Rattle.window_theory.specs.Paths.{IsGate};
ghost use Rattle.window_core.specs.Gates.{IsGateOf};
ghost use Rattle.window_core.specs.Fanouts.{named_by, named_by_gate, named_by_sinks, sum_gates, uses_of};
ghost use Rattle.window_core.specs.Fanouts.{node_of as node_named, AreFanouts, AreEarlier, IsEarlierOf, AreLater};
ghost use Rattle.window_core.specs.Fanouts.{IsLater, IsLaterOf};
ghost use Rattle.window_core.specs.Noting.{IsOperandBelow, AreBefore, AreGrown, IsNotedFanout, HasNoted, HasFirst};

use net_core::{Gate, Net, Sig};
use std::alloc::{AllocError, Global};
use std::marker::Model;

/// The nearest fanouts of a gate's first and second operand, the greatest below the gate or the least above
/// it; 0 where there is none.
#[derive(Clone, Copy)]
pub struct Nearest {
    pub first: u32,
    pub second: u32,
}

/// The index of a net: the reference count of each node, 255 for 255 or more; for each gate the earlier and
/// the later fanouts of its operands, the later ones from the last gate on; and the first fanout of each
/// node.
#[derive(Drop)]
pub struct Fanouts {
    uses: Vec<u8>,
    earlier: Vec<Nearest>,
    later: Vec<Nearest>,
    first: Vec<u32>,
}

impl Model for Fanouts {
    ghost use Rattle.window_core.specs.Fanouts as fanouts;

    ghost Value = { fanouts.Fanouts };

    ghost view = { λ r. record {
      uses = r.uses.items;
      earlier = r.earlier.items;
      later = r.later.items;
      first = r.first.items;
    } };
}

/// Counts a reference by a signal.
fn count_use(uses: &mut [u8], sig: Sig)
    requires { IsOperandBelow (length uses.old) sig }
    ensures { AreGrown (λ p. named_by p sig) uses.old uses.new }
{
    if let Sig::Node(node) = sig {
        uses[node as usize] = uses[node as usize].saturating_add(1);
    }
}

/// Counts the references by gates.
fn count_gates(uses: &mut [u8], gates: &[Gate])
    requires { AreBefore (length uses.old) gates.now }
    ensures { AreGrown (λ p. sum_gates (λ q g. named_by_gate p g) 0 gates.now) uses.old uses.new }
{
    let mut left = gates;
    while let Some((gate, rest)) = left.split_first() {
        count_use(uses, gate.a);
        count_use(uses, gate.b);
        left = rest;
    }
}

/// Counts the references by sinks.
fn count_sinks(uses: &mut [u8], sinks: &[Sig])
    requires { All (IsOperandBelow (length uses.old)) sinks.now }
    ensures { AreGrown (λ p. named_by_sinks p sinks.now) uses.old uses.new }
{
    let mut left = sinks;
    while let Some((sink, rest)) = left.split_first() {
        count_use(uses, *sink);
        left = rest;
    }
}

/// The node that a signal names; 0 for a constant.
pub fn node_of(sig: Sig) -> u32
    ensures { result ≡ node_named sig }
{
    match sig {
        Sig::Node(node) => node,
        _ => 0,
    }
}

/// Sets a gate as the last fanout of the node that a signal names.
fn note(last: &mut [u32], sig: Sig, node: u32)
    requires { IsOperandBelow (length last.old) sig }
    ensures { IsNotedFanout sig node last.old last.new }
{
    if let Sig::Node(read) = sig {
        last[read as usize] = node;
    }
}

/// The last fanouts so far of a gate's operands; then the gate becomes their last fanout. Both are read
/// first, since both operands of a gate may be one node.
fn note_gate(last: &mut [u32], node: u32, gate: &Gate) -> Nearest
    requires some { 0 < length last.old }
    requires first { IsOperandBelow (length last.old) gate.now.a }
    requires second { IsOperandBelow (length last.old) gate.now.b }
    ensures first { result.first ≡ slice_index_or last.old (node_named gate.now.a) 0 }
    ensures second { result.second ≡ slice_index_or last.old (node_named gate.now.b) 0 }
    ensures noted { (mid : List ℕ) × IsNotedFanout gate.now.a node last.old mid ×
        IsNotedFanout gate.now.b node mid last.new }
{
    let first = last[node_of(gate.a) as usize];
    let second = last[node_of(gate.b) as usize];
    note(last, gate.a, node);
    note(last, gate.b, node);
    Nearest { first, second }
}

/// The earlier fanouts of the gates' operands; `last` is the table of last fanouts, empty at first.
fn note_gates(last: &mut [u32], earlier: &mut Vec<Nearest>, net: &Net) -> Result<(), AllocError>
    requires noted { HasNoted net.now 0 last.old }
    requires none { earlier.old.items ≡ [] }
    ensures { OnOk result (AreEarlier net.now earlier.new.items) }
{
    let gates = net.gates();
    let first = net.sources() + 1;
    for i in 0..gates.len() {
        let pair = note_gate(last, first + i as u32, &gates[i]);
        earlier.push(pair)?;
    }
    Ok(())
}

/// The later fanouts of the gates' operands, from the last gate on; `first` is the table of first fanouts,
/// empty at first.
fn note_later(first: &mut [u32], later: &mut Vec<Nearest>, net: &Net) -> Result<(), AllocError>
    requires noted { HasFirst net.now (length net.now.gates) first.old }
    requires none { later.old.items ≡ [] }
    ensures later { OnOk result (AreLater net.now later.new.items) }
    ensures first { OnOk result (HasFirst net.now 0 first.new) }
{
    let gates = net.gates();
    let start = net.sources() + 1;
    for taken in 0..gates.len() {
        let i = gates.len() - (taken + 1);
        let pair = note_gate(first, start + i as u32, &gates[i]);
        later.push(pair)?;
    }
    Ok(())
}

/// Counts all references of a net.
fn count_all(uses: &mut [u8], net: &Net)
    requires { length uses.old ≡ end_of net.now }
    ensures { AreGrown (uses_of net.now) uses.old uses.new }
{
    count_gates(uses, net.gates());
    count_sinks(uses, net.sinks());
}

/// The reference count of each node.
fn all_uses(alloc: Global, net: &Net) -> Result<Vec<u8>, AllocError>
    ensures size { IfOk result (λ uses. length uses.items ≡ end_of net.now) }
    ensures each { IfOk result (λ uses. (p : ℕ) → p < end_of net.now →
        slice_index_or uses.items p 0 ≡ min (uses_of net.now p) 255) }
{
    let mut uses = vec![in alloc; 0u8; net.sources() as usize + 1 + net.gates().len()]?;
    count_all(&mut uses, net);
    Ok(uses)
}

/// The index of a net.
pub fn fanouts_of(alloc: Global, net: &Net) -> Result<Fanouts, AllocError>
    ensures { IfOk result (λ fanouts. AreFanouts net.now fanouts) }
{
    let uses = all_uses(alloc, net)?;
    let gates = net.gates().len();
    let mut last = vec![in alloc; 0u32; net.sources() as usize + 1 + gates]?;
    let mut earlier = Vec::with_capacity(alloc, gates)?;
    note_gates(&mut last, &mut earlier, net)?;
    let mut first = vec![in alloc; 0u32; net.sources() as usize + 1 + gates]?;
    let mut later = Vec::with_capacity(alloc, gates)?;
    note_later(&mut first, &mut later, net)?;
    Ok(Fanouts {
        uses,
        earlier,
        later,
        first,
    })
}

/// The earlier fanouts of a gate's operands.
pub fn earlier_of(net: &Net, fanouts: &Fanouts, node: u32) -> Nearest
    requires index { AreFanouts net.now fanouts.now }
    requires gate { IsGate net.now node }
    ensures { (g : GateValue) → IsGateOf net.now node g → IsEarlierOf net.now node g result }
{
    fanouts.earlier[(node - net.sources() - 1) as usize]
}

/// The reference count of a node; 255 for 255 or more.
pub fn uses_at(fanouts: &Fanouts, net: &Net, node: u32) -> u8
    requires index { AreFanouts net.now fanouts.now }
    requires node { node < end_of net.now }
    ensures { result ≡ min (uses_of net.now node) 255 }
{
    fanouts.uses[node as usize]
}

/// The later fanouts of a gate's operands.
pub fn later_of(net: &Net, fanouts: &Fanouts, node: u32) -> Nearest
    requires index { AreFanouts net.now fanouts.now }
    requires gate { IsGate net.now node }
    ensures { (g : GateValue) → IsGateOf net.now node g → IsLaterOf net.now node g result }
{
    let gates = net.gates();
    fanouts.later[net.sources() as usize + gates.len() - node as usize]
}

/// The first fanout of a node; 0 where there is none.
pub fn first_fanout(fanouts: &Fanouts, net: &Net, node: u32) -> u32
    requires index { AreFanouts net.now fanouts.now }
    requires node { node < end_of net.now }
    ensures { IsLater net.now (net.now.sources + 1) node result }
{
    fanouts.first[node as usize]
}
