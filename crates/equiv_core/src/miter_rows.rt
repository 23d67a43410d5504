//! The clauses of the miter (Tseitin encoding), gate by gate and sink by sink.
ghost use Rattle.std.specs.Prelude.{◌≡◌, ◌+◌, ◌≤◌, ◌<◌, ◌^◌, ◌-◌, [], ◌∷◌, length, All, OnOk, IfOk};
ghost use Rattle.clause_core.specs.declared.raw.RawLit.TheVariants.{Var};
ghost use Rattle.net_theory.specs.Net.{IsGateAt, IsSigBelow};
ghost use Rattle.net_core.specs.Marks.{AreAt};
ghost use Rattle.equiv_theory.specs.Miter.{gate_row, gate_rows, gates_rows, sink_row, sink_rows, sinks_rows};
ghost use Rattle.equiv_theory.specs.Miter.{some_row as some_row_of};
ghost use Rattle.equiv_core.specs.Rows.{numbered, HasRoom, IsAdded};

use crate::numbering::NetNumbering;
use clause_core::{ClauseList, RawLit};
use net_core::{Gate, Sig};
use std::alloc::{AllocError, Global};

/// Adds the clause of the gate at node `node` for the operand values `a` and `b`: the gate has its operator's
/// value.
#[tactic(auto, using(crate::specs::RowLaws::gate_within, crate::specs::RowLaws::added_one), // for the prover
unfolding(equiv_theory::specs::Miter::gate_row))]
fn push_gate_row(
    alloc: Global,
    list: &mut ClauseList,
    numbering: NetNumbering,
    node: u32,
    gate: &Gate,
    a: bool,
    b: bool,
) -> Result<(), AllocError>
    requires room { HasRoom numbering list.old.vars }
    requires node { (1 ≤ node) × (node < numbering.end) }
    requires gate { IsGateAt node gate.now }
    ensures { OnOk result (IsAdded list.old list.new (gate_row (numbered numbering) node gate.now a b ∷ [])) }
{
    let first = numbering.signal_is(gate.a, !a);
    let second = numbering.signal_is(gate.b, !b);
    let value = RawLit::Var(numbering.variable(node), gate.op.apply(a, b));
    list.push(alloc, &[first, second, value])
}

/// Adds the four clauses of the gate at node `node`, one for each pair of operand values.
#[tactic(auto, using(crate::specs::RowLaws::gate_added))]
fn push_gate(
    alloc: Global,
    list: &mut ClauseList,
    numbering: NetNumbering,
    node: u32,
    gate: &Gate,
) -> Result<(), AllocError>
    requires room { HasRoom numbering list.old.vars }
    requires node { (1 ≤ node) × (node < numbering.end) }
    requires gate { IsGateAt node gate.now }
    ensures { OnOk result (IsAdded list.old list.new (gate_rows (numbered numbering) node gate.now)) }
{
    push_gate_row(alloc, list, numbering, node, gate, false, false)?;
    push_gate_row(alloc, list, numbering, node, gate, false, true)?;
    push_gate_row(alloc, list, numbering, node, gate, true, false)?;
    push_gate_row(alloc, list, numbering, node, gate, true, true)
}

/// Adds the clauses of `gates`, the first of which is the node `first`.
pub(crate) fn push_gates(
    alloc: Global,
    list: &mut ClauseList,
    numbering: NetNumbering,
    first: u32,
    gates: &[Gate],
) -> Result<(), AllocError>
    requires room { HasRoom numbering list.old.vars }
    requires node { (1 ≤ first) × (first + length gates.now ≤ numbering.end) }
    requires gates { AreAt first gates.now }
    ensures { OnOk result (IsAdded list.old list.new (gates_rows (numbered numbering) first gates.now)) }
{
    let mut node = first;
    let mut left = gates;
    while let Some((gate, rest)) = left.split_first() {
        push_gate(alloc, list, numbering, node, gate)?;
        node += 1;
        left = rest;
    }
    Ok(())
}

/// Adds the clause that `signals` don't both have the value `!bit` if the sink's variable `difference` is true.
#[tactic(auto, using(crate::specs::RowLaws::added_one), unfolding(equiv_theory::specs::Miter::sink_row))]
fn push_sink_row(
    alloc: Global,
    list: &mut ClauseList,
    numberings: (NetNumbering, NetNumbering),
    difference: u32,
    signals: (Sig, Sig),
    bit: bool,
) -> Result<(), AllocError>
    requires first { HasRoom numberings.0 list.old.vars }
    requires second { HasRoom numberings.1 list.old.vars }
    requires difference { (1 ≤ difference) × (difference ≤ list.old.vars) }
    requires signal { IsSigBelow numberings.0.end signals.0 }
    requires other { IsSigBelow numberings.1.end signals.1 }
    ensures { OnOk result (IsAdded list.old list.new
        (sink_row (numbered numberings.0) (numbered numberings.1) difference signals.0 signals.1 bit ∷ [])) }
{
    let differs = RawLit::Var(difference, false);
    let first = numberings.0.signal_is(signals.0, bit);
    let second = numberings.1.signal_is(signals.1, bit);
    list.push(alloc, &[differs, first, second])
}

/// Adds the two clauses that `signals` differ if the sink's variable `difference` is true.
#[tactic(auto, using(crate::specs::RowLaws::sink_added))]
fn push_sink(
    alloc: Global,
    list: &mut ClauseList,
    numberings: (NetNumbering, NetNumbering),
    difference: u32,
    signals: (Sig, Sig),
) -> Result<(), AllocError>
    requires first { HasRoom numberings.0 list.old.vars }
    requires second { HasRoom numberings.1 list.old.vars }
    requires difference { (1 ≤ difference) × (difference ≤ list.old.vars) }
    requires signal { IsSigBelow numberings.0.end signals.0 }
    requires other { IsSigBelow numberings.1.end signals.1 }
    ensures { OnOk result (IsAdded list.old list.new
        (sink_rows (numbered numberings.0) (numbered numberings.1) difference signals.0 signals.1)) }
{
    push_sink_row(alloc, list, numberings, difference, signals, false)?;
    push_sink_row(alloc, list, numberings, difference, signals, true)
}

/// Adds the clauses of the sinks. The variable of the first one is `first`.
pub(crate) fn push_sinks(
    alloc: Global,
    list: &mut ClauseList,
    numberings: (NetNumbering, NetNumbering),
    first: u32,
    sinks: &[Sig],
    others: &[Sig],
) -> Result<(), AllocError>
    requires first { HasRoom numberings.0 list.old.vars }
    requires second { HasRoom numberings.1 list.old.vars }
    requires difference { (1 ≤ first) × (first + length sinks.now ≤ list.old.vars + 1) }
    requires signals { All (IsSigBelow numberings.0.end) sinks.now }
    requires others { All (IsSigBelow numberings.1.end) others.now }
    ensures { OnOk result (IsAdded list.old list.new
        (sinks_rows (numbered numberings.0) (numbered numberings.1) first sinks.now others.now)) }
{
    let mut difference = first;
    let mut left = sinks;
    let mut right = others;
    while let Some((signal, signals)) = left.split_first() {
        let Some((other, after)) = right.split_first() else {
            return Ok(());
        };
        push_sink(alloc, list, numberings, difference, (*signal, *other))?;
        difference += 1;
        left = signals;
        right = after;
    }
    Ok(())
}

/// The clause that some sink differs: the disjunction of the `count` variables from `difference` on.
#[tactic(auto, using(clause_core::specs::RangeLaws::loops), unfolding(equiv_theory::specs::Miter::some_row))]
pub(crate) fn some_row(
    alloc: Global,
    difference: u32,
    count: u32,
) -> Result<Vec<RawLit>, AllocError>
    requires { difference + count < 2 ^ 32 }
    ensures { IfOk result (λ row. row.items ≡ some_row_of difference count) }
{
    let mut row = Vec::new(alloc);
    for variable in difference..difference + count {
        row.push(RawLit::Var(variable, true))?;
    }
    Ok(row)
}
