//! The simulation of a cone: a row for each leaf, then a row for each gate, computed from the earlier rows of its
//! operands.

ghost use Rattle.std.specs.Prelude.{◌≡◌, ℕ, ◌+◌, ◌*◌, ◌≤◌, ◌<◌, ◌^◌, List, [], ◌++◌, length, IfOk, OnOk, vec_len};
ghost use Rattle.lane_sim.specs.declared.rows.Operand.TheVariants as operands;
ghost use Rattle.lane_sim.specs.Combining.{EndsBefore};
ghost use Rattle.lane_sim.specs.Cone.{IsSigAmong, IsGateOver};
ghost use Rattle.lane_sim.specs.Rows.{IsOperandOf, IsCombinedPut, IsGatePut, AreLeaves, AreGatesOf};
ghost use Rattle.lane_sim.specs.Words.{AreWords, width_of};

use crate::cone::Cone;
use crate::leaves::simulate_leaves;
use crate::rows::{Operand, write_gate};
use crate::words::{Words, width_of};
use indexmap::IndexSet;
use net_theory::{Gate, Sig};
use op_basis::{Op, masks_for};
use std::alloc::{AllocError, Global};

/// The initial capacity of the index, in signals; few cones have more.
const ROOM: usize = 32;

/// The row after `k` others.
fn row_after(k: usize, width: usize) -> Operand
    ensures { k * width < 2 ^ 64 → result ≡ operands.Row (k * width) }
{
    Operand::Row(k.saturating_mul(width))
}

/// The row of a signal, found by the index of nodes. The index may have further nodes.
pub(crate) fn operand(nodes: &IndexSet<u32>, width: usize, sig: Sig) -> Operand
    ensures { (ps more : List ℕ) → nodes.now.keys ≡ ps ++ more → length ps * width < 2 ^ 64 → IsSigAmong ps sig →
        IsOperandOf ps width sig result }
{
    match sig {
        Sig::Zero => Operand::Zero,
        Sig::One => Operand::One,
        Sig::Node(node) => match nodes.get_index_of(&node) {
            Some(k) => row_after(k, width),
            None => Operand::Zero,
        },
    }
}

/// Appends the row of an operator applied to two operands.
pub(crate) fn push_row(
    lanes: &mut Vec<u64>,
    width: usize,
    op: Op,
    a: Operand,
    b: Operand,
) -> Result<(), AllocError>
    requires width { width ≤ 64 }
    requires first { EndsBefore (length lanes.old.items) width a }
    requires second { EndsBefore (length lanes.old.items) width b }
    ensures { OnOk result (IsCombinedPut op a b width lanes.old.items lanes.new.items) }
{
    let start = lanes.len();
    lanes.resize(start + width, 0)?;
    write_gate(lanes, masks_for(op), a, b, start, width);
    Ok(())
}

/// Appends the row of a gate.
fn push_gate(
    lanes: &mut Vec<u64>,
    nodes: &IndexSet<u32>,
    width: usize,
    gate: Gate,
) -> Result<(), AllocError>
    requires width { width ≤ 64 }
    requires size { vec_len lanes.old ≡ length nodes.now.keys * width }
    requires known { IsGateOver nodes.now.keys gate }
    ensures { OnOk result (IsGatePut nodes.now.keys gate width lanes.old.items lanes.new.items) }
{
    let a = operand(nodes, width, gate.a);
    let b = operand(nodes, width, gate.b);
    push_row(lanes, width, gate.op, a, b)?;
    Ok(())
}

/// Appends the rows of all gates after those of the leaves.
fn simulate_gates(
    lanes: &mut Vec<u64>,
    nodes: &mut IndexSet<u32>,
    width: usize,
    cone: &Cone,
) -> Result<(), AllocError>
    requires width { width ≤ 64 }
    requires leaves { AreLeaves cone.now width nodes.old.keys lanes.old.items [] }
    ensures { OnOk result (AreGatesOf cone.now width (64 * width) nodes.new.keys lanes.new.items []) }
{
    let mut left = cone.gates();
    while let Some((first, rest)) = left.split_first() {
        push_gate(lanes, nodes, width, first.1)?;
        nodes.insert(first.0)?;
        left = rest;
    }
    Ok(())
}

/// Simulates a cone: the words of the leaves, then of the gates, in order. Bit `b` of word `j` of a signal is its
/// value under the assignment `64 * j + b`; the most significant bit of an assignment's number is the first
/// leaf's value.
pub fn cone_words(alloc: Global, cone: &Cone) -> Result<Words, AllocError>
    ensures { IfOk result (λ words. AreWords cone.now words) }
{
    let rows = 1u32 << cone.leaves().len();
    let width = width_of(rows);
    let mut lanes = Vec::with_capacity(alloc, width.saturating_mul(ROOM))?;
    let mut nodes = IndexSet::with_capacity(alloc, ROOM)?;
    simulate_leaves(&mut lanes, &mut nodes, width, cone)?;
    simulate_gates(&mut lanes, &mut nodes, width, cone)?;
    Ok(Words { lanes, rows })
}
