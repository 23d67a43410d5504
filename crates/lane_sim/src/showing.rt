//! The patterns of operands that occur under the assignments of one word, or of four words. The set of
//! assignments is split by one operand after the other; a branch without assignments ends.

ghost use Rattle.std.specs.Prelude.{◌≡◌, ℕ, ◌+◌, ◌-◌, ◌*◌, ◌≤◌, ◌<◌, ◌^◌, length, min, slice_get, slice_index_or};
ghost use Rattle.std.specs.Prelude.{All};
ghost use Rattle.std.specs.Prelude.{IfSome, IfNone};
ghost use Rattle.net_theory.specs.declared.data.Gate.{Gate as GateValue};
ghost use Rattle.lane_sim.specs.Cone.{IsSigAmong, nodes, node_of};
ghost use Rattle.lane_sim.specs.Rows.{IsOperandOf};
ghost use Rattle.lane_sim.specs.Seen.{pattern_at, four_of, AreSeen, AreSeenFour, AllEnd, AreOperands};

use crate::cone::Cone;
use crate::rows::{Operand, four_words, word};
use net_theory::{Gate, Sig};

/// The word whose lowest `count` bits are 1.
pub(crate) fn ones(count: u32) -> u64
    requires some { 1 ≤ count }
    requires few { count ≤ 64 }
    ensures { result ≡ 2 ^ count - 1 }
{
    u64::MAX >> (64 - count)
}

/// The mask of the assignments in a word: all 64, or the lowest `rows` if there are fewer.
pub(crate) fn word_mask(rows: u32) -> u64
    requires { 1 ≤ rows }
    ensures { result ≡ 2 ^ min rows 64 - 1 }
{
    ones(rows.min(64))
}

/// The patterns of the operands' words `j` under the assignments of a mask.
pub(crate) fn seen(mask: u64, lanes: &[u64], operands: &[Operand], j: usize) -> u64
    requires few { length operands.now ≤ 6 }
    requires ends { AllEnd (length lanes.now) (j + 1) operands.now }
    ensures { AreSeen (length operands.now) (pattern_at lanes.now operands.now j) mask result }
{
    if mask == 0 {
        return 0;
    }
    let Some((operand, rest)) = operands.split_first() else {
        return 1;
    };
    let bits = word(lanes, *operand, j);
    let high = seen(mask & bits, lanes, rest, j);
    let low = seen(mask & !bits, lanes, rest, j);
    let step = 1u32 << rest.len();
    (high << step) | low
}

/// The patterns of four consecutive words of the operands under the assignments of four masks.
pub(crate) fn seen_four(
    first: u64,
    second: u64,
    third: u64,
    fourth: u64,
    lanes: &[u64],
    operands: &[Operand],
    j: usize,
) -> u64
    requires few { length operands.now ≤ 6 }
    requires ends { AllEnd (length lanes.now) (j + 4) operands.now }
    ensures { AreSeenFour (length operands.now) (pattern_at lanes.now operands.now) j
        (four_of first second third fourth) result }
{
    if first | second | third | fourth == 0 {
        return 0;
    }
    let Some((operand, rest)) = operands.split_first() else {
        return 1;
    };
    let w = four_words(lanes, *operand, j);
    let high = seen_four(
        first & w.first,
        second & w.second,
        third & w.third,
        fourth & w.fourth,
        lanes,
        rest,
        j,
    );
    let low = seen_four(
        first & !w.first,
        second & !w.second,
        third & !w.third,
        fourth & !w.fourth,
        lanes,
        rest,
        j,
    );
    let step = 1u32 << rest.len();
    (high << step) | low
}

/// The index of a node among the leaves.
pub fn leaf_at(leaves: &[u32], node: u32) -> Option<usize>
    ensures some { IfSome result (λ k. slice_get leaves.now k ≡ Some node) }
    ensures none { IfNone result ((k d : ℕ) → k < length leaves.now → slice_index_or leaves.now k d ≡ node → ⊥) }
{
    for i in 0..leaves.len() {
        if leaves[i] == node {
            return Some(i);
        }
    }
    None
}

/// The index of the gate with a node.
pub fn gate_at(gates: &[(u32, Gate)], node: u32) -> Option<usize>
    ensures some { IfSome result (λ k. (k < length gates.now) ×
        ((d : ℕ × GateValue) → node_of (slice_index_or gates.now k d) ≡ node)) }
    ensures none { IfNone result ((k : ℕ) (d : ℕ × GateValue) → k < length gates.now →
        node_of (slice_index_or gates.now k d) ≡ node → ⊥) }
{
    for i in 0..gates.len() {
        if gates[i].0 == node {
            return Some(i);
        }
    }
    None
}

/// The row of a cone's signal.
pub(crate) fn operand_in(cone: &Cone, width: usize, sig: Sig) -> Operand
    requires known { IsSigAmong (nodes cone.now) sig }
    requires room { length (nodes cone.now) * width < 2 ^ 64 }
    ensures { IsOperandOf (nodes cone.now) width sig result }
{
    let node = match sig {
        Sig::Zero => return Operand::Zero,
        Sig::One => return Operand::One,
        Sig::Node(node) => node,
    };
    let leaves = cone.leaves();
    if let Some(k) = leaf_at(leaves, node) {
        return Operand::Row(k * width);
    }
    match gate_at(cone.gates(), node) {
        Some(k) => Operand::Row((leaves.len() + k) * width),
        None => Operand::Zero,
    }
}

/// Writes the operands of signals, in order.
pub(crate) fn fill_operands(operands: &mut [Operand], cone: &Cone, width: usize, signals: &[Sig])
    requires count { length signals.now ≤ length operands.old }
    requires known { All (IsSigAmong (nodes cone.now)) signals.now }
    requires room { length (nodes cone.now) * width < 2 ^ 64 }
    ensures each { AreOperands (nodes cone.now) width signals.now (length signals.now) operands.new }
    ensures count { length operands.new ≡ length operands.old }
{
    for i in 0..signals.len() {
        operands[i] = operand_in(cone, width, signals[i]);
    }
}
