//! Checks whether leaves and gates form a cone. Each node and each operand is searched linearly among the earlier
//! nodes; cones are small enough that a hash table doesn't pay.

ghost use Rattle.std.specs.Prelude.{IsTrue, IsFalse};
ghost use Rattle.net_theory.specs.declared.data.Sig.TheVariants.{Node};
ghost use Rattle.lane_sim.specs.Cone.{IsSigAmong};
ghost use Rattle.lane_sim.specs.Checking.{numbered, MayComeNext, AreDistinctLeaves, AreNext};

use crate::showing::{gate_at, leaf_at};
use net_theory::{Gate, Sig};

/// Whether the node `node` is one of `leaves` or of `gates`.
fn is_numbered(leaves: &[u32], gates: &[(u32, Gate)], node: u32) -> bool
    ensures yes { IsTrue result → IsSigAmong (numbered leaves.now gates.now) (Node node) }
    ensures no { IsFalse result → IsSigAmong (numbered leaves.now gates.now) (Node node) → ⊥ }
{
    match leaf_at(leaves, node) {
        Some(_) => true,
        None => match gate_at(gates, node) {
            Some(_) => true,
            None => false,
        },
    }
}

/// Whether `sig` is a constant or one of `leaves` or `gates`.
pub fn is_known(leaves: &[u32], gates: &[(u32, Gate)], sig: Sig) -> bool
    ensures yes { IsTrue result → IsSigAmong (numbered leaves.now gates.now) sig }
    ensures no { IsFalse result → IsSigAmong (numbered leaves.now gates.now) sig → ⊥ }
{
    match sig {
        Sig::Zero => true,
        Sig::One => true,
        Sig::Node(node) => is_numbered(leaves, gates, node),
    }
}

/// Whether `gate` may follow `leaves` and `gates`: its node is new, and its operands are known.
fn is_next(leaves: &[u32], gates: &[(u32, Gate)], gate: &(u32, Gate)) -> bool
    ensures yes { IsTrue result → MayComeNext (numbered leaves.now gates.now) gate.now }
    ensures no { IsFalse result → MayComeNext (numbered leaves.now gates.now) gate.now → ⊥ }
{
    let (node, gate) = *gate;
    if is_numbered(leaves, gates, node) {
        return false;
    }
    is_known(leaves, gates, gate.a) && is_known(leaves, gates, gate.b)
}

/// Whether each gate may follow the leaves and the gates before it, so that the order is topological.
pub fn are_next(leaves: &[u32], gates: &[(u32, Gate)]) -> bool
    ensures yes { IsTrue result → AreNext leaves.now gates.now }
    ensures no { IsFalse result → AreNext leaves.now gates.now → ⊥ }
{
    for i in 0..gates.len() {
        let (before, _) = gates.split_at(i);
        if !is_next(leaves, before, &gates[i]) {
            return false;
        }
    }
    true
}

/// Whether the leaves are distinct.
pub fn are_new(leaves: &[u32]) -> bool
    ensures yes { IsTrue result → AreDistinctLeaves leaves.now }
    ensures no { IsFalse result → AreDistinctLeaves leaves.now → ⊥ }
{
    for i in 0..leaves.len() {
        let (before, _) = leaves.split_at(i);
        if is_numbered(before, &[], leaves[i]) {
            return false;
        }
    }
    true
}
