//! Whether all operators of a candidate are allowed: of the basis, or operators that the net has already.
ghost use Rattle.std.specs.Prelude.{◌≡◌, ◌⊎◌, true};
ghost use Rattle.op_basis.specs.Basis.{members};
ghost use Rattle.net_theory.specs.Operators.{HasOperator, HasOperatorsWithin};
ghost use Rattle.move_check.specs.Allowed.{AreAllowed};

use net_core::{Gate, Net, Op};
use op_basis::Basis;

/// Whether some gate of the net has the operator.
fn has_operator(net: &Net, op: Op) -> bool
    ensures { result ≡ true → HasOperator net.now op }
{
    // for the prover: brings in the type invariant
    let _gates = net.gates();
    for gate in net.gates() {
        if gate.op == op {
            return true;
        }
    }
    false
}

/// Whether an operator is of the basis or of the net.
fn is_allowed(net: &Net, op: Op, basis: Basis) -> bool
    ensures { result ≡ true → (members basis op ≡ true) ⊎ HasOperator net.now op }
{
    basis.contains(op) || has_operator(net, op)
}

/// Whether each gate's operator is of the basis or of the net.
fn are_allowed(net: &Net, gates: &[Gate], basis: Basis) -> bool
    ensures { result ≡ true → AreAllowed (members basis) net.now gates.now }
{
    let mut left = gates;
    while let Some((gate, rest)) = left.split_first() {
        if !is_allowed(net, gate.op, basis) {
            return false;
        }
        left = rest;
    }
    true
}

/// Whether each operator of the candidate is of the basis or of the net.
#[tactic(auto, using(crate::specs::JudgingLaws::within))]
pub(crate) fn has_operators_within(net: &Net, candidate: &Net, basis: Basis) -> bool
    ensures { result ≡ true → HasOperatorsWithin (members basis) net.now candidate.now }
{
    are_allowed(net, candidate.gates(), basis)
}
