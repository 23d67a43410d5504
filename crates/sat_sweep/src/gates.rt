//! The gates in topological order. First the solver derives the binary clauses of each gate, which the miter
//! lacks: it has four ternary clauses for a gate. Then each gate is compared with earlier nodes.
ghost use Rattle.std.specs.Prelude.{◌≡◌, ◌<◌, ◌^◌, OnOk};
ghost use Rattle.sat_sweep.specs.KeepsFormula.{KeepsFormula};

use crate::nodes::{Edge, NodeGate};
use crate::pairs::compare;
use crate::queries::{Bounds, ask_two};
use crate::state::SweepState;
use progress::Tell;
use sat_solve::{AssumptionResult, Solver};
use std::alloc::AllocError;

/// The conflict limit of the question for a binary clause. These conflicts don't count against the budget.
const BINARY_LIMIT: u32 = 2;

/// The greatest number of candidates that a gate is compared with.
const MOST_CANDIDATES: u32 = 1000;

/// What one step of a sweep found.
#[derive(Clone, Copy, PartialEq, Eq)]
pub(crate) enum SweepEvent {
    /// Nothing that ends the sweep.
    Nothing,
    /// The miter is refuted.
    Refuted,
    /// The budget is spent.
    Spent,
    /// An assignment under which a sink differs.
    Counterexample,
}

/// The value of a gate that is forced by the value `bit` of one operand, if it is. The operand is the second one
/// if `second` holds.
fn forced(node: NodeGate, second: bool, bit: bool) -> Option<bool> {
    let (one, other) = if second {
        (node.op.apply(false, bit), node.op.apply(true, bit))
    } else {
        (node.op.apply(bit, false), node.op.apply(bit, true))
    };
    if one == other { Some(one) } else { None }
}

/// Has the solver derive the binary clause of a gate and one operand, if the operand's value `bit` forces the
/// gate.
fn derive_one<S: Solver>(
    solver: &mut S,
    bounds: Bounds,
    sweeping: &SweepState,
    variable: u32,
    node: NodeGate,
    second: bool,
    bit: bool,
) -> Result<SweepEvent, AllocError>
    requires vars { S.vars_of solver.old ≡ bounds.vars }
    requires small { bounds.vars < 2 ^ 31 }
    ensures { OnOk result (KeepsFormula S.IsSolverOf S.vars_of S.additions_of bounds.most solver.old solver.new) }
{
    let Some(value) = forced(node, second, bit) else {
        return Ok(SweepEvent::Nothing);
    };
    let gate = Edge {
        variable,
        complemented: value,
    };
    let operand = Edge {
        variable: if second { node.b } else { node.a },
        complemented: !bit,
    };
    match ask_two(
        solver,
        bounds,
        sweeping.cones.rows(),
        gate,
        operand,
        BINARY_LIMIT,
    )? {
        AssumptionResult::Refuted => Ok(SweepEvent::Refuted),
        _ => Ok(SweepEvent::Nothing),
    }
}

/// Whether the operands of a gate are two different nodes, neither of them constant.
fn is_on_two(node: &NodeGate) -> bool {
    node.a != node.b && node.a != 0 && node.b != 0
}

/// Has the solver derive the binary clauses of a gate in the cone of an open sink, if its operands are two
/// different nodes, neither of them constant.
fn derive_binary<S: Solver>(
    solver: &mut S,
    bounds: Bounds,
    sweeping: &SweepState,
    variable: u32,
) -> Result<SweepEvent, AllocError>
    requires vars { S.vars_of solver.old ≡ bounds.vars }
    requires small { bounds.vars < 2 ^ 31 }
    ensures { OnOk result (KeepsFormula S.IsSolverOf S.vars_of S.additions_of bounds.most solver.old solver.new) }
{
    if !sweeping.is_needed(variable) {
        return Ok(SweepEvent::Nothing);
    }
    let Some(node) = sweeping.nodes.gate(variable) else {
        return Ok(SweepEvent::Nothing);
    };
    if !is_on_two(&node) {
        return Ok(SweepEvent::Nothing);
    }
    for (second, bit) in [(false, false), (false, true), (true, false), (true, true)] {
        let event = derive_one(solver, bounds, sweeping, variable, node, second, bit)?;
        if event != SweepEvent::Nothing {
            return Ok(event);
        }
    }
    Ok(SweepEvent::Nothing)
}

/// Has the solver derive the binary clauses of all gates in the cones of open sinks.
pub(crate) fn derive_binary_clauses<S: Solver>(
    solver: &mut S,
    bounds: Bounds,
    sweeping: &SweepState,
) -> Result<SweepEvent, AllocError>
    requires vars { S.vars_of solver.old ≡ bounds.vars }
    requires small { bounds.vars < 2 ^ 31 }
    ensures { OnOk result (KeepsFormula S.IsSolverOf S.vars_of S.additions_of bounds.most solver.old solver.new) }
{
    for variable in sweeping.nodes.first_gate()..sweeping.nodes.end() {
        let event = derive_binary(solver, bounds, sweeping, variable)?;
        if event != SweepEvent::Nothing {
            return Ok(event);
        }
    }
    Ok(SweepEvent::Nothing)
}

/// Compares a gate with its candidates in turn: first with the gate that it is structurally equal to, if there is
/// one, then with those of its class.
fn compare_candidates<S: Solver, T: Tell>(
    solver: &mut S,
    bounds: Bounds,
    sweeping: &mut SweepState,
    x: u32,
    strash_equal: Option<u32>,
    limit: u32,
    tell: &T,
) -> Result<SweepEvent, AllocError>
    requires vars { S.vars_of solver.old ≡ bounds.vars }
    requires small { bounds.vars < 2 ^ 31 }
    ensures { OnOk result (KeepsFormula S.IsSolverOf S.vars_of S.additions_of bounds.most solver.old solver.new) }
{
    let mut candidate = strash_equal;
    for turn in 0..MOST_CANDIDATES {
        let is_strash_equal = turn == 0 && candidate.is_some();
        if !is_strash_equal {
            candidate = sweeping.candidate(x);
        }
        let Some(y) = candidate else {
            return Ok(SweepEvent::Nothing);
        };
        let (event, again) = compare(solver, bounds, sweeping, x, y, is_strash_equal, limit, tell)?;
        if !again {
            return Ok(event);
        }
    }
    Ok(SweepEvent::Nothing)
}

/// Visits a gate: it is merged, or listed as a candidate for later gates.
fn visit<S: Solver, T: Tell>(
    solver: &mut S,
    bounds: Bounds,
    sweeping: &mut SweepState,
    x: u32,
    limit: u32,
    tell: &T,
) -> Result<SweepEvent, AllocError>
    requires vars { S.vars_of solver.old ≡ bounds.vars }
    requires small { bounds.vars < 2 ^ 31 }
    ensures { OnOk result (KeepsFormula S.IsSolverOf S.vars_of S.additions_of bounds.most solver.old solver.new) }
{
    if sweeping.is_merged(x) {
        sweeping.follow(x);
        return Ok(SweepEvent::Nothing);
    }
    if !sweeping.is_needed(x) {
        sweeping.list(x);
        return Ok(SweepEvent::Nothing);
    }
    let strash_equal = sweeping.strash_equal(x)?;
    let event = compare_candidates(solver, bounds, sweeping, x, strash_equal, limit, tell)?;
    sweeping.list(x);
    Ok(event)
}

/// Visits all gates in topological order.
pub(crate) fn visit_gates<S: Solver, T: Tell>(
    solver: &mut S,
    bounds: Bounds,
    sweeping: &mut SweepState,
    limit: u32,
    tell: &T,
) -> Result<SweepEvent, AllocError>
    requires vars { S.vars_of solver.old ≡ bounds.vars }
    requires small { bounds.vars < 2 ^ 31 }
    ensures { OnOk result (KeepsFormula S.IsSolverOf S.vars_of S.additions_of bounds.most solver.old solver.new) }
{
    for x in sweeping.nodes.first_gate()..sweeping.nodes.end() {
        if sweeping.is_spent() {
            return Ok(SweepEvent::Spent);
        }
        let event = visit(solver, bounds, sweeping, x, limit, tell)?;
        if event != SweepEvent::Nothing {
            return Ok(event);
        }
    }
    Ok(SweepEvent::Nothing)
}
