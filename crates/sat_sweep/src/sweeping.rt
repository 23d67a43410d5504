//! A sweep: a round over structurally equal gates, the binary clauses of the gates, and then rounds over the gates
//! and sinks that are still needed, each with ten times the conflict limit of the round before.
ghost use Rattle.std.specs.Prelude.{◌≡◌, ℕ, ◌+◌, ◌<◌, ◌≤◌, ◌^◌, length, max, OnOk};
ghost use Rattle.sat_theory.specs.Formula.{Formula};
ghost use Rattle.sat_sweep.specs.KeepsFormula.{KeepsFormula, most_after};

use crate::gates::{SweepEvent, derive_binary_clauses, visit_gates};
use crate::queries::Bounds;
use crate::sinks::visit_sinks;
use crate::state::SweepState;
use crate::structural::structural_round;
use net_core::Net;
use progress::Tell;
use sat_solve::Solver;
use std::alloc::{AllocError, Global};

/// The conflict limit of a question, round by round.
const LIMITS: [u32; 4] = [20, 200, 2_000, 20_000];

/// The result of a sweep over two nets.
#[derive(Drop)]
pub enum Swept {
    /// A sink may differ under these values of the sources, source 1 first. The caller has to check that.
    Differ(Vec<bool>),
    /// No counterexample was found. `spent` is the sum of the conflict limits of the queries that were
    /// given up, which count against the budget.
    Swept { spent: u32 },
}

/// One round over the gates and the sinks.
fn round<S: Solver, T: Tell>(
    solver: &mut S,
    bounds: Bounds,
    sweeping: &mut SweepState,
    limit: u32,
    tell: &T,
) -> Result<SweepEvent, AllocError>
    requires vars { S.vars_of solver.old ≡ bounds.vars }
    requires small { bounds.vars < 2 ^ 31 }
    ensures { OnOk result (KeepsFormula S.IsSolverOf S.vars_of S.additions_of bounds.most solver.old solver.new) }
{
    let event = visit_gates(solver, bounds, sweeping, limit, tell)?;
    if event != SweepEvent::Nothing {
        return Ok(event);
    }
    visit_sinks(solver, bounds, sweeping, false, limit)
}

/// Rounds, as long as a sink is open.
fn rounds<S: Solver, T: Tell>(
    solver: &mut S,
    bounds: Bounds,
    sweeping: &mut SweepState,
    tell: &T,
) -> Result<SweepEvent, AllocError>
    requires vars { S.vars_of solver.old ≡ bounds.vars }
    requires small { bounds.vars < 2 ^ 31 }
    ensures { OnOk result (KeepsFormula S.IsSolverOf S.vars_of S.additions_of bounds.most solver.old solver.new) }
{
    for limit in LIMITS {
        let event = round(solver, bounds, sweeping, limit, tell)?;
        if event != SweepEvent::Nothing {
            return Ok(event);
        }
        if !sweeping.has_open() {
            return Ok(SweepEvent::Nothing);
        }
        sweeping.begin_round();
    }
    Ok(SweepEvent::Nothing)
}

/// Derives the binary clauses of the gates that are still needed, and then goes through the rounds.
fn sweep_remaining<S: Solver, T: Tell>(
    solver: &mut S,
    bounds: Bounds,
    sweeping: &mut SweepState,
    tell: &T,
) -> Result<SweepEvent, AllocError>
    requires vars { S.vars_of solver.old ≡ bounds.vars }
    requires small { bounds.vars < 2 ^ 31 }
    ensures { OnOk result (KeepsFormula S.IsSolverOf S.vars_of S.additions_of bounds.most solver.old solver.new) }
{
    sweeping.begin_round();
    let event = derive_binary_clauses(solver, bounds, sweeping)?;
    if event != SweepEvent::Nothing {
        return Ok(event);
    }
    rounds(solver, bounds, sweeping, tell)
}

/// Merges structurally equal gates, and goes on if a sink is still open.
fn sweep_all<S: Solver, T: Tell>(
    solver: &mut S,
    bounds: Bounds,
    sweeping: &mut SweepState,
    tell: &T,
) -> Result<SweepEvent, AllocError>
    requires vars { S.vars_of solver.old ≡ bounds.vars }
    requires small { bounds.vars < 2 ^ 31 }
    ensures { OnOk result (KeepsFormula S.IsSolverOf S.vars_of S.additions_of bounds.most solver.old solver.new) }
{
    sweeping.begin_round();
    let event = structural_round(solver, bounds, sweeping, tell)?;
    if event != SweepEvent::Nothing || !sweeping.has_open() {
        return Ok(event);
    }
    sweep_remaining(solver, bounds, sweeping, tell)
}

/// Sweeps two nets with equally many sources and equally many sinks: finds signals that are equal or
/// complementary, and has `solver`, a solver of the nets' miter, derive that. It stops when the conflict limits of
/// the queries that were given up add up to `budget`, and asks nothing more once the solver's log has `most`
/// additions. Whatever it finds, the solver stays a solver of its formula. `tell` hears of each gate that is compared.
pub fn sweep<S: Solver, T: Tell>(
    alloc: Global,
    first: &Net,
    second: &Net,
    solver: &mut S,
    budget: u32,
    most: u32,
    tell: &T,
) -> Result<Swept, AllocError>
    requires vars { S.vars_of solver.old ≡ first.now.sources + length first.now.gates + length second.now.gates +
        length first.now.sinks }
    requires small { S.vars_of solver.old < 2 ^ 31 }
    ensures kept { (f : Formula) (least : ℕ) → S.IsSolverOf f least solver.old →
        OnOk result (S.IsSolverOf f least solver.new) }
    ensures vars { OnOk result (S.vars_of solver.new ≡ S.vars_of solver.old) }
    ensures few { OnOk result (S.additions_of solver.new ≤
        max (S.additions_of solver.old) (most_after most (S.vars_of solver.old))) }
{
    let gates = first.gates().len() as u32 + second.gates().len() as u32;
    let vars = first.sources() + gates + first.sinks().len() as u32;
    let bounds = Bounds { vars, most };
    let mut sweeping = SweepState::new(alloc, first, second, budget)?;
    let event = if sweeping.patterns.is_different(&sweeping.nodes) {
        SweepEvent::Counterexample
    } else {
        sweep_all(solver, bounds, &mut sweeping, tell)?
    };
    let spent = sweeping.spent();
    if event != SweepEvent::Counterexample {
        return Ok(Swept::Swept { spent });
    }
    match sweeping.patterns.difference(alloc, &sweeping.nodes)? {
        Some(bits) => Ok(Swept::Differ(bits)),
        None => Ok(Swept::Swept { spent }),
    }
}
