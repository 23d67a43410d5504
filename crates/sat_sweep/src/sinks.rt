//! The sinks in order: for each open one the solver is asked whether the nets can differ in it.
ghost use Rattle.std.specs.Prelude.{◌≡◌, ◌<◌, ◌^◌, OnOk};
ghost use Rattle.sat_sweep.specs.KeepsFormula.{KeepsFormula};

use crate::gates::SweepEvent;
use crate::queries::{Bounds, ask_one};
use crate::state::SweepState;
use sat_solve::{AssumptionResult, Solver};
use std::alloc::AllocError;

/// Asks whether the nets can differ in a sink, whose difference is the variable `difference`.
fn visit_sink<S: Solver>(
    solver: &mut S,
    bounds: Bounds,
    sweeping: &mut SweepState,
    sink: usize,
    difference: u32,
    limit: u32,
) -> Result<SweepEvent, AllocError>
    requires vars { S.vars_of solver.old ≡ bounds.vars }
    requires small { bounds.vars < 2 ^ 31 }
    ensures { OnOk result (KeepsFormula S.IsSolverOf S.vars_of S.additions_of bounds.most solver.old solver.new) }
{
    match ask_one(
        solver,
        bounds,
        sweeping.cones.rows(),
        difference,
        true,
        limit,
    )? {
        AssumptionResult::Refuted => return Ok(SweepEvent::Refuted),
        AssumptionResult::Unsat => sweeping.close(sink),
        AssumptionResult::Limit => sweeping.spend(limit),
        AssumptionResult::Sat => {
            if sweeping.learn(solver) {
                return Ok(SweepEvent::Counterexample);
            }
            // Asking again would find the same assignment, so the sink is left to the search after the sweep.
            sweeping.close(sink);
        }
    }
    Ok(SweepEvent::Nothing)
}

/// Visits all open sinks in order; with `merged_only` only those whose two signals were merged.
pub(crate) fn visit_sinks<S: Solver>(
    solver: &mut S,
    bounds: Bounds,
    sweeping: &mut SweepState,
    merged_only: bool,
    limit: u32,
) -> Result<SweepEvent, AllocError>
    requires vars { S.vars_of solver.old ≡ bounds.vars }
    requires small { bounds.vars < 2 ^ 31 }
    ensures { OnOk result (KeepsFormula S.IsSolverOf S.vars_of S.additions_of bounds.most solver.old solver.new) }
{
    let mut next = sweeping.nodes.end();
    for sink in 0..sweeping.sinks() {
        let difference = next;
        next = next.saturating_add(1);
        if !sweeping.is_asked(sink, merged_only) {
            continue;
        }
        if sweeping.is_spent() {
            return Ok(SweepEvent::Spent);
        }
        let most = sweeping.most_of(limit);
        let event = visit_sink(solver, bounds, sweeping, sink, difference, most)?;
        if event != SweepEvent::Nothing {
            return Ok(event);
        }
    }
    Ok(SweepEvent::Nothing)
}
