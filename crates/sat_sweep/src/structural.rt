//! The first round merges structurally equal gates, before any candidate is guessed from simulation. If that
//! merges the two signals of every sink, as for a net and its copy, nothing else is asked.
ghost use Rattle.std.specs.Prelude.{◌≡◌, ◌<◌, ◌^◌, OnOk};
ghost use Rattle.sat_sweep.specs.KeepsFormula.{KeepsFormula};

use crate::gates::SweepEvent;
use crate::pairs::ask;
use crate::queries::Bounds;
use crate::sinks::visit_sinks;
use crate::state::SweepState;
use progress::Tell;
use sat_solve::Solver;
use std::alloc::AllocError;

/// The conflict limit of a question of this round: a few for each row of an operator's table.
const LIMIT: u32 = 20;

/// Compares a gate in the cone of an open sink with the gate that it is structurally equal to, if there is one.
fn merge_structural<S: Solver, T: Tell>(
    solver: &mut S,
    bounds: Bounds,
    sweeping: &mut SweepState,
    x: u32,
    tell: &T,
) -> Result<SweepEvent, AllocError>
    requires vars { S.vars_of solver.old ≡ bounds.vars }
    requires small { bounds.vars < 2 ^ 31 }
    ensures { OnOk result (KeepsFormula S.IsSolverOf S.vars_of S.additions_of bounds.most solver.old solver.new) }
{
    if !sweeping.is_needed(x) {
        return Ok(SweepEvent::Nothing);
    }
    let Some(y) = sweeping.strash_equal(x)? else {
        return Ok(SweepEvent::Nothing);
    };
    let (event, _) = ask(solver, bounds, sweeping, x, y, LIMIT, tell)?;
    Ok(event)
}

/// Visits all gates in topological order.
fn merge_structural_gates<S: Solver, T: Tell>(
    solver: &mut S,
    bounds: Bounds,
    sweeping: &mut SweepState,
    tell: &T,
) -> Result<SweepEvent, AllocError>
    requires vars { S.vars_of solver.old ≡ bounds.vars }
    requires small { bounds.vars < 2 ^ 31 }
    ensures { OnOk result (KeepsFormula S.IsSolverOf S.vars_of S.additions_of bounds.most solver.old solver.new) }
{
    for x in sweeping.nodes.first_gate()..sweeping.nodes.end() {
        if sweeping.is_spent() {
            return Ok(SweepEvent::Spent);
        }
        let event = merge_structural(solver, bounds, sweeping, x, tell)?;
        if event != SweepEvent::Nothing {
            return Ok(event);
        }
    }
    Ok(SweepEvent::Nothing)
}

/// The first round: over all gates, and then over the sinks whose two signals were merged.
pub(crate) fn structural_round<S: Solver, T: Tell>(
    solver: &mut S,
    bounds: Bounds,
    sweeping: &mut SweepState,
    tell: &T,
) -> Result<SweepEvent, AllocError>
    requires vars { S.vars_of solver.old ≡ bounds.vars }
    requires small { bounds.vars < 2 ^ 31 }
    ensures { OnOk result (KeepsFormula S.IsSolverOf S.vars_of S.additions_of bounds.most solver.old solver.new) }
{
    let event = merge_structural_gates(solver, bounds, sweeping, tell)?;
    if event != SweepEvent::Nothing {
        return Ok(event);
    }
    visit_sinks(solver, bounds, sweeping, true, LIMIT)
}
