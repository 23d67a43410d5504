//! Whether a gate is equal or complementary to an earlier node. If the solver derives that, the gate is merged; if
//! it finds an assignment that tells them apart, the signatures are refined. The results for pairs of one kind
//! decide whether more such pairs are asked.
ghost use Rattle.std.specs.Prelude.{◌≡◌, ◌<◌, ◌^◌, OnOk};
ghost use Rattle.sat_sweep.specs.KeepsFormula.{KeepsFormula};

use crate::gates::SweepEvent;
use crate::queries::{Bounds, ask_equal};
use crate::state::SweepState;
use progress::{Progress, Tell};
use sat_solve::{AssumptionResult, Solver};
use std::alloc::AllocError;

/// Tells that a gate is compared next, with at most `limit` conflicts.
fn tell_gate<T: Tell>(tell: &T, sweeping: &SweepState, x: u32, limit: u32) {
    let first = sweeping.nodes.first_gate();
    tell.tell(Progress::Compared {
        done: x.saturating_sub(first),
        all: sweeping.nodes.end().saturating_sub(first),
        limit,
    });
}

/// Compares a gate with an earlier node, with at most `limit` conflicts. The second result says whether to try
/// another candidate. `tell` hears of it.
pub(crate) fn ask<S: Solver, T: Tell>(
    solver: &mut S,
    bounds: Bounds,
    sweeping: &mut SweepState,
    x: u32,
    y: u32,
    limit: u32,
    tell: &T,
) -> Result<(SweepEvent, bool), AllocError>
    requires vars { S.vars_of solver.old ≡ bounds.vars }
    requires small { bounds.vars < 2 ^ 31 }
    ensures { OnOk result (KeepsFormula S.IsSolverOf S.vars_of S.additions_of bounds.most solver.old solver.new) }
{
    tell_gate(tell, sweeping, x, limit);
    let other = sweeping.as_other(x, y);
    match ask_equal(solver, bounds, sweeping.cones.rows(), x, other, limit)? {
        AssumptionResult::Refuted => Ok((SweepEvent::Refuted, false)),
        AssumptionResult::Unsat => {
            sweeping.merge(x, other);
            Ok((SweepEvent::Nothing, false))
        }
        AssumptionResult::Limit => {
            sweeping.spend(limit);
            Ok((SweepEvent::Nothing, false))
        }
        AssumptionResult::Sat => {
            if sweeping.learn(solver) {
                return Ok((SweepEvent::Counterexample, false));
            }
            Ok((SweepEvent::Nothing, !sweeping.may_be_equal(x, y)))
        }
    }
}

/// Compares a gate with an earlier node. A pair within one net that isn't structurally equal gets a fifth of the
/// conflicts, and is asked only while such pairs pay. The second result says whether to try another candidate.
pub(crate) fn compare<S: Solver, T: Tell>(
    solver: &mut S,
    bounds: Bounds,
    sweeping: &mut SweepState,
    x: u32,
    y: u32,
    is_strash_equal: bool,
    limit: u32,
    tell: &T,
) -> Result<(SweepEvent, bool), AllocError>
    requires vars { S.vars_of solver.old ≡ bounds.vars }
    requires small { bounds.vars < 2 ^ 31 }
    ensures { OnOk result (KeepsFormula S.IsSolverOf S.vars_of S.additions_of bounds.most solver.old solver.new) }
{
    let is_within_net = sweeping.is_within_net(x, y);
    if is_within_net && !is_strash_equal && !sweeping.patience.asks_within_net() {
        return Ok((SweepEvent::Nothing, false));
    }
    let most = match (is_within_net, is_strash_equal) {
        (true, true) => limit,
        (true, false) => limit / 5,
        (false, _) => sweeping.patience.limit(limit),
    };
    let most = sweeping.most_of(most);
    let asked = ask(solver, bounds, sweeping, x, y, most, tell)?;
    if !asked.1 {
        let is_merged = sweeping.is_merged(x);
        sweeping.patience.count_result(is_within_net, is_merged);
    }
    Ok(asked)
}
