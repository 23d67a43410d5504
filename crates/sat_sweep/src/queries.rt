//! Questions to the solver of a miter, under one or two assumptions. None is asked once its log has as many
//! additions as a sweep may make, and the limit of the last ones is what is left of these.
ghost use Rattle.std.specs.Prelude.{◌≡◌, ◌<◌, ◌^◌, OnOk};
ghost use Rattle.sat_theory.specs.Formula.{IsWithin};
ghost use Rattle.sat_sweep.specs.KeepsFormula.{KeepsFormula};

use crate::nodes::Edge;
use cnf_core::Lit;
use sat_solve::{AssumptionResult, Cones, Solver};
use std::alloc::AllocError;

/// What all questions of a sweep share.
#[derive(Clone, Copy)]
pub(crate) struct Bounds {
    /// The number of the solver's variables.
    pub(crate) vars: u32,
    /// No question is asked once the solver's log has so many additions.
    pub(crate) most: u32,
}

/// Asks whether assumptions can hold together, with at most `limit` conflicts and no more than the log may still
/// have additions. Once it may have none, the question is given up.
fn ask_within<S: Solver>(
    solver: &mut S,
    bounds: Bounds,
    assumptions: &[Lit],
    cones: Cones,
    limit: u32,
) -> Result<AssumptionResult, AllocError>
    requires within { IsWithin (S.vars_of solver.old) assumptions.now }
    ensures { OnOk result (KeepsFormula S.IsSolverOf S.vars_of S.additions_of bounds.most solver.old solver.new) }
{
    let left = bounds.most.saturating_sub(solver.additions());
    if left == 0 {
        return Ok(AssumptionResult::Limit);
    }
    solver.solve_assuming(assumptions, cones, limit.min(left))
}

/// Asks whether the variable `x` can have the value `bit`. If `x` isn't one of the solver's variables, the
/// question is given up.
pub(crate) fn ask_one<S: Solver>(
    solver: &mut S,
    bounds: Bounds,
    cones: Cones,
    x: u32,
    bit: bool,
    limit: u32,
) -> Result<AssumptionResult, AllocError>
    requires vars { S.vars_of solver.old ≡ bounds.vars }
    requires small { bounds.vars < 2 ^ 31 }
    ensures { OnOk result (KeepsFormula S.IsSolverOf S.vars_of S.additions_of bounds.most solver.old solver.new) }
{
    if x == 0 || x > bounds.vars {
        return Ok(AssumptionResult::Limit);
    }
    ask_within(solver, bounds, &[Lit::of(x, bit)], cones, limit)
}

/// Asks whether two signals can both be true.
pub(crate) fn ask_two<S: Solver>(
    solver: &mut S,
    bounds: Bounds,
    cones: Cones,
    x: Edge,
    y: Edge,
    limit: u32,
) -> Result<AssumptionResult, AllocError>
    requires vars { S.vars_of solver.old ≡ bounds.vars }
    requires small { bounds.vars < 2 ^ 31 }
    ensures { OnOk result (KeepsFormula S.IsSolverOf S.vars_of S.additions_of bounds.most solver.old solver.new) }
{
    if x.variable == 0 || x.variable > bounds.vars || y.variable == 0 || y.variable > bounds.vars {
        return Ok(AssumptionResult::Limit);
    }
    let assumptions = [
        Lit::of(x.variable, !x.complemented),
        Lit::of(y.variable, !y.complemented),
    ];
    ask_within(solver, bounds, &assumptions, cones, limit)
}

/// Asks whether the variable `x` can differ from the signal `y`. If x and not y, and not x and y, are both
/// unsatisfiable, the learnt clauses imply x = y.
pub(crate) fn ask_equal<S: Solver>(
    solver: &mut S,
    bounds: Bounds,
    cones: Cones,
    x: u32,
    y: Edge,
    limit: u32,
) -> Result<AssumptionResult, AllocError>
    requires vars { S.vars_of solver.old ≡ bounds.vars }
    requires small { bounds.vars < 2 ^ 31 }
    ensures { OnOk result (KeepsFormula S.IsSolverOf S.vars_of S.additions_of bounds.most solver.old solver.new) }
{
    if y.variable == 0 {
        return ask_one(solver, bounds, cones, x, !y.complemented, limit);
    }
    let x_true = Edge {
        variable: x,
        complemented: false,
    };
    let x_false = Edge {
        variable: x,
        complemented: true,
    };
    let same = y;
    let other = Edge {
        variable: y.variable,
        complemented: !y.complemented,
    };
    match ask_two(solver, bounds, cones, x_true, other, limit)? {
        AssumptionResult::Unsat => ask_two(solver, bounds, cones, x_false, same, limit),
        result => Ok(result),
    }
}
