//! Consequences of the definitions. Each law is the contract of a function with an empty body.
ghost use Rattle.std.specs.Prelude.{ℕ, ◌*◌, ◌^◌, ◌<◌, List};
ghost use Rattle.sat_theory.specs.Formula.{Formula, IsFormula, Assignment, Satisfies};
ghost use Rattle.sat_theory.specs.Line.{Line};
ghost use Rattle.sat_theory.specs.Log.{Refutes, ReachesBudget, KeepsHalf, DeletesNothing};

/// Soundness: if a log refutes a formula, no assignment satisfies the formula.
pub fn refuted_is_unsatisfiable()
    ensures { (f : Formula) (lines : List Line) (v : Assignment) → IsFormula f → Refutes f lines → Satisfies v f → ⊥ }
{}

/// If a log reaches a `budget` of unsubsumed additions on a formula of v variables and keeps half of its additions
/// live, the budget is below 2 * 3^v: the live additions are different clauses, and there are 3^v clauses over v
/// variables, the empty one included.
pub fn half_live_logs_are_short()
    ensures { (f : Formula) (lines : List Line) (budget : ℕ) → ReachesBudget f lines budget → KeepsHalf f lines →
        budget < 2 * 3 ^ f.vars }
{}

/// If a log reaches a `budget` and deletes nothing, the budget is below 3^v.
pub fn logs_without_deletions_are_short()
    ensures { (f : Formula) (lines : List Line) (budget : ℕ) → ReachesBudget f lines budget → DeletesNothing lines →
        budget < 3 ^ f.vars }
{}
