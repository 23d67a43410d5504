//! The status of a clause under the values of a trail. The search evaluates only unit clauses this way, since
//! the others are watched; the definitions are those that watched propagation has to satisfy.
ghost use Rattle.sat_theory.specs.Formula.{IsClause, IsWithin};
ghost use Rattle.cdcl_theory.specs.Trails.{falsified_at as falsified_in};
ghost use Rattle.cdcl_core.specs.ClauseStatuses.{IsStatusOf};

use cnf_core::Lit;
use trail_core::Trail;

/// The status of a clause under the values of a trail.
pub(crate) enum ClauseStatus {
    /// A literal is true, or at least two have no value.
    Settled,
    /// All but this one are false, and this has no value.
    Unit(Lit),
    /// All are false.
    Falsified,
}

/// The status of a clause under the values of a trail.
#[tactic(auto, using(crate::proofs::Judging::judging))]
pub(crate) fn judge(trail: &Trail, lits: &[Lit]) -> ClauseStatus
    requires clause { IsClause lits.now }
    requires within { IsWithin trail.now.vars lits.now }
    ensures { IsStatusOf (falsified_in trail.now) lits.now result }
{
    let mut free: Option<Lit> = None;
    for lit in lits {
        if trail.falsified_at(*lit) > 0 {
            continue;
        }
        if free.is_some() || trail.falsified_at(lit.opposite()) > 0 {
            return ClauseStatus::Settled;
        }
        free = Some(*lit);
    }
    match free {
        None => ClauseStatus::Falsified,
        Some(lit) => ClauseStatus::Unit(lit),
    }
}
