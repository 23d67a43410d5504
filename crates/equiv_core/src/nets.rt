//! Whether two nets are equivalent: exhaustively, or by their miter without keeping its log.
ghost use Rattle.std.specs.Prelude.{◌≡◌, ◌≤◌, ◌*◌, ◌^◌, ℕ, Bool, true, false, IfOk};
ghost use Rattle.sat_theory.specs.Limits.{most_conflicts};
ghost use Rattle.net_theory.specs.Net.{sink_values};
ghost use Rattle.equiv_theory.specs.Miter.{variables};
ghost use Rattle.equiv_theory.specs.Counterexample.{AreComparable, Differ as AreDifferent};
ghost use Rattle.equiv_core.specs.Limits.{AreSmall};
ghost use Rattle.equiv_core.specs.Exhaustive.{IsNarrow};

use crate::answer::EquivResult;
use crate::comparing::compare;
use crate::exhaustive::{agree, are_narrow};
use crate::mitering::miter_nets;
use net_core::Net;
use progress::Silent;
use sat_solve::Solver;
use std::alloc::{AllocError, Global};

/// Whether two nets with equally many sources and equally many sinks are found equivalent. It is true only if each
/// sink has the same value in both under every assignment.
///
/// Narrow nets have at most 12 sources and, over all their assignments, at most 1,000,000,000 values of gates and
/// sinks. They are simulated exhaustively, and false says that they differ. For others the solver `S` decides with
/// a `budget` of 1 to 10,000,000 conflicts, and false can also mean that the budget was spent. A budget of at
/// least twice 3 to the number of the miter's variables is never spent. Each net has at most 1,000,000 gates, and
/// the first has fewer than 300,000,000 sources and sinks.
pub fn equal_nets<S: Solver>(
    alloc: Global,
    first: &Net,
    second: &Net,
    budget: u32,
) -> Result<bool, AllocError>
    requires comparable { AreComparable first.now second.now }
    requires small { AreSmall first.now second.now }
    requires budget { (1 ≤ budget) × (budget ≤ most_conflicts) }
    ensures same { IfOk result (λ same. same ≡ true → (given : ℕ → Bool) →
        sink_values first.now given ≡ sink_values second.now given) }
    ensures narrow { IsNarrow first.now second.now →
        IfOk result (λ same. same ≡ false → AreDifferent first.now second.now) }
    ensures decides { 2 * 3 ^ variables first.now second.now ≤ budget →
        IfOk result (λ same. same ≡ false → AreDifferent first.now second.now) }
{
    if are_narrow(first, second) {
        return agree(alloc, first, second);
    }
    let cnf = miter_nets(alloc, first, second)?;
    match compare::<S, Silent>(alloc, first, second, &cnf, budget, &Silent)? {
        EquivResult::Equal(_) => Ok(true),
        EquivResult::Differ { sink: _, at: _ } => Ok(false),
        EquivResult::Undecided(_) => Ok(false),
    }
}
