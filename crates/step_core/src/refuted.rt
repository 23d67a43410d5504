//! Whether no chain of a given size implements a specification, where no smaller one does: each set of inputs that a
//! chain may read is refuted.
ghost use Rattle.std.specs.Prelude.{◌≡◌, ◌+◌, ◌≤◌, true, IfOk};
ghost use Rattle.chain_theory.specs.Agreement.{NoneBelow};
ghost use Rattle.op_basis.specs.Basis.{members};
ghost use Rattle.tt_core.specs.Words.{specification};
ghost use Rattle.step_core.specs.Limits.{most_enumerated_steps};
ghost use Rattle.step_core.specs.Reads.{NoneOfSize};

use crate::pruning::due;
use crate::refuting::{missing_outputs, refute};
use crate::rules::Rules;
use crate::stack::StepStack;
use op_basis::Basis;
use std::alloc::{AllocError, Global};
use tt_core::{Spec, live_spec};

/// Refutes all sets of inputs.
fn refute_sets(
    alloc: Global,
    live: &Spec,
    basis: Basis,
    steps: u32,
    work: u32,
) -> Result<bool, AllocError>
    requires { steps ≤ most_enumerated_steps }
    ensures { IfOk result (λ refuted. refuted ≡ true → NoneOfSize live.now (members basis) steps) }
{
    let n = live.n();
    let rules = Rules::new(basis, true);
    let mut stack = StepStack::new(alloc, n, 0)?;
    let due = due(live, &stack);
    let missing = missing_outputs(live, &stack);
    let mut left = work;
    for reads in 0..1u32 << n {
        if !refute(
            live, &rules, &mut stack, steps, due, missing, reads, &mut left,
        )? {
            return Ok(false);
        }
    }
    Ok(true)
}

/// Whether no chain over the basis of exactly `steps` steps implements the specification, where none of fewer steps
/// does. True is proved; false says nothing: there may be such a chain, or the search has done `work` tests. An error
/// means that memory ran out.
pub fn refutes(
    alloc: Global,
    spec: &Spec,
    basis: Basis,
    steps: u32,
    work: u32,
) -> Result<bool, AllocError>
    requires { steps ≤ most_enumerated_steps }
    ensures { IfOk result (λ refuted. refuted ≡ true → NoneBelow (specification spec.now) (members basis) steps →
        NoneBelow (specification spec.now) (members basis) (steps + 1)) }
{
    let live = live_spec(alloc, spec)?;
    // for the prover: brings in the invariant of the specification
    let _inputs = live.n();
    let refuted = refute_sets(alloc, &live, basis, steps, work)?;
    Ok(refuted)
}
