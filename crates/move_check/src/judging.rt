//! Checks a candidate before it replaces a net.
ghost use Rattle.std.specs.Prelude.{◌≡◌, ◌≤◌, true, length, IfOk, IfSome};
ghost use Rattle.sat_theory.specs.Limits.{most_conflicts};
ghost use Rattle.net_theory.specs.Implements.{IsCleanedUp};
ghost use Rattle.op_basis.specs.Basis.{members};
ghost use Rattle.equiv_core.specs.Limits.{AreSmall};
ghost use Rattle.net_theory.specs.Operators.{HasOperatorsWithin};
ghost use Rattle.move_check.specs.Fitting.{IsFit};

use crate::operators::has_operators_within;
use crate::sinks::with_sinks_of;
use equiv_core::equal_nets;
use net_core::{Net, remove_dangling};
use op_basis::Basis;
use sat_solve::Solver;
use std::alloc::{AllocError, Global};

/// The most gates of nets that are compared (`AreSmall`).
const MOST_GATES: usize = net_theory::MOST_GATES as usize;

/// The most sources, and the most sinks, of nets that are compared: fewer than 300,000,000 (`IsSmall`).
const MOST_SOURCES_OR_SINKS: usize = 299_999_999;

/// Whether both nets are small enough for a miter.
fn are_small(first: &Net, second: &Net) -> bool
    ensures { result ≡ true → AreSmall first.now second.now }
{
    first.sources() as usize <= MOST_SOURCES_OR_SINKS
        && first.sinks().len() <= MOST_SOURCES_OR_SINKS
        && first.gates().len() <= MOST_GATES
        && second.gates().len() <= MOST_GATES
}

/// Whether a candidate may be compared at all: sources, sinks, gates, operators and sizes fit.
fn is_fit(net: &Net, candidate: &Net, basis: Basis) -> bool
    ensures { result ≡ true → IsFit (members basis) net.now candidate.now }
{
    candidate.sources() == net.sources()
        && candidate.sinks().len() == net.sinks().len()
        && candidate.gates().len() <= net.gates().len()
        && are_small(net, candidate)
        && has_operators_within(net, candidate, basis)
}

/// The candidate without its dangling gates, if it may replace the net: it is found to be equivalent within a
/// budget of `budget` conflicts, from 1 to 10,000,000, it has no more gates than the net, and each operator is of
/// the basis or of the net. None if it may not.
#[tactic(auto, using(crate::specs::JudgingLaws::judging))]
pub fn judged<S: Solver>(
    alloc: Global,
    net: &Net,
    candidate: &Net,
    basis: Basis,
    budget: u32,
) -> Result<Option<Net>, AllocError>
    requires budget { (1 ≤ budget) × (budget ≤ most_conflicts) }
    ensures cleaned_up { IfOk result (λ found. IfSome found (IsCleanedUp net.now)) }
    ensures lean { IfOk result (λ found. IfSome found (λ m. length m.gates ≤ length candidate.now.gates)) }
    ensures operators { IfOk result (λ found. IfSome found (HasOperatorsWithin (members basis) net.now)) }
{
    let lean = remove_dangling(alloc, candidate)?;
    if !is_fit(net, &lean, basis) {
        return Ok(None);
    }
    let judged = with_sinks_of(alloc, net, lean)?;
    // for the prover: bring in the type invariants
    let _gates = net.gates();
    let _sinks = judged.sinks();
    let same = equal_nets::<S>(alloc, net, &judged, budget)?;
    if !same {
        return Ok(None);
    }
    Ok(Some(remove_dangling(alloc, &judged)?))
}
