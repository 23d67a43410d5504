//! The least chain within a bound on its size, or the answer that there is none: sizes in increasing order, each
//! enumerated completely. And the chain after a number of others.
ghost use Rattle.std.specs.Prelude.{◌≡◌, ◌≤◌, [], length, IfOk, IfSome, IfNone};
ghost use Rattle.chain_theory.specs.Operator.{Basis as Operators};
ghost use Rattle.op_basis.specs.Basis.{members};
ghost use Rattle.tt_core.specs.Words.{specification};
ghost use Rattle.tt_core.specs.Live.{live_words};
ghost use Rattle.step_core.specs.Limits.{most_enumerated_steps};
ghost use Rattle.step_core.specs.LeastChains.{IsChainWithin, IsLeastAnswer};
ghost use Rattle.step_core.specs.Steps.{IsSolution, AreOver};
ghost use Rattle.step_core.specs.Outs.{AreMet};
ghost use Rattle.step_core.specs.Enumeration.{NoneFrom};

use crate::enumerate::enumerate;
use crate::outs::outs_for;
use crate::rules::Rules;
use crate::stack::StepStack;
use chain_core::Chain;
use op_basis::Basis;
use std::alloc::{AllocError, Global};
use tt_core::{Spec, live_spec};

/// The chain of the steps on the stack, which have the values of all live outputs.
fn chain_of(alloc: Global, spec: &Spec, stack: StepStack) -> Result<Chain, AllocError>
    requires inputs { stack.n ≡ spec.now.n }
    requires met { AreMet spec.now stack.steps }
    ensures { IfOk result (λ chain. (basis : Operators) → AreOver basis stack.steps →
        IsChainWithin (specification spec.now) basis (length stack.steps) chain) }
{
    // for the prover: brings in the invariant of the specification
    let _inputs = spec.n();
    let n = stack.n();
    let outs = outs_for(alloc, spec, &stack)?;
    Ok(Chain::new(n, stack.into_steps(), outs))
}

/// A solution of exactly `size` steps, or None where no chain of this size in normal form implements the
/// specification.
fn solution_steps(
    alloc: Global,
    spec: &Spec,
    basis: Basis,
    size: u32,
) -> Result<Option<StepStack>, AllocError>
    requires { size ≤ most_enumerated_steps }
    ensures inputs { IfOk result (λ found. IfSome found (λ stack. stack.n ≡ spec.now.n)) }
    ensures solution { IfOk result (λ found. IfSome found (λ stack. IsSolution spec.now (members basis) stack.steps)) }
    ensures size { IfOk result (λ found. IfSome found (λ stack. length stack.steps ≡ size)) }
    ensures none { IfOk result (λ found. IfNone found (NoneFrom spec.now (members basis) [] size)) }
{
    let mut stack = StepStack::new(alloc, spec.n(), 0)?;
    let rules = Rules::new(basis, true);
    if enumerate(spec, &rules, &mut stack, size)? {
        return Ok(Some(stack));
    }
    Ok(None)
}

/// The chain of the first solution, sizes in increasing order up to `most`. `live` has the live outputs of `spec`.
#[tactic(auto, using(crate::specs::LeastChainLaws::answering))]
fn first_size(
    alloc: Global,
    spec: &Spec,
    live: &Spec,
    basis: Basis,
    most: u32,
) -> Result<Option<Chain>, AllocError>
    requires most { most ≤ most_enumerated_steps }
    requires live { live.now ≡ live_words spec.now }
    ensures { IfOk result (λ found. IsLeastAnswer (specification spec.now) (members basis) most found) }
{
    // for the prover: bring in the invariants of both specifications
    let _inputs = spec.n();
    let _same_inputs = live.n();
    for size in 0..most + 1 {
        if let Some(stack) = solution_steps(alloc, live, basis, size)? {
            return Ok(Some(chain_of(alloc, spec, stack)?));
        }
    }
    Ok(None)
}

/// A least chain over the basis that implements the specification, or None where it has more than `most` steps.
/// None speaks of all chains over the basis, not only of those in normal form. An error means that memory ran
/// out.
pub fn least_chain(
    alloc: Global,
    spec: &Spec,
    basis: Basis,
    most: u32,
) -> Result<Option<Chain>, AllocError>
    requires { most ≤ most_enumerated_steps }
    ensures { IfOk result (λ found. IsLeastAnswer (specification spec.now) (members basis) most found) }
{
    let live = live_spec(alloc, spec)?;
    first_size(alloc, spec, &live, basis, most)
}

/// The chain of the solution after `number` others, sizes in increasing order up to `most`.
#[tactic(auto, using(crate::specs::LeastChainLaws::answering))]
fn size_after(
    alloc: Global,
    spec: &Spec,
    live: &Spec,
    basis: Basis,
    most: u32,
    number: u32,
) -> Result<Option<Chain>, AllocError>
    requires most { most ≤ most_enumerated_steps }
    requires live { live.now ≡ live_words spec.now }
    ensures { IfOk result (λ found. IfSome found (λ chain.
        IsChainWithin (specification spec.now) (members basis) most chain)) }
{
    // for the prover: bring in the invariants of both specifications
    let _inputs = spec.n();
    let _same_inputs = live.n();
    let rules = Rules::new(basis, false);
    let mut stack = StepStack::new(alloc, live.n(), number)?;
    for size in 0..most + 1 {
        if enumerate(live, &rules, &mut stack, size)? {
            return Ok(Some(chain_of(alloc, spec, stack)?));
        }
    }
    Ok(None)
}

/// The chain number `number`, from 0, in the order of the enumeration, of at most `most` steps over the basis;
/// it implements the specification. None where the enumeration ends before. Rising numbers give different
/// solutions, for a caller that replaces a chain by another one of equal size. Pruning drops some chains above
/// the least size, so None proves nothing. An error means that memory ran out.
pub fn nth_chain(
    alloc: Global,
    spec: &Spec,
    basis: Basis,
    most: u32,
    number: u32,
) -> Result<Option<Chain>, AllocError>
    requires { most ≤ most_enumerated_steps }
    ensures { IfOk result (λ found. IfSome found (λ chain.
        IsChainWithin (specification spec.now) (members basis) most chain)) }
{
    let live = live_spec(alloc, spec)?;
    size_after(alloc, spec, &live, basis, most, number)
}
