//! The bound: a walk over the tables of a specification, and the check of its chain.
ghost use Rattle.std.specs.Prelude.{◌≡◌, true, length, IfSome, IfOk};
ghost use Rattle.tt_core.specs.Words.{specification};
ghost use Rattle.op_basis.specs.Basis.{members};
ghost use Rattle.chain_theory.specs.Agreement.{IsOver, Agrees};
ghost use Rattle.step_core.specs.LeastChains.{IsChainWithin};

use crate::net_chain::chain_of;
use chain_core::{Chain, first_difference, first_outside};
use chain_walk::{Bound, Tables, search_net};
use op_basis::Basis;
use std::alloc::{AllocError, Global};
use tt_core::Spec;

/// What a bound is searched for: a chain of `low` steps ends the search, longer ones than `most` steps don't count, and
/// the walks do about so much `work`, counted in pairs of signals that are tried.
#[derive(Clone, Copy)]
pub struct Goal {
    pub low: u32,
    pub most: u32,
    pub work: u64,
}

/// The tables of a specification for a walk.
fn tables_of(alloc: Global, spec: &Spec) -> Result<Tables, AllocError> {
    let mut tables = Tables::new(alloc, spec.n());
    for (on, care) in spec.on().iter().zip(spec.care().iter()) {
        tables.push(*on, *care)?;
    }
    Ok(tables)
}

/// Whether a chain is over a basis.
#[tactic(auto, using(crate::proofs::Checked::checking))]
fn is_over(chain: &Chain, basis: Basis) -> bool
    ensures { result ≡ true → IsOver (members basis) chain.now }
{
    first_outside(chain, basis).is_none()
}

/// Whether a chain agrees with a specification.
#[tactic(auto, using(crate::proofs::Checked::checking))]
fn agrees(chain: &Chain, spec: &Spec) -> bool
    requires inputs { chain.now.n ≡ spec.now.n }
    requires outputs { length chain.now.outs ≡ length spec.now.on }
    ensures { result ≡ true → Agrees chain.now (specification spec.now) }
{
    first_difference(chain, spec).is_none()
}

/// Whether a chain has at most `most` steps, is over the basis and agrees with the specification.
#[tactic(auto, using(crate::proofs::Checked::checking))]
fn is_within(chain: &Chain, spec: &Spec, basis: Basis, most: u32) -> bool
    ensures { result ≡ true → IsChainWithin (specification spec.now) (members basis) most chain.now }
{
    // for the prover: brings the invariant of the specification
    let _inputs = spec.n();
    if chain.n() != spec.n() || chain.outs().len() as u32 != spec.outputs() {
        return false;
    }
    if chain.steps().len() as u32 > most || !is_over(chain, basis) {
        return false;
    }
    agrees(chain, spec)
}

/// The chain, if it has at most `most` steps, is over the basis and agrees with the specification.
fn checked(chain: Chain, spec: &Spec, basis: Basis, most: u32) -> Option<Chain>
    ensures { IfSome result (λ chain. IsChainWithin (specification spec.now) (members basis) most chain) }
{
    if is_within(&chain, spec, basis, most) {
        Some(chain)
    } else {
        None
    }
}

/// A chain over the basis that agrees with the specification, as short as the search finds. None promises nothing. An
/// error means that memory ran out.
pub fn bound(
    alloc: Global,
    spec: &Spec,
    basis: Basis,
    goal: Goal,
) -> Result<Option<Chain>, AllocError>
    ensures { IfOk result (λ found. IfSome found (λ chain.
        IsChainWithin (specification spec.now) (members basis) goal.most chain)) }
{
    let tables = tables_of(alloc, spec)?;
    let ends = Bound {
        enough: goal.low,
        work: goal.work,
        seed: u64::from(goal.low).saturating_add(1),
    };
    let Some(net) = search_net(alloc, basis.get(), &tables, ends)? else {
        return Ok(None);
    };
    let Some(chain) = chain_of(alloc, &net, spec.n(), basis)? else {
        return Ok(None);
    };
    Ok(checked(chain, spec, basis, goal.most))
}
