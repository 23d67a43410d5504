//! The chain that is known before its size comes, so that the formula of its size isn't solved: of at most four inputs
//! and three steps by enumeration, and otherwise by walks over small nets, whose work grows with the size. A walk may
//! miss a chain: then the formula of its size finds it.
ghost use Rattle.std.specs.Prelude.{IfOk};
ghost use Rattle.cert_theory.specs.Certificate.{IsHeader};
ghost use Rattle.size_loop.specs.Outcomes.{IsKnown};

use crate::sizes::{MOST_ENUMERATED_INPUTS, MOST_ENUMERATED_STEPS, enumerated};
use cert_theory::Header;
use chain_bound::{Goal, bound};
use chain_core::Chain;
use std::alloc::{AllocError, Global};

/// The work of a walk before the formulas of a size, in pairs of signals: a part of what refuting the size takes.
fn work_for(size: u32, effort: u32) -> u64 {
    let work = match size {
        0..=3 => 10_000u64,
        4 => 60_000,
        5 => 200_000,
        6 => 600_000,
        7 => 2_000_000,
        8 => 8_000_000,
        _ => 30_000_000,
    };
    work.saturating_mul(u64::from(effort))
}

/// Whether there is a chain of at most `size` steps.
fn has_at_most(chain: &Option<Chain>, size: u32) -> bool {
    match chain {
        Some(chain) => chain.steps().len() <= size as usize,
        None => false,
    }
}

/// The shorter of two chains, the first of two equally long ones.
fn shorter(header: &Header, first: Option<Chain>, second: Option<Chain>) -> Option<Chain>
    requires first { IsKnown header.now first }
    requires second { IsKnown header.now second }
    ensures { IsKnown header.now result }
{
    if is_shorter(&second, &first) {
        second
    } else {
        first
    }
}

/// Whether there is a chain and the other one, if any, has more steps.
fn is_shorter(chain: &Option<Chain>, other: &Option<Chain>) -> bool {
    match (chain, other) {
        (Some(chain), Some(other)) => chain.steps().len() < other.steps().len(),
        (Some(_), None) => true,
        _ => false,
    }
}

/// A chain of at most the greatest size, by a walk that ends at `size` steps.
#[tactic(auto, using(crate::specs::OutcomeLaws::knowing))]
fn walked(
    alloc: Global,
    header: &Header,
    size: u32,
    effort: u32,
) -> Result<Option<Chain>, AllocError>
    ensures { IfOk result (λ found. IsKnown header.now found) }
{
    let goal = Goal {
        low: size,
        most: header.max,
        work: work_for(size, effort),
    };
    let found = bound(alloc, &header.spec, header.basis, goal)?;
    Ok(found)
}

/// The chain of few inputs: enumerated before the first size, and kept afterwards.
fn few_inputs(
    alloc: Global,
    header: &Header,
    size: u32,
    before: Option<Chain>,
) -> Result<Option<Chain>, AllocError>
    requires header { IsHeader header.now }
    requires before { IsKnown header.now before }
    ensures { IfOk result (λ found. IsKnown header.now found) }
{
    if size > 0 {
        return Ok(before);
    }
    enumerated(alloc, header, header.max)
}

/// The chain that is known before the formulas of `size`, where `before` is the one that was known before the smaller
/// sizes.
pub(crate) fn known_from(
    alloc: Global,
    header: &Header,
    size: u32,
    effort: u32,
    before: Option<Chain>,
) -> Result<Option<Chain>, AllocError>
    requires header { IsHeader header.now }
    requires before { IsKnown header.now before }
    ensures { IfOk result (λ found. IsKnown header.now found) }
{
    if header.spec.n() <= MOST_ENUMERATED_INPUTS && size <= MOST_ENUMERATED_STEPS {
        return few_inputs(alloc, header, size, before);
    }
    if effort == 0 || has_at_most(&before, size) {
        return Ok(before);
    }
    let found = walked(alloc, header, size, effort)?;
    Ok(shorter(header, before, found))
}
