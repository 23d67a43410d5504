//! The cache in use: results are stored, so that a specification isn't searched twice. A lower bound of the cache
//! is proved; a chain of the cache is checked before it is used.
ghost use Rattle.std.specs.Prelude.{◌≡◌, ◌≤◌, true, false, length, IfSome, IfNone, IfOk};
ghost use Rattle.tt_core.specs.Words.{specification};
ghost use Rattle.op_basis.specs.Basis.{members};
ghost use Rattle.chain_theory.specs.Agreement.{IsOver, Agrees};
ghost use Rattle.spec_cache.specs.ProvedBounds.{spelled, chain_of, found_at};
ghost use Rattle.decide_core.specs.Decided.{Fewer, IsSized, IsShorter, IsUseless};

use crate::deciding::{SizeResult, search_from};
use crate::question::Question;
use cert_theory::Header;
use chain_core::{Chain, first_difference, first_outside};
use op_basis::Basis;
use sat_solve::Solver;
use spec_cache::{Found, SpecCache, SpecKey};
use std::alloc::{AllocError, Global};
use tt_core::Spec;

/// Whether a chain is over a basis.
#[tactic(auto, using(crate::specs::CacheLaws::caching))]
fn is_over(chain: &Chain, basis: Basis) -> bool
    ensures over { result ≡ true → IsOver (members basis) chain.now }
    ensures not_over { result ≡ false → IsOver (members basis) chain.now → ⊥ }
{
    first_outside(chain, basis).is_none()
}

/// Whether a chain implements a specification.
#[tactic(auto, using(crate::specs::CacheLaws::caching))]
fn agrees(chain: &Chain, spec: &Spec) -> bool
    requires inputs { chain.now.n ≡ spec.now.n }
    requires outputs { length chain.now.outs ≡ length spec.now.on }
    ensures agrees { result ≡ true → Agrees chain.now (specification spec.now) }
    ensures differs { result ≡ false → Agrees chain.now (specification spec.now) → ⊥ }
{
    first_difference(chain, spec).is_none()
}

/// Whether a chain answers the header: its inputs, outputs, number of steps and basis fit, and it implements the
/// tables.
#[tactic(auto, using(crate::specs::CacheLaws::caching))]
pub(crate) fn is_solution(chain: &Chain, header: &Header) -> bool
    ensures yes { result ≡ true → IsShorter header.now chain.now }
    ensures not { result ≡ false → IsShorter header.now chain.now → ⊥ }
{
    // for the prover: brings the invariant of the specification
    let _inputs = header.spec.n();
    if chain.n() != header.spec.n() {
        return false;
    }
    if chain.outs().len() as u32 != header.spec.outputs() {
        return false;
    }
    if chain.steps().len() as u32 > header.max {
        return false;
    }
    if !is_over(chain, header.basis) {
        return false;
    }
    agrees(chain, &header.spec)
}

pub(crate) fn copied(alloc: Global, chain: &Chain) -> Result<Chain, AllocError>
    ensures { IfOk result (λ copy. copy ≡ chain.now) }
{
    let steps = Vec::from_slice(alloc, chain.steps())?;
    let outs = Vec::from_slice(alloc, chain.outs())?;
    Ok(Chain::new(chain.n(), steps, outs))
}

/// The cached chain, if it answers the header.
pub(crate) fn cached(
    alloc: Global,
    cache: &SpecCache,
    key: &SpecKey,
    header: &Header,
) -> Result<Option<Chain>, AllocError>
    ensures some { IfOk result (λ found. IfSome found (λ chain. IsShorter header.now chain)) }
    ensures none { IfOk result (λ found. IfNone found (IsUseless header.now (chain_of (found_at cache.now key.now)))) }
{
    match cache.chain(key) {
        None => Ok(None),
        Some(chain) => {
            if !is_solution(chain, header) {
                return Ok(None);
            }
            Ok(Some(copied(alloc, chain)?))
        }
    }
}

/// The entry for a search that found no chain.
pub(crate) fn without_chain(fewest: u32, open: bool) -> Found
    ensures { result.fewest ≡ fewest }
{
    Found {
        fewest,
        chain: None,
        open,
    }
}

/// The entry for a chain that was found.
pub(crate) fn with_chain(fewest: u32, chain: Chain) -> Found
    ensures { result.fewest ≡ fewest }
{
    Found {
        fewest,
        chain: Some(chain),
        open: false,
    }
}

/// Searches, and stores the result.
#[tactic(auto, using(crate::specs::CacheLaws::caching))]
fn search_new<S: Solver>(
    alloc: Global,
    cache: &mut SpecCache,
    key: SpecKey,
    question: Question,
    from: u32,
) -> Result<SizeResult, AllocError>
    requires basis { cache.old.basis ≡ question.header.now.basis }
    requires key { key ≡ spelled question.header.now.spec }
    requires fewer { Fewer question.header.now from }
    requires from { from ≤ question.header.now.max }
    ensures sized { IfOk result (λ sized. IsSized question.entry.header.now sized) }
    ensures basis { cache.new.basis ≡ cache.old.basis }
{
    match search_from::<S>(alloc, question, from)? {
        SizeResult::Open { low } => {
            cache.note(key, without_chain(low, true))?;
            Ok(SizeResult::Open { low })
        }
        SizeResult::Nothing => {
            cache.note(key, without_chain(question.header.max + 1, false))?;
            Ok(SizeResult::Nothing)
        }
        SizeResult::Found { chain, low } => {
            let found = with_chain(low, copied(alloc, &chain)?);
            cache.note(key, found)?;
            Ok(SizeResult::Found { chain, low })
        }
    }
}

/// Decides by the cache. What that doesn't know is searched if `searches` holds; else it stays undecided.
#[tactic(auto, using(crate::specs::CacheLaws::caching))]
pub(crate) fn decide_sizes<S: Solver>(
    alloc: Global,
    cache: &mut SpecCache,
    question: Question,
    counted: u32,
    searches: bool,
) -> Result<SizeResult, AllocError>
    requires basis { cache.old.basis ≡ question.header.now.basis }
    requires fewer { Fewer question.header.now counted }
    ensures sized { IfOk result (λ sized. IsSized question.entry.header.now sized) }
    ensures basis { cache.new.basis ≡ cache.old.basis }
{
    let key = SpecKey::of(alloc, &question.header.spec)?;
    let known = cache.fewest(&key);
    let from = counted.max(known);
    if question.header.max < from {
        return Ok(SizeResult::Nothing);
    }
    if cache.is_open(&key) {
        return Ok(SizeResult::Open { low: from });
    }
    match cached(alloc, cache, &key, question.header)? {
        Some(chain) => Ok(SizeResult::Found { chain, low: 0 }),
        None => {
            if !searches {
                return Ok(SizeResult::Open { low: from });
            }
            search_new::<S>(alloc, cache, key, question, from)
        }
    }
}
