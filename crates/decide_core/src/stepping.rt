//! Chains of few steps are enumerated, without a search, and nothing stays open. The results are cached like those
//! of a search, with the inputs in normal order. Chains of one or two steps are enumerated faster than they are
//! looked up.
ghost use Rattle.std.specs.Prelude.{◌≡◌, ◌≤◌, length, IfSome, IfNone, IfOk};
ghost use Rattle.spec_cache.specs.Order.{IsPermuting};
ghost use Rattle.decide_core.specs.Decided.{IsDecided, IsClosed, IsShorter, HasNone};

use crate::caching::{cached, copied, with_chain, without_chain};
use crate::deciding::Decided;
use crate::ordering::{permuted_header, reordered};
use crate::question::Question;
use cert_theory::Header;
use chain_core::Chain;
use spec_cache::{SpecCache, SpecKey, inverse, normal_order};
use std::alloc::{AllocError, Global};
use step_core::least_chain;

/// The most steps whose results aren't cached.
const UNCACHED_STEPS: u32 = 2;

/// Decides by enumeration.
#[tactic(auto, using(crate::specs::StepLaws::stepping))]
fn enumerated(alloc: Global, header: &Header) -> Result<Decided, AllocError>
    requires few { header.now.max ≤ 4 }
    ensures decided { IfOk result (λ decided. IsDecided header.now decided) }
    ensures closed { IfOk result IsClosed }
{
    match least_chain(alloc, &header.spec, header.basis, header.max)? {
        Some(chain) => Ok(Decided::Shorter(chain)),
        None => Ok(Decided::Least),
    }
}

/// The number of steps of a chain.
fn size_of(chain: &Chain) -> u32
    ensures { result ≡ length chain.now.steps }
{
    chain.steps().len() as u32
}

/// A chain that answers the header, or None if there is none: from the cache, or else by enumeration.
#[tactic(auto, using(crate::specs::StepLaws::stepping))]
fn known_steps(
    alloc: Global,
    cache: &mut SpecCache,
    question: Question,
) -> Result<Option<Chain>, AllocError>
    requires basis { cache.old.basis ≡ question.header.now.basis }
    requires few { question.header.now.max ≤ 4 }
    ensures some { IfOk result (λ found. IfSome found (λ chain. IsShorter question.entry.header.now chain)) }
    ensures none { IfOk result (λ found. IfNone found (HasNone question.entry.header.now)) }
    ensures basis { cache.new.basis ≡ cache.old.basis }
{
    let header = question.header;
    let key = SpecKey::of(alloc, &header.spec)?;
    let known = cache.fewest(&key);
    if header.max < known {
        return Ok(None);
    }
    if let Some(chain) = cached(alloc, cache, &key, header)? {
        return Ok(Some(chain));
    }
    match least_chain(alloc, &header.spec, header.basis, header.max)? {
        None => {
            cache.note(key, without_chain(header.max + 1, false))?;
            Ok(None)
        }
        Some(chain) => {
            let found = with_chain(size_of(&chain), copied(alloc, &chain)?);
            cache.note(key, found)?;
            Ok(Some(chain))
        }
    }
}

/// Decides by the cache or by enumeration, with the inputs permuted.
#[tactic(auto, using(crate::specs::OrderedLaws::ordering))]
fn enumerated_permuted(
    alloc: Global,
    cache: &mut SpecCache,
    question: Question,
    order: &[u32],
) -> Result<Decided, AllocError>
    requires basis { cache.old.basis ≡ question.header.now.basis }
    requires few { question.header.now.max ≤ 4 }
    requires order { IsPermuting question.header.now.spec.n order.now }
    ensures decided { IfOk result (λ decided. IsDecided question.entry.header.now decided) }
    ensures closed { IfOk result IsClosed }
    ensures basis { cache.new.basis ≡ cache.old.basis }
{
    let back = inverse(alloc, order)?;
    let permuted = permuted_header(alloc, question, order)?;
    match known_steps(alloc, cache, Question::new(&permuted))? {
        None => Ok(Decided::Least),
        Some(chain) => Ok(Decided::Shorter(reordered(alloc, &chain, &back)?)),
    }
}

/// Decides whether a chain of at most four steps implements the tables. Nothing stays open.
#[tactic(auto, using(crate::specs::OrderedLaws::ordering))]
pub(crate) fn decide_few(
    alloc: Global,
    cache: &mut SpecCache,
    question: Question,
) -> Result<Decided, AllocError>
    requires basis { cache.old.basis ≡ question.header.now.basis }
    requires few { question.header.now.max ≤ 4 }
    ensures decided { IfOk result (λ decided. IsDecided question.entry.header.now decided) }
    ensures closed { IfOk result IsClosed }
    ensures basis { cache.new.basis ≡ cache.old.basis }
{
    let header = question.header;
    if header.max <= UNCACHED_STEPS {
        return enumerated(alloc, header);
    }
    let order = normal_order(alloc, &header.spec)?;
    enumerated_permuted(alloc, cache, question, &order)
}
