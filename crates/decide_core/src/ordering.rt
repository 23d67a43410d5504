//! The order of the methods: the lower bound first, then for at most four steps their enumeration, else the cache
//! and the searches, with the inputs in normal order (the P-class of the tables). So windows that differ only by
//! an input permutation share their results, and chains are permuted back by the inverse order. The first search
//! has few conflicts; what it leaves open is searched for the original tables, with a certificate and the whole
//! budget.
ghost use Rattle.std.specs.Prelude.{◌≡◌, ℕ, ◌≤◌, IfOk};
ghost use Rattle.tt_core.specs.Words.{specification};
ghost use Rattle.cert_theory.specs.declared.data.Header.{Header as HeaderOf};
ghost use Rattle.cert_theory.specs.Certificate.{IsHeader};
ghost use Rattle.spec_cache.specs.Order.{IsOrder, IsPermuting, IsPermuted};
ghost use Rattle.decide_core.specs.Decided.{Fewer, IsDecided, IsClosed, IsShorter};
ghost use Rattle.decide_core.specs.Ordered.{IsPermutedTo};

use crate::caching::{decide_sizes, with_chain, without_chain};
use crate::deciding::{Decided, Searched, SizeResult, no_steps, search_whole};
use crate::question::Question;
use crate::stepping::decide_few;
use bound_core::lower_bound;
use cert_theory::Header;
use chain_core::Chain;
use sat_solve::Solver;
use spec_cache::{SpecCache, SpecKey, inverse, normal_order, permuted_chain, permuted_spec};
use std::alloc::{AllocError, Global};

/// The conflict limit of the first search of a size, which keeps no certificate. What it leaves open is searched
/// with a certificate and the whole budget.
const FIRST_CONFLICTS: u32 = 10_000;

/// The most steps that are enumerated: for more, a search is faster.
const FEW_STEPS: u32 = 4;

/// The budget of the first search.
fn first_conflicts(conflicts: u32) -> u32
    requires { 1 ≤ conflicts }
    ensures some { 1 ≤ result }
    ensures most { result ≤ conflicts }
{
    conflicts.min(FIRST_CONFLICTS)
}

/// The header for the tables with permuted inputs, for the first search.
#[tactic(auto, using(crate::specs::OrderedLaws::ordering))]
pub(crate) fn permuted_header(
    alloc: Global,
    question: Question,
    order: &[u32],
) -> Result<Header, AllocError>
    requires { IsOrder question.header.now.spec.n order.now }
    ensures header { IfOk result (λ permuted. IsHeader permuted) }
    ensures permuted { IfOk result (λ permuted. IsPermuted (specification question.entry.header.now.spec)
        (specification permuted.spec) order.now) }
    ensures basis { IfOk result (λ permuted. permuted.basis ≡ question.entry.header.now.basis) }
    ensures max { IfOk result (λ permuted. permuted.max ≡ question.entry.header.now.max) }
{
    let header = question.header;
    let spec = permuted_spec(alloc, &header.spec, order)?;
    // for the prover: brings the invariant of the specification
    let _inputs = spec.n();
    Ok(Header {
        spec,
        basis: header.basis,
        method: header.method,
        conflicts: first_conflicts(header.conflicts),
        max: header.max,
    })
}

/// Permutes the inputs of a chain, which turns a solution for one header into one for the permuted header.
pub(crate) fn reordered(alloc: Global, chain: &Chain, order: &[u32]) -> Result<Chain, AllocError>
    requires { IsOrder chain.now.n order.now }
    ensures { IfOk result (λ permuted. (h k : HeaderOf) → IsPermutedTo h k order.now → IsShorter h chain.now →
        IsShorter k permuted) }
{
    permuted_chain(alloc, chain, order)
}

/// Searches what the first search left open, with a certificate and the whole budget. The result is cached for the
/// tables with their inputs in normal order.
#[tactic(auto, using(crate::specs::OrderedLaws::ordering))]
fn search_open<S: Solver>(
    alloc: Global,
    cache: &mut SpecCache,
    question: Question,
    permuted: Question,
    order: &[u32],
) -> Result<Decided, AllocError>
    requires basis { cache.old.basis ≡ permuted.header.now.basis }
    requires permuted { IsPermutedTo question.header.now permuted.header.now order.now }
    requires fewer { (size : ℕ) → Fewer question.header.now size → Fewer permuted.header.now size }
    ensures decided { IfOk result (λ decided. IsDecided question.entry.header.now decided) }
    ensures basis { cache.new.basis ≡ cache.old.basis }
{
    let key = SpecKey::of(alloc, &permuted.header.spec)?;
    match search_whole::<S>(alloc, question)? {
        Searched::Nothing => {
            cache.note(key, without_chain(permuted.header.max + 1, false))?;
            Ok(Decided::Least)
        }
        Searched::Found { chain, fewest } => {
            let found = with_chain(fewest, reordered(alloc, &chain, order)?);
            cache.note(key, found)?;
            Ok(Decided::Shorter(chain))
        }
        Searched::Open(certificate) => Ok(Decided::Open(certificate)),
    }
}

/// Decides, with the inputs permuted, what the lower bound leaves undecided. If the first search would have the
/// whole budget, the search with a certificate is the only one.
#[tactic(auto, using(crate::specs::OrderedLaws::ordering))]
fn decide_permuted<S: Solver>(
    alloc: Global,
    cache: &mut SpecCache,
    question: Question,
    counted: u32,
    order: &[u32],
) -> Result<Decided, AllocError>
    requires basis { cache.old.basis ≡ question.header.now.basis }
    requires fewer { Fewer question.header.now counted }
    requires order { IsPermuting question.header.now.spec.n order.now }
    ensures decided { IfOk result (λ decided. IsDecided question.entry.header.now decided) }
    ensures basis { cache.new.basis ≡ cache.old.basis }
{
    let header = question.header;
    let back = inverse(alloc, order)?;
    let permuted = permuted_header(alloc, question, order)?;
    let asked = Question::new(&permuted);
    let searches = permuted.conflicts < header.conflicts;
    match decide_sizes::<S>(alloc, cache, asked, counted, searches)? {
        SizeResult::Nothing => Ok(Decided::Least),
        SizeResult::Open { low: _ } => search_open::<S>(alloc, cache, question, asked, order),
        SizeResult::Found { chain, low: _ } => Ok(Decided::Shorter(reordered(
            alloc, &chain, &back,
        )?)),
    }
}

/// Decides whether a chain of at most `header.max` steps implements the header's tables: by the lower bound, by a
/// cache for the header's basis, for at most four steps by enumeration, else by a search, whose result is cached.
/// A certificate comes only if a search has spent its budget.
#[tactic(auto, using(crate::specs::OrderedLaws::ordering))]
pub fn decide<S: Solver>(
    alloc: Global,
    cache: &mut SpecCache,
    header: &Header,
) -> Result<Decided, AllocError>
    requires header { IsHeader header.now }
    requires basis { cache.old.basis ≡ header.now.basis }
    ensures decided { IfOk result (λ decided. IsDecided header.now decided) }
    // With at most four steps nothing stays open.
    ensures closed { header.now.max ≤ 4 → IfOk result IsClosed }
    ensures basis { cache.new.basis ≡ cache.old.basis }
{
    if header.spec.outputs() == 0 {
        return Ok(Decided::Shorter(no_steps(alloc, header)));
    }
    let counted = lower_bound(&header.spec);
    if header.max < counted {
        return Ok(Decided::Least);
    }
    if header.max <= FEW_STEPS {
        return decide_few(alloc, cache, Question::new(header));
    }
    let order = normal_order(alloc, &header.spec)?;
    decide_permuted::<S>(alloc, cache, Question::new(header), counted, &order)
}
