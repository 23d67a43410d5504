//! The results of searches: from a given size on without a certificate, and of all sizes with one.
ghost use Rattle.std.specs.Prelude.{◌≡◌, ◌+◌, ◌≤◌, true, false, length, IfOk};
ghost use Rattle.chain_theory.specs.Operator.{Basis};
ghost use Rattle.chain_theory.specs.Specification.{Specification};
ghost use Rattle.chain_theory.specs.Agreement.{NoneBelow};
ghost use Rattle.cert_theory.specs.Meaning.{Means};
ghost use Rattle.decide_core.specs.Decided.{Fewer, IsSearched, IsSized, IsShorter, IsOpenVerdict};

use crate::question::Question;
use cert_theory::{Certificate, Header, Verdict};
use chain_core::Chain;
use progress::Silent;
use sat_solve::Solver;
use size_loop::{SizeOutcome, search, search_size};
use std::alloc::{AllocError, Global};
use step_core::refutes;

/// The greatest size that is refuted by enumeration; greater ones are left to the solver.
const MOST_REFUTED: u32 = 7;

/// The tests of an enumeration for each conflict that a formula may have.
const TESTS_OF_CONFLICT: u32 = 8;

/// Whether some chain of at most `max` steps of the header implements its tables.
#[derive(Drop)]
pub enum Decided {
    /// This chain does.
    Shorter(Chain),
    /// No chain does.
    Least,
    /// Undecided: the certificate of a search that has spent its budget.
    Open(Certificate),
}

/// The result of a search with a certificate.
#[derive(Drop)]
pub enum Searched {
    /// This chain implements the tables, and no chain of fewer than `fewest` steps does.
    Found { chain: Chain, fewest: u32 },
    /// No chain of at most `max` steps of the header does.
    Nothing,
    /// Undecided, with the certificate.
    Open(Certificate),
}

/// The result of a search without a certificate.
#[derive(Drop)]
pub enum SizeResult {
    /// This chain implements the tables, and no chain of fewer than `low` steps does.
    Found { chain: Chain, low: u32 },
    /// No chain of at most `max` steps of the header does.
    Nothing,
    /// Undecided; no chain of fewer than `low` steps does.
    Open { low: u32 },
}

/// Whether a verdict leaves a size open.
fn is_open(verdict: Verdict) -> bool
    ensures yes { result ≡ true → IsOpenVerdict verdict }
    ensures not { result ≡ false → IsOpenVerdict verdict → ⊥ }
{
    match verdict {
        Verdict::Open { low: _ } => true,
        Verdict::Minimum(_) => false,
        Verdict::NoChain(_) => false,
        Verdict::Bounded { low: _, r: _ } => false,
    }
}

/// The lower bound that a verdict proves: no chain of fewer steps implements the specification.
#[tactic(auto, using(crate::specs::DecidedLaws::deciding))]
fn fewest_of(verdict: Verdict) -> u32
    ensures { (s : Specification) (basis : Basis) → Means s basis verdict → NoneBelow s basis result }
{
    match verdict {
        Verdict::Open { low } => low,
        Verdict::Minimum(r) => r,
        Verdict::NoChain(most) => most,
        Verdict::Bounded { low, r: _ } => low,
    }
}

/// Searches all sizes, with a certificate.
#[tactic(auto, using(crate::specs::DecidedLaws::deciding))]
pub(crate) fn search_whole<S: Solver>(
    alloc: Global,
    question: Question,
) -> Result<Searched, AllocError>
    ensures { IfOk result (λ searched. IsSearched question.entry.header.now searched) }
{
    let header = question.header;
    let certificate = search::<S, Silent>(
        alloc,
        &header.spec,
        header.basis,
        header.method,
        header.max,
        header.conflicts,
        0,
        &Silent,
    )?;
    if is_open(certificate.verdict) {
        return Ok(Searched::Open(certificate));
    }
    let fewest = fewest_of(certificate.verdict);
    let Certificate {
        header: _,
        sections: _,
        chain,
        verdict: _,
    } = certificate;
    match chain {
        Some(chain) => Ok(Searched::Found { chain, fewest }),
        None => Ok(Searched::Nothing),
    }
}

/// Whether a size is refuted by enumeration, within a number of tests in proportion to the budget. False says nothing.
fn is_refuted(alloc: Global, header: &Header, size: u32) -> Result<bool, AllocError>
    ensures { IfOk result (λ refuted. refuted ≡ true → Fewer header.now size → Fewer header.now (size + 1)) }
{
    if size > MOST_REFUTED {
        return Ok(false);
    }
    let work = header.conflicts.saturating_mul(TESTS_OF_CONFLICT);
    let refuted = refutes(alloc, &header.spec, header.basis, size, work)?;
    Ok(refuted)
}

/// Searches the sizes from `from` on, where no chain of fewer steps implements the tables.
#[tactic(auto, using(crate::specs::DecidedLaws::deciding))]
pub(crate) fn search_from<S: Solver>(
    alloc: Global,
    question: Question,
    from: u32,
) -> Result<SizeResult, AllocError>
    requires fewer { Fewer question.header.now from }
    requires from { from ≤ question.header.now.max }
    ensures { IfOk result (λ sized. IsSized question.entry.header.now sized) }
{
    for size in from..question.header.max + 1 {
        if is_refuted(alloc, question.header, size)? {
            continue;
        }
        match search_size::<S>(alloc, question.header, size)? {
            SizeOutcome::Found(chain) => return Ok(SizeResult::Found { chain, low: size }),
            SizeOutcome::Logged(section) => {
                if section.is_open() {
                    return Ok(SizeResult::Open { low: size });
                }
            }
        }
    }
    Ok(SizeResult::Nothing)
}

/// The chain without steps and outputs, for tables without outputs.
#[tactic(auto, using(crate::specs::DecidedLaws::deciding))]
pub(crate) fn no_steps(alloc: Global, header: &Header) -> Chain
    requires output { length header.now.spec.on ≡ 0 }
    ensures { IsShorter header.now result }
{
    Chain::new(header.spec.n(), Vec::new(alloc), Vec::new(alloc))
}
