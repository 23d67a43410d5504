//! The search: first a chain with the fewest steps, then the fences with fewer levels than it has, level by level.
ghost use Rattle.std.specs.Prelude.{◌≡◌, ℕ, ◌≤◌, ◌<◌, ◌+◌, ◌++◌, Some, IfOk, OnOk};
ghost use Rattle.settings.specs.declared.methods.MethodChoice.TheVariants.{Named};
ghost use Rattle.settings.specs.Synth.{IsInRange};
ghost use Rattle.chain_theory.specs.Levels.{depth};
ghost use Rattle.settings.specs.declared.methods.Method.TheVariants.{Fence};
ghost use Rattle.cert_theory.specs.Certificate.{IsHeader, IsFound, IsValid};
ghost use Rattle.cert_theory.specs.LiveBounds.{HaveLiveBounds};
ghost use Rattle.depth_theory.specs.DepthCertificate.{open_levels as open_levels_of, levels_found};
ghost use Rattle.depth_core.specs.Flattened.{IsFlattest, IsDepthResult, AreSearched, minimum_of};

use crate::DepthCertificate;
use crate::levels::{LevelOutcome, flatter_than, open_levels, search_level};
use cert_theory::{Certificate, Header, Section, SubproblemLog, Verdict};
use chain_core::{Chain, depth_of};
use depth_theory::DepthVerdict;
use enc_base::Encoding;
use enc_fence::FenceEnc;
use op_basis::Basis;
use progress::Tell;
use sat_solve::Solver;
use settings::Method;
use size_loop::search;
use std::alloc::{AllocError, Global};
use tt_core::Spec;

/// The result of a search for the fewest steps and levels.
#[derive(Drop)]
pub enum DepthResult {
    /// A chain with the fewest steps was found, and the fences with fewer levels were searched.
    Least(DepthCertificate),
    /// The fewest steps aren't known, or no chain is within `max`: a certificate whose verdict isn't a minimum.
    Other(Certificate),
}

/// A chain of `levels` levels, and the logs `subproblems` of the fences with fewer levels.
#[derive(Drop)]
struct FlattestChain {
    chain: Chain,
    subproblems: Vec<SubproblemLog>,
    levels: u32,
}

/// Appends the logs of one more level.
fn add_logs(logs: &mut Vec<SubproblemLog>, more: Vec<SubproblemLog>) -> Result<(), AllocError>
    ensures { OnOk result (logs.new.items ≡ logs.old.items ++ more.items) }
{
    for log in more {
        logs.push(log)?;
    }
    Ok(())
}

/// Searches the fences of `size` with fewer levels than `chain` has, level by level. The first chain found is the
/// flattest. The result has it and the logs of all fences with fewer levels.
#[tactic(auto, using(crate::proofs::LevelLogs::flattening))]
fn flatten<S: Solver, T: Tell>(
    alloc: Global,
    header: &Header,
    size: u32,
    chain: Chain,
    tell: &T,
) -> Result<FlattestChain, AllocError>
    requires header { IsHeader header.now }
    requires by_fences { header.now.method ≡ Fence }
    requires size { size ≤ header.now.max }
    requires found { IsFound header.now size chain }
    ensures flattest { IfOk result (λ flattest. IsFlattest header.now size flattest.chain flattest.subproblems.items) }
    ensures levels { IfOk result (λ flattest. flattest.levels ≡ depth flattest.chain) }
{
    let deepest = depth_of(alloc, &chain)?;
    let subproblems = FenceEnc.subproblems(alloc, &header.spec, size)?;
    let mut logs = Vec::new(alloc);
    for levels in 0..deepest {
        match search_level::<S, T>(alloc, header, size, &subproblems, levels as usize, tell)? {
            LevelOutcome::Found(chain) => {
                let levels = depth_of(alloc, &chain)?;
                let kept = flatter_than(alloc, logs, levels as usize)?;
                return Ok(FlattestChain {
                    chain,
                    subproblems: kept,
                    levels,
                });
            }
            LevelOutcome::Logged(more) => add_logs(&mut logs, more)?,
        }
    }
    Ok(FlattestChain {
        chain,
        subproblems: logs,
        levels: deepest,
    })
}

/// The verdict on a chain of `levels` levels, from the logs `subproblems` of the fences with fewer levels.
fn verdict_of(subproblems: &[SubproblemLog], levels: u32) -> DepthVerdict
    requires below { (low : ℕ) → open_levels_of subproblems.now ≡ Some low → low < levels }
    ensures { result ≡ levels_found (open_levels_of subproblems.now) levels }
{
    match open_levels(subproblems) {
        None => DepthVerdict::Levels(levels),
        Some(low) => DepthVerdict::Bounded {
            low: low as u32,
            levels,
        },
    }
}

/// The fewest steps, if the certificate's verdict is a minimum.
fn minimum_in(certificate: &Certificate) -> Option<u32>
    ensures { result ≡ minimum_of certificate.now.verdict }
{
    match certificate.verdict {
        Verdict::Minimum(size) => Some(size),
        Verdict::NoChain(_) | Verdict::Bounded { .. } | Verdict::Open { .. } => None,
    }
}

/// The depth certificate for a certificate whose verdict is a minimum.
#[tactic(auto, using(crate::proofs::LevelLogs::bundling))]
fn least<S: Solver, T: Tell>(
    alloc: Global,
    header: Header,
    sections: Vec<Section>,
    chain: Chain,
    size: u32,
    tell: &T,
) -> Result<DepthResult, AllocError>
    requires by_fences { header.method ≡ Fence }
    requires searched { AreSearched header sections.items chain size }
    ensures { IfOk result (λ deep. IsDepthResult header deep) }
{
    let FlattestChain {
        chain,
        subproblems,
        levels,
    } = flatten::<S, T>(alloc, &header, size, chain, tell)?;
    let verdict = verdict_of(&subproblems, levels);
    let certificate = Certificate {
        header,
        sections,
        chain: Some(chain),
        verdict: Verdict::Minimum(size),
    };
    Ok(DepthResult::Least(DepthCertificate {
        certificate,
        subproblems,
        verdict,
    }))
}

/// The depth certificate for a certificate whose verdict is a minimum of `size` steps: takes it apart and searches
/// on.
#[tactic(auto, using(crate::proofs::LevelLogs::searching))]
fn deepened<S: Solver, T: Tell>(
    alloc: Global,
    certificate: Certificate,
    size: u32,
    tell: &T,
) -> Result<DepthResult, AllocError>
    requires by_fences { certificate.header.method ≡ Fence }
    requires valid { IsValid certificate }
    requires live_bounds { HaveLiveBounds certificate.header certificate.sections }
    requires minimum { minimum_of certificate.verdict ≡ Some size }
    ensures { IfOk result (λ deep. IsDepthResult certificate.header deep) }
{
    let Certificate {
        header,
        sections,
        chain,
        verdict: _,
    } = certificate;
    match chain {
        Some(chain) => least::<S, T>(alloc, header, sections, chain, size, tell),
        None => unreachable!(),
    }
}

/// Searches the sizes from 0 to `max` by fences with the solver `S` for a chain of the fewest steps over the basis
/// that implements the tables, and among the chains of that size for one of the fewest levels. A subproblem is
/// left open once the solver has learnt at least `budget` clauses. `effort` is a factor for the work of the walks, 0
/// for no walk. The basis isn't empty, and `max` and `budget` are in the ranges of `settings`. `tell` hears of each
/// subproblem.
#[tactic(auto, using(crate::proofs::LevelLogs::searching))]
pub fn least_depth<S: Solver, T: Tell>(
    alloc: Global,
    spec: &Spec,
    basis: Basis,
    max: u32,
    budget: u32,
    effort: u32,
    tell: &T,
) -> Result<DepthResult, AllocError>
    requires settings { IsInRange (record {
      basis = basis;
      method = Named Fence;
      max = max;
      conflicts = budget;
      effort = 0;
    }) }
    ensures { IfOk result (λ deep. IsDepthResult (record {
      spec = spec.now;
      basis = basis;
      method = Fence;
      conflicts = budget;
      max = max;
    }) deep) }
{
    let certificate = search::<S, T>(alloc, spec, basis, Method::Fence, max, budget, effort, tell)?;
    match minimum_in(&certificate) {
        Some(size) => deepened::<S, T>(alloc, certificate, size, tell),
        None => Ok(DepthResult::Other(certificate)),
    }
}
