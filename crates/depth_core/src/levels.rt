//! The fences with one number of levels, in their order. The first one with a chain ends the search; if none has
//! one, there is a log for each.
ghost use Rattle.std.specs.Prelude.{◌≡◌, ◌≤◌, ◌<◌, IfOk, Contains};
ghost use Rattle.std.specs.List.{filter};
ghost use Rattle.settings.specs.declared.methods.Method.TheVariants.{Fence};
ghost use Rattle.cert_theory.specs.Certificate.{SubproblemLog, IsHeader};
ghost use Rattle.depth_theory.specs.DepthCertificate.{subproblem_levels, open_levels as open_levels_of};
ghost use Rattle.enc_theory.specs.Subproblems.{subproblems_for};
ghost use Rattle.depth_core.specs.Flattened.{IsTriedLow, IsLevel, at_level, is_flatter};

use cert_theory::{Header, LogEnd, SubproblemLog};
use chain_core::Chain;
use enc_fence::FenceEnc;
use enc_theory::Subproblem;
use progress::{Progress, Tell};
use sat_solve::Solver;
use size_loop::{SubproblemOutcome, try_subproblem};
use std::alloc::{AllocError, Global};

/// The result for the fences with `levels` levels.
#[derive(Drop)]
pub(crate) enum LevelOutcome {
    /// A chain of the size with at most `levels` levels.
    Found(Chain),
    /// The logs of these fences; none has a chain.
    Logged(Vec<SubproblemLog>),
}

/// The number of levels of a subproblem's fence.
pub(crate) fn levels_in(subproblem: &Subproblem) -> usize
    ensures { result ≡ subproblem_levels subproblem.now }
{
    match subproblem {
        Subproblem::Levels(fence) => fence.levels().len(),
        Subproblem::Whole => 0,
    }
}

/// A copy of a subproblem.
fn copied(alloc: Global, subproblem: &Subproblem) -> Result<Subproblem, AllocError>
    ensures { IfOk result (λ copy. copy ≡ subproblem.now) }
{
    match subproblem {
        Subproblem::Levels(fence) => {
            let levels = Vec::from_slice(alloc, fence.levels())?;
            Ok(Subproblem::Levels(fence_core::Fence::new(levels)))
        }
        Subproblem::Whole => Ok(Subproblem::Whole),
    }
}

/// Copies of the subproblems whose fences have `levels` levels, in their order.
#[tactic(auto, using(crate::proofs::LevelLogs::picked))]
fn with_levels(
    alloc: Global,
    subproblems: &[Subproblem],
    levels: usize,
) -> Result<Vec<Subproblem>, AllocError>
    ensures { IfOk result (λ own. own.items ≡ filter (at_level levels) subproblems.now) }
{
    let mut own = Vec::new(alloc);
    let mut left = subproblems;
    while let Some((subproblem, rest)) = left.split_first() {
        left = rest;
        if levels_in(subproblem) == levels {
            own.push(copied(alloc, subproblem)?)?;
        }
    }
    Ok(own)
}

/// Searches a subproblem of `size` by fences with the solver `S`.
fn try_fence<S: Solver>(
    alloc: Global,
    header: &Header,
    size: u32,
    subproblem: Subproblem,
) -> Result<SubproblemOutcome, AllocError>
    requires header { IsHeader header.now }
    requires by_fences { header.now.method ≡ Fence }
    requires size { size ≤ header.now.max }
    requires subproblem { Contains (subproblems_for header.now.spec size) subproblem }
    ensures { IfOk result (λ outcome. IsTriedLow header.now size subproblem outcome) }
{
    let outcome = try_subproblem::<S, FenceEnc>(alloc, &FenceEnc, header, size, subproblem)?;
    Ok(outcome)
}

/// Searches those of the subproblems `subproblems` of `size` whose fences have `levels` levels, with the solver `S`.
/// `tell` hears of each.
#[tactic(auto, using(crate::proofs::LevelLogs::levels))]
pub(crate) fn search_level<S: Solver, T: Tell>(
    alloc: Global,
    header: &Header,
    size: u32,
    subproblems: &[Subproblem],
    levels: usize,
    tell: &T,
) -> Result<LevelOutcome, AllocError>
    requires header { IsHeader header.now }
    requires by_fences { header.now.method ≡ Fence }
    requires size { size ≤ header.now.max }
    requires subproblems { subproblems.now ≡ subproblems_for header.now.spec size }
    ensures { IfOk result (λ level. IsLevel header.now size levels level) }
{
    let mut logs = Vec::new(alloc);
    let own = with_levels(alloc, subproblems, levels)?;
    let all = own.len();
    for subproblem in own {
        tell.tell(Progress::Subproblem {
            size,
            number: logs.len().saturating_add(1),
            all,
        });
        match try_fence::<S>(alloc, header, size, subproblem)? {
            SubproblemOutcome::Found(chain) => return Ok(LevelOutcome::Found(chain)),
            SubproblemOutcome::Logged(log) => {
                tell.tell(Progress::Logged(log.log.len()));
                logs.push(log)?
            }
        }
    }
    Ok(LevelOutcome::Logged(logs))
}

/// The logs whose fences have fewer than `levels` levels.
#[tactic(auto, using(crate::proofs::LevelLogs::kept))]
pub(crate) fn flatter_than(
    alloc: Global,
    logs: Vec<SubproblemLog>,
    levels: usize,
) -> Result<Vec<SubproblemLog>, AllocError>
    ensures { IfOk result (λ kept. kept.items ≡ filter (is_flatter levels) logs.items) }
{
    let mut kept = Vec::new(alloc);
    for log in logs {
        if levels_in(&log.subproblem) < levels {
            kept.push(log)?;
        }
    }
    Ok(kept)
}

/// The number of levels of the first open fence.
#[tactic(auto, using(crate::proofs::LevelLogs::opened))]
pub(crate) fn open_levels(subproblems: &[SubproblemLog]) -> Option<usize>
    ensures { result ≡ open_levels_of subproblems.now }
{
    let mut left = subproblems;
    while let Some((subproblem, rest)) = left.split_first() {
        if subproblem.ended == LogEnd::Open {
            return Some(levels_in(&subproblem.subproblem));
        }
        left = rest;
    }
    None
}
