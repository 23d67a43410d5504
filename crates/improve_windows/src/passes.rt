//! An improved net: cleanup, functional hashing of large nets with at most 12 sources, moves over the whole net,
//! resynthesis of the listed windows, and both again in the stages of the effort. A listed window is that of a root, of
//! a partner or none, and of a number of gates up to the cap.
//!
//! A stage begins with the least net so far, and doesn't depend on the effort, which says how many there are. None
//! makes the net larger. So a greater effort never leaves more gates.
ghost use Rattle.std.specs.Prelude.{◌≤◌, IfOk, IfSome};
ghost use Rattle.op_basis.specs.Basis.{members};
ghost use Rattle.net_theory.specs.Implements.{IsCleanedUp};
ghost use Rattle.settings.specs.Improve.{IsInRange};
ghost use Rattle.improve_theory.specs.Leading.{IsReplacement};
ghost use Rattle.improve_theory.specs.Improvement.{IsResynthesisOf, IsImprovementBy};

use crate::stages::{first_patience, first_work, stage_work};
use improve_theory::Undecided;
use net_core::{Net, remove_dangling};
use progress::{Progress, Tell};
use restructure::Moves;
use resyn_core::{Resynthesized, resynthesize};
use sat_solve::Solver;
use settings::ImproveSettings;
use std::alloc::{AllocError, Global};
use thresholds::LEAST_MOVED_GATES;
use window_attempt::{WindowAttempts, many_merged};

/// An improved net.
#[derive(Drop)]
pub struct ImprovedNet {
    pub net: Net,
    /// Whether no listed window up to the cap has a shorter chain, but for those that are undecided.
    pub settled: bool,
    /// The windows that stayed undecided, in the order of candidates. Empty where `settled` is false.
    pub undecided: Vec<Undecided>,
}

/// Resynthesizes a net, until no window up to the cap has a shorter chain, or `settings.rounds` rounds have
/// changed something.
#[tactic(auto, using(crate::specs::ImprovementLaws::improving))]
fn resynthesized<S: Solver, T: Tell>(
    alloc: Global,
    net: Net,
    settings: &ImproveSettings,
    tell: &T,
) -> Result<ImprovedNet, AllocError>
    requires range { IsInRange settings.now }
    requires cap { 1 ≤ settings.now.cap }
    ensures { IfOk result (λ left. IsResynthesisOf settings.now net left.net left.settled left.undecided.items) }
{
    let mut attempts = WindowAttempts::<S>::new(alloc, net, *settings)?;
    let Resynthesized { settled, undecided } = resynthesize(alloc, &mut attempts, tell)?;
    Ok(ImprovedNet {
        net: attempts.into_net(),
        settled,
        undecided,
    })
}

/// A smaller net, if the moves have found one.
#[tactic(auto, using(crate::specs::ImprovementLaws::improving))]
fn found_by<S: Solver>(
    moves: &mut Moves,
    net: &Net,
    settings: &ImproveSettings,
) -> Result<Option<Net>, AllocError>
    ensures { IfOk result (λ found. IfSome found (IsReplacement (members settings.now.basis) net.now)) }
{
    match moves.smaller::<S>(net, settings.basis)? {
        Some(smaller) => Ok(Some(smaller)),
        None => Ok(None),
    }
}

/// A smaller net after so much more work of moves over the whole net, if they find one; none without work.
#[tactic(auto, using(crate::specs::ImprovementLaws::improving))]
fn moved<S: Solver>(
    moves: &mut Moves,
    net: &Net,
    settings: &ImproveSettings,
    work: u64,
) -> Result<Option<Net>, AllocError>
    ensures { IfOk result (λ found. IfSome found (IsReplacement (members settings.now.basis) net.now)) }
{
    if work == 0 {
        return Ok(None);
    }
    moves.run(net, work)?;
    found_by::<S>(moves, net, settings)
}

/// The net after the first stage of moves, which only a net of at least `LEAST_MOVED_GATES` gates goes through.
#[tactic(auto, using(crate::specs::ImprovementLaws::improving))]
fn after_moves<S: Solver>(
    moves: &mut Moves,
    net: Net,
    settings: &ImproveSettings,
) -> Result<Net, AllocError>
    ensures { IfOk result (IsReplacement (members settings.now.basis) net) }
{
    let gates = net.gates().len();
    if gates < LEAST_MOVED_GATES {
        return Ok(net);
    }
    moves.begin(first_work(gates), first_patience(gates))?;
    let found = found_by::<S>(moves, &net, settings)?;
    Ok(found.unwrap_or(net))
}

/// Moves over the whole net, and then resynthesis. The stages of `settings.effort` follow: in each the moves go on, and
/// where they find a smaller net, it is resynthesized.
#[tactic(auto, using(crate::specs::ImprovementLaws::improving))]
fn improved<S: Solver, T: Tell>(
    alloc: Global,
    net: Net,
    settings: &ImproveSettings,
    tell: &T,
) -> Result<ImprovedNet, AllocError>
    requires range { IsInRange settings.now }
    requires cap { 1 ≤ settings.now.cap }
    requires itself { IsCleanedUp net net }
    ensures { IfOk result (λ left. IsResynthesisOf settings.now net left.net left.settled left.undecided.items) }
{
    let net = many_merged(alloc, net, settings.cap)?;
    let mut moves = Moves::new(alloc, &net, settings.basis, settings.seed)?;
    let best = after_moves::<S>(&mut moves, net, settings)?;
    tell.tell(Progress::Gates(best.gates().len()));
    let mut left = resynthesized::<S, T>(alloc, best, settings, tell)?;
    for effort in 0..settings.effort {
        tell.tell(Progress::Gates(left.net.gates().len()));
        let work = stage_work(effort.saturating_add(1), left.net.gates().len());
        match moved::<S>(&mut moves, &left.net, settings, work)? {
            None => continue,
            Some(smaller) => left = resynthesized::<S, T>(alloc, smaller, settings, tell)?,
        }
    }
    Ok(left)
}

/// Improves a net by the passes of the file's head, until no listed window up to the cap has a shorter chain, or
/// `settings.rounds` rounds have changed something. With a cap of 0 there is only the cleanup.
#[tactic(auto, using(crate::specs::ImprovementLaws::improving))]
pub fn improve_net<S: Solver, T: Tell>(
    alloc: Global,
    net: &Net,
    settings: ImproveSettings,
    tell: &T,
) -> Result<ImprovedNet, AllocError>
    requires { IsInRange settings }
    ensures { IfOk result (λ left. IsImprovementBy settings net.now left.net left.settled left.undecided.items) }
{
    // for the prover: brings the net's invariant into the proof
    let _gates = net.gates();
    let tidy = remove_dangling(alloc, net)?;
    if settings.cap == 0 {
        return Ok(ImprovedNet {
            net: tidy,
            settled: true,
            undecided: Vec::new(alloc),
        });
    }
    let left = improved::<S, T>(alloc, tidy, &settings, tell)?;
    Ok(left)
}
