//! One round: every window is attempted in order.
ghost use Rattle.std.specs.Prelude.{◌+◌, ◌≤◌, IfOk, OnOk};
ghost use Rattle.improve_theory.specs.Candidates.{IsThis, IsOfCounts, IsOfPartners, IsOfRoot};
ghost use Rattle.improve_theory.specs.Candidates.{IsOfRoots};
ghost use Rattle.improve_theory.specs.Candidates.{IsNextPartner};
ghost use Rattle.net_theory.specs.Net.{end_of};
ghost use Rattle.resyn_core.specs.Resynthesized.{loop_state, IsResynthesized};

use crate::attempts::{Attempted, Attempts};
use crate::nodes::{end_node, first_node, has_gate};
use improve_theory::{Undecided, WindowCandidate};
use progress::{Progress, Tell};
use std::alloc::{AllocError, Global};
use std::marker::Model;

/// A round so far: whether it has changed the net, and, if not, the candidates that it left undecided. Once
/// it has changed the net it names no more, since their certificates would be discarded at the end of the
/// round.
#[derive(Drop)]
pub struct Round {
    pub changed: bool,
    pub named: Vec<Undecided>,
}

impl Model for Round {
    ghost use Rattle.resyn_core.specs.Resynthesized as theory;

    ghost Value = { theory.Round };

    ghost view = { λ r. record { changed = r.changed; named = r.named.items } };
}

/// Attempts a candidate, unless its root is no gate.
#[tactic(auto, using(crate::specs::ResynthesizedLaws::attempting))]
fn attempt_candidate<T: Attempts>(
    alloc: Global,
    attempts: &mut T,
    round: &mut Round,
    candidate: WindowCandidate,
) -> Result<(), AllocError>
    requires from { 1 ≤ candidate.count }
    requires to { candidate.count ≤ (T.settings_of attempts.old).cap }
    ensures { OnOk result (IsResynthesized (IsThis candidate)
        (loop_state (T.settings_of attempts.old) (T.net_of attempts.old) round.old)
        (loop_state (T.settings_of attempts.new) (T.net_of attempts.new) round.new)) }
{
    if !has_gate(attempts.net(), candidate.root) {
        return Ok(());
    }
    match attempts.attempt(alloc, candidate)? {
        Attempted::NoGain => {}
        Attempted::Open(search) => {
            if round.changed {
                return Ok(());
            }
            round.named.push(Undecided { candidate, search })?;
        }
        Attempted::Accepted => {
            round.changed = true;
            round.named.clear();
        }
    }
    Ok(())
}

/// Attempts a root with a partner or none, by the counts from `first` to the cap.
#[tactic(auto, using(crate::specs::ResynthesizedLaws::attempting))]
fn attempt_counts<T: Attempts>(
    alloc: Global,
    attempts: &mut T,
    round: &mut Round,
    root: u32,
    partner: Option<u32>,
    first: u32,
) -> Result<(), AllocError>
    requires first { 1 ≤ first }
    requires within { first ≤ (T.settings_of attempts.old).cap + 1 }
    ensures { OnOk result (IsResynthesized (IsOfCounts root partner first ((T.settings_of attempts.old).cap + 1))
        (loop_state (T.settings_of attempts.old) (T.net_of attempts.old) round.old)
        (loop_state (T.settings_of attempts.new) (T.net_of attempts.new) round.new)) }
{
    let end = attempts.settings().cap + 1;
    for count in first..end {
        attempt_candidate(
            alloc,
            attempts,
            round,
            WindowCandidate {
                root,
                partner,
                count,
            },
        )?;
    }
    Ok(())
}

/// The greatest partner of a root below `below`; None where there is none, or the root is no gate.
fn next_partner<T: Attempts>(
    alloc: Global,
    attempts: &T,
    root: u32,
    below: u32,
) -> Result<Option<u32>, AllocError>
    ensures { IfOk result (λ next. IsNextPartner (T.net_of attempts.now) root below next) }
{
    if !has_gate(attempts.net(), root) {
        return Ok(None);
    }
    attempts.next_partner(alloc, root, below)
}

/// Attempts a root with each of its partners, from the greatest to the least.
#[tactic(auto, using(crate::specs::ResynthesizedLaws::attempting))]
fn attempt_partners<T: Attempts>(
    alloc: Global,
    attempts: &mut T,
    round: &mut Round,
    root: u32,
) -> Result<(), AllocError>
    requires cap { 1 ≤ (T.settings_of attempts.old).cap }
    ensures { OnOk result (IsResynthesized (IsOfPartners root (T.settings_of attempts.old).cap 0)
        (loop_state (T.settings_of attempts.old) (T.net_of attempts.old) round.old)
        (loop_state (T.settings_of attempts.new) (T.net_of attempts.new) round.new)) }
{
    let mut below = root;
    loop {
        match next_partner(alloc, attempts, root, below)? {
            None => return Ok(()),
            Some(partner) => {
                attempt_counts(alloc, attempts, round, root, Some(partner), 2)?;
                below = partner;
            }
        }
    }
}

/// Attempts a root without a partner, and then with each of its partners.
#[tactic(auto, using(crate::specs::ResynthesizedLaws::attempting))]
fn attempt_root<T: Attempts>(
    alloc: Global,
    attempts: &mut T,
    round: &mut Round,
    root: u32,
) -> Result<(), AllocError>
    requires cap { 1 ≤ (T.settings_of attempts.old).cap }
    ensures { OnOk result (IsResynthesized (IsOfRoot root (T.settings_of attempts.old).cap)
        (loop_state (T.settings_of attempts.old) (T.net_of attempts.old) round.old)
        (loop_state (T.settings_of attempts.new) (T.net_of attempts.new) round.new)) }
{
    attempt_counts(alloc, attempts, round, root, None, 1)?;
    attempt_partners(alloc, attempts, round, root)?;
    Ok(())
}

/// Makes a round: attempts all roots of the initial net, in ascending order. `tell` hears of each.
#[tactic(auto, using(crate::specs::ResynthesizedLaws::attempting))]
pub fn make_round<T: Attempts, W: Tell>(
    alloc: Global,
    attempts: &mut T,
    round: &mut Round,
    tell: &W,
) -> Result<(), AllocError>
    requires cap { 1 ≤ (T.settings_of attempts.old).cap }
    ensures { OnOk result (IsResynthesized (IsOfRoots (T.settings_of attempts.old).cap
        (end_of (T.net_of attempts.old)))
        (loop_state (T.settings_of attempts.old) (T.net_of attempts.old) round.old)
        (loop_state (T.settings_of attempts.new) (T.net_of attempts.new) round.new)) }
{
    let first = first_node(attempts.net());
    let end = end_node(attempts.net());
    for root in first..end {
        tell.tell(Progress::Root {
            done: root.saturating_sub(first),
            all: end.saturating_sub(first),
        });
        attempt_root(alloc, attempts, round, root)?;
    }
    Ok(())
}
