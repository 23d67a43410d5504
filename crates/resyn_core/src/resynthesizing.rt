//! Resynthesis: rounds, until one changes nothing.
ghost use Rattle.std.specs.Prelude.{◌≡◌, ◌+◌, ◌≤◌, true, false, [], length, All, IfOk};
ghost use Rattle.op_basis.specs.Basis.{members};
ghost use Rattle.improve_theory.specs.Settled.{IsSettled};
ghost use Rattle.improve_theory.specs.Undecided.{candidates, IsUndecided};
ghost use Rattle.improve_theory.specs.Candidates.{AreInOrder};
ghost use Rattle.improve_theory.specs.Leading.{IsReplacement};
ghost use Rattle.improve_theory.specs.Changes.{HasChangedTimes};

use crate::attempts::Attempts;
use crate::round::{Round, make_round};
use improve_theory::Undecided;
use progress::{Progress, Tell};
use std::alloc::{AllocError, Global};

/// The result of resynthesis, besides its net.
#[derive(Drop)]
pub struct Resynthesized {
    /// Whether the last round changed nothing.
    pub settled: bool,
    /// The windows that stayed undecided, in the order of candidates. Empty where `settled` is false.
    pub undecided: Vec<Undecided>,
}

/// Resynthesizes a net in rounds, until one changes nothing (a fixpoint) or `settings.rounds` of them have
/// changed something. The cap is at least 1. Before each round structurally equal gates are merged, which isn't
/// counted as a change: the round attempts all windows after it.
///
/// The final net implements all that the first one implements. If it is settled, no window up to the cap has
/// a shorter chain, but for those that are named. Otherwise a window had a shorter chain in each of the rounds, and
/// the net has lost at least as many gates. `tell` hears of the rounds and of the roots in each.
#[tactic(auto, using(crate::specs::ResynthesizedLaws::resynthesizing))]
pub fn resynthesize<T: Attempts, W: Tell>(
    alloc: Global,
    attempts: &mut T,
    tell: &W,
) -> Result<Resynthesized, AllocError>
    requires cap { 1 ≤ (T.settings_of attempts.old).cap }
    ensures replaces { IfOk result (λ _.
        IsReplacement (members (T.settings_of attempts.old).basis) (T.net_of attempts.old) (T.net_of attempts.new)) }
    ensures settled { IfOk result (λ resynthesized. resynthesized.settled ≡ true →
        IsSettled (T.settings_of attempts.old) (T.net_of attempts.new) (candidates resynthesized.undecided.items)) }
    ensures undecided { IfOk result (λ resynthesized.
        All (IsUndecided (T.net_of attempts.new) (T.settings_of attempts.old)) resynthesized.undecided.items) }
    ensures stopped { IfOk result (λ resynthesized. resynthesized.settled ≡ false →
        length (T.net_of attempts.new).gates + (T.settings_of attempts.old).rounds ≤ length
        (T.net_of attempts.old).gates) }
    ensures rounds_changed { IfOk result (λ resynthesized. resynthesized.settled ≡ false →
        HasChangedTimes (T.settings_of attempts.old).rounds (T.settings_of attempts.old)
        (T.net_of attempts.old) (T.net_of attempts.new)) }
    ensures rising { IfOk result (λ resynthesized. AreInOrder (candidates resynthesized.undecided.items)) }
    ensures none { IfOk result (λ resynthesized. resynthesized.settled ≡ false → resynthesized.undecided.items ≡ []) }
{
    let rounds = attempts.settings().rounds;
    for _round in 0..rounds {
        tell.tell(Progress::Round);
        attempts.strash(alloc)?;
        let mut round = Round {
            changed: false,
            named: Vec::new(alloc),
        };
        make_round(alloc, attempts, &mut round, tell)?;
        let Round { changed, named } = round;
        if !changed {
            return Ok(Resynthesized {
                settled: true,
                undecided: named,
            });
        }
    }
    Ok(Resynthesized {
        settled: false,
        undecided: Vec::new(alloc),
    })
}
