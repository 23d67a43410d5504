//! The first step of a search: unit clauses aren't watched, so they are assigned once, at level 0.
ghost use Rattle.std.specs.Prelude.{◌≡◌, [], IfOk, IfSome, IfNone};
ghost use Rattle.cdcl_theory.specs.Propagation.{IsFalsified};
ghost use Rattle.cdcl_theory.specs.Trails.{IsTrail, IsGrown, falsified_at as falsified_in};
ghost use Rattle.clause_db.specs.Stored.{live_in};
ghost use Rattle.cdcl_core.specs.WatchInvariant.{KeepsWatchInvariant};

use crate::judgement::{ClauseStatus, judge};
use clause_db::ClauseDb;
use std::alloc::AllocError;
use trail_core::Trail;

/// Assigns the literals of all live unit clauses. It stops at a falsified one, and returns its id.
pub(crate) fn push_units(trail: &mut Trail, clauses: &ClauseDb) -> Result<Option<u32>, AllocError>
    requires whole { IsTrail trail.old }
    requires vars { clauses.now.vars ≡ trail.old.vars }
    ensures whole { IsTrail trail.new }
    ensures grown { IfOk result (λ _. IsGrown (live_in clauses.now) trail.old trail.new) }
    ensures guarded { IfOk result (λ found. IfNone found
        (KeepsWatchInvariant clauses.now (falsified_in trail.new) [] 0)) }
    ensures conflict { IfOk result (λ found. IfSome found
        (IsFalsified (live_in clauses.now) (falsified_in trail.new))) }
{
    for index in 0..clauses.last() {
        let id = index + 1;
        if !clauses.live(id) || clauses.arranged(id).len() > 1 {
            continue;
        }
        match judge(trail, clauses.arranged(id)) {
            ClauseStatus::Settled => continue,
            ClauseStatus::Falsified => return Ok(Some(id)),
            ClauseStatus::Unit(lit) => trail.push(lit, id)?,
        }
    }
    Ok(None)
}
