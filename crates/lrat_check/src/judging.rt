//! Whether a line holds, and its fault if it doesn't: the definitions of `specs/Judging`, with marks for the set
//! of literals.
ghost use Rattle.std.specs.Prelude.{◌≡◌, ℤ, false, length, All, OnOk, IfOk};
ghost use Rattle.sat_theory.specs.Holding.{among};
ghost use Rattle.lrat_check.specs.Live.{live_at, AreWithin};
ghost use Rattle.lrat_check.specs.LiteralMarks.{marked, HasRoom, HasStamps};
ghost use Rattle.lrat_check.specs.Hints.{error_in};
ghost use Rattle.lrat_check.specs.Judging as spec;
ghost use Rattle.lrat_check.specs.Seen.{seen_in, Judges};

use crate::CheckError;
use crate::clauses::Clauses;
use crate::hints::check_hints;
use crate::marks::LiteralMarks;
use cnf_core::Lit;
use std::alloc::{AllocError, Global};
use std::collections::HashSet;

/// Checks an addition. The marks are cleared first, so their state before doesn't matter.
#[tactic(auto, using(crate::proofs::Stamped::stamped))]
pub(crate) fn judge_addition(
    clauses: &Clauses,
    marks: &mut LiteralMarks,
    vars: u32,
    greatest: u32,
    id: u32,
    lits: &[Lit],
    hints: &[u32],
) -> Result<(), CheckError>
    requires room { HasRoom marks.old vars }
    requires within { AreWithin vars (live_at clauses.now) }
    ensures exact { error_in result ≡ spec.addition_fault (record {
      live = live_at clauses.now;
      vars = vars;
      greatest = greatest;
    }) id lits.now hints.now }
    ensures room { HasRoom marks.new vars }
{
    if id <= greatest {
        return Err(CheckError::IdNotGreater(id));
    }
    if let Some(variable) = first_above(vars, lits) {
        return Err(CheckError::UnknownVariable(variable));
    }
    marks.clear();
    mark_all(marks, lits);
    check_hints(clauses, marks, hints)
}

/// The first variable of `lits` above `vars`.
fn first_above(vars: u32, lits: &[Lit]) -> Option<u32>
    ensures { result ≡ spec.first_above vars lits.now }
{
    lits.iter()
        .map(|lit| lit.variable())
        .find(|variable| *variable > vars)
}

/// Marks literals, in an empty set.
#[tactic(auto, using(crate::proofs::Marking::marking))]
fn mark_all(marks: &mut LiteralMarks, lits: &[Lit])
    requires empty { (l : ℤ) → marked marks.old l ≡ false }
    requires room { All (HasStamps marks.old) lits.now }
    ensures set { marked marks.new ≡ among lits.now }
    ensures room { length marks.new.stamps ≡ length marks.old.stamps }
{
    for lit in lits {
        marks.add(*lit);
    }
}

/// Checks a deletion.
#[tactic(auto, unfolding(crate::specs::Judging::deletion_fault), using(crate::proofs::SeenIds::seeing))]
pub(crate) fn judge_deletion(
    alloc: Global,
    clauses: &Clauses,
    ids: &[u32],
) -> Result<(), CheckError>
    ensures { Judges result (spec.deletion_fault (live_at clauses.now) spec.no_ids ids.now) }
{
    let mut seen = HashSet::new(alloc);
    let mut left = ids;
    while let Some((id, after)) = left.split_first() {
        if clauses.get(*id).is_none() || comes_again(&mut seen, *id)? {
            return Err(CheckError::UnknownDelete(*id));
        }
        left = after;
    }
    Ok(())
}

/// Whether an id was seen before; it is recorded.
fn comes_again(seen: &mut HashSet<u32>, id: u32) -> Result<bool, AllocError>
    ensures again { IfOk result (λ yes. yes ≡ seen_in seen.old id) }
    ensures seen { OnOk result (seen_in seen.new ≡ spec.with_id (seen_in seen.old) id) }
{
    Ok(!seen.insert(id)?)
}
