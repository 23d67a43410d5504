//! Whether a list of literals follows by hints, as an addition of a log has to (reverse unit propagation,
//! RUP). The set that grows along the hints is a list, whose membership test is that of the definition
//! (`among`), so each iteration of the loop is a step of the definition (`HintsHold`).
ghost use Rattle.std.specs.Prelude.{◌≡◌, ◌↔◌, true, not, All, Contains, IsTrue, IfOk, IfSome, OnOk};
ghost use Rattle.std.specs.List.{filter};
ghost use Rattle.sat_theory.specs.Formula.{IsClause};
ghost use Rattle.sat_theory.specs.Holding.{among, IsUnitOutside, HintsHold};
ghost use Rattle.clause_db.specs.Stored.{live_in};

use clause_db::ClauseDb;
use cnf_core::Lit;
use std::alloc::AllocError;

/// Whether a list of literals follows by hints from live clauses, as an addition of a log has to. `known` is
/// scratch space.
pub fn holds(
    clauses: &ClauseDb,
    lits: &[Lit],
    hints: &[u32],
    known: &mut Vec<Lit>,
) -> Result<bool, AllocError>
    ensures { IfOk result (λ yes. IsTrue yes → HintsHold (live_in clauses.now) (among lits.now) hints.now) }
{
    known.clear();
    known.extend_from_slice(lits)?;
    hold_from(clauses, hints, known)
}

/// Whether hints hold from a set, which grows along them.
fn hold_from(clauses: &ClauseDb, hints: &[u32], set: &mut Vec<Lit>) -> Result<bool, AllocError>
    ensures { IfOk result (λ yes. IsTrue yes → HintsHold (live_in clauses.now) (among set.old.items) hints.now) }
{
    let mut left = hints;
    while let Some((hint, more)) = left.split_first() {
        if !clauses.live(*hint) {
            return Ok(false);
        }
        let lits = clauses.arranged(*hint);
        if more.is_empty() {
            return Ok(all_among(set, lits));
        }
        let Some(lit) = unit_outside(set, lits) else {
            return Ok(false);
        };
        set.push(lit.opposite())?;
        left = more;
    }
    Ok(false)
}

/// The one literal of a clause that isn't in a set, if there is exactly one.
fn unit_outside(set: &[Lit], lits: &[Lit]) -> Option<Lit>
    ensures { IfSome result (IsUnitOutside (among set.now) lits.now) }
{
    let mut found: Option<Lit> = None;
    for lit in lits {
        if is_among(set, *lit) {
            continue;
        }
        if found.is_some() {
            return None;
        }
        found = Some(*lit);
    }
    found
}

/// Whether all of `inner` are among `lits`.
pub fn contains_all(lits: &[Lit], inner: &[Lit]) -> bool
    ensures inside { IsTrue result → All (Contains lits.now) inner.now }
    ensures only { All (Contains lits.now) inner.now → IsTrue result }
{
    all_among(lits, inner)
}

/// Whether the set of a list has all literals of another one.
fn all_among(set: &[Lit], lits: &[Lit]) -> bool
    ensures { IsTrue result ↔ All (λ l. among set.now l ≡ true) lits.now }
{
    lits.iter().all(|lit| is_among(set, *lit))
}

/// Whether a literal is in the set of a list.
fn is_among(set: &[Lit], lit: Lit) -> bool
    ensures { result ≡ among set.now lit }
{
    set.iter().any(|member| lit == *member)
}

/// Replaces the contents of `kept` by the literals of `lits` that aren't in `gone`, in their order.
pub fn keep_others(lits: &[Lit], gone: &[Lit], kept: &mut Vec<Lit>) -> Result<(), AllocError>
    ensures exact { OnOk result (kept.new.items ≡ filter (λ l. not (among gone.now l)) lits.now) }
    ensures inside { OnOk result (All (Contains lits.now) kept.new.items) }
    ensures clause { IsClause lits.now → OnOk result (IsClause kept.new.items) }
{
    copy_others(lits, gone, kept)?;
    Ok(())
}

/// The same, as an equation alone.
fn copy_others(lits: &[Lit], gone: &[Lit], kept: &mut Vec<Lit>) -> Result<(), AllocError>
    ensures { OnOk result (kept.new.items ≡ filter (λ l. not (among gone.now l)) lits.now) }
{
    kept.clear();
    for lit in lits {
        if is_among(gone, *lit) {
            continue;
        }
        kept.push(*lit)?;
    }
    Ok(())
}
