//! Sharing in AND and XOR trees, kind by kind; a result with no more gates is kept.
ghost use Rattle.std.specs.Prelude.{◌≤◌, IfOk, IfSome, length};
ghost use Rattle.xag_core.specs.Xag.{HasEnds};

use crate::collecting::{LiteralRow, rows_of};
use crate::extraction::{extract, fold};
use crate::kind::TreeKind;
use std::alloc::{AllocError, Global};
use xag_core::{Substitution, Xag, rebuild};

/// Folds all rows.
fn fold_rows(
    substitution: &mut Substitution,
    rows: &[LiteralRow],
    is_xor: bool,
) -> Result<(), AllocError> {
    for row in rows {
        fold(substitution, row, is_xor)?;
    }
    Ok(())
}

/// The graph after sharing in the trees of one kind; None where there are none.
fn pass(alloc: Global, xag: &Xag, kind: TreeKind) -> Result<Option<Xag>, AllocError>
    ensures { IfOk result (λ other. IfSome other (HasEnds xag.now)) }
{
    let mut rows = rows_of(alloc, xag, kind)?;
    if rows.is_empty() {
        return Ok(None);
    }
    let mut substitution = Substitution::new(alloc, xag);
    extract(
        alloc,
        &mut substitution,
        xag.nodes(),
        &mut rows,
        kind.is_xor,
    )?;
    fold_rows(&mut substitution, &rows, kind.is_xor)?;
    rebuild(alloc, xag, &substitution)
}

/// The graph after sharing in the trees of one kind, or the given one where that has fewer gates.
#[tactic(auto, using(crate::proofs::Ends::ends))]
fn better(alloc: Global, xag: Xag, kind: TreeKind) -> Result<Xag, AllocError>
    ensures ends { IfOk result (HasEnds xag) }
    ensures size { IfOk result (λ other. length other.gates ≤ length xag.gates) }
{
    match pass(alloc, &xag, kind)? {
        Some(other) => {
            if other.gates().len() <= xag.gates().len() {
                Ok(other)
            } else {
                Ok(xag)
            }
        }
        None => Ok(xag),
    }
}

/// The graph after sharing pairs of operands of AND and of XOR trees, first without, then with trees through
/// gates that several gates read.
#[tactic(auto, using(crate::proofs::Ends::ends))]
pub fn share(alloc: Global, xag: &Xag) -> Result<Xag, AllocError>
    ensures ends { IfOk result (HasEnds xag.now) }
    ensures size { IfOk result (λ other. length other.gates ≤ length xag.now.gates) }
{
    let mut best = xag.copied(alloc)?;
    for (is_xor, through_all) in [(false, false), (true, false), (false, true), (true, true)] {
        let kind = TreeKind {
            is_xor,
            through_all,
        };
        best = better(alloc, best, kind)?;
    }
    Ok(best)
}
