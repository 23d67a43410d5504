//! The sizes of formulas.
ghost use Rattle.std.specs.Prelude.{◌≤◌, length};

use cnf_core::Cnf;
use enc_base::Encoding;
use enc_fence::FenceEnc;
use enc_select::Select;
use enc_ssv::{Plain, Ssv};
use enc_strong::{Strong, StrongFence};
use op_basis::Basis;
use std::alloc::Global;
use tt_core::{Spec, read_tables};

/// The sizes of the formulas for one number of steps.
#[derive(Clone, Copy)]
pub struct Size {
    /// The number of formulas, one for each subproblem.
    pub formulas: u32,
    /// The largest number of variables of a formula.
    pub vars: u32,
    /// The total number of clauses.
    pub clauses: usize,
    /// The total number of literals.
    pub literals: usize,
}

/// Counts one more formula.
fn count(size: &mut Size, cnf: &Cnf) {
    size.formulas = size.formulas.saturating_add(1);
    size.vars = size.vars.max(cnf.vars());
    size.clauses = size.clauses.saturating_add(cnf.clauses().len());
    for clause in cnf.clauses() {
        size.literals = size.literals.saturating_add(clause.lits().len());
    }
}

/// The sizes of the formulas of an encoding, over all operators.
fn size_by<E: Encoding>(alloc: Global, encoding: &E, spec: &Spec, r: u32) -> Option<Size>
    requires { r ≤ 16 }
{
    let mut size = Size {
        formulas: 0,
        vars: 0,
        clauses: 0,
        literals: 0,
    };
    for subproblem in encoding.subproblems(alloc, spec, r).ok()? {
        let basis = Basis::new(u16::MAX);
        let cnf = encoding.formula(alloc, spec, basis, r, &subproblem).ok()?;
        count(&mut size, &cnf);
    }
    Some(size)
}

/// The sizes of the formulas by the method that a word names.
fn size_of(alloc: Global, method: &[u8], spec: &Spec, r: u32) -> Option<Size>
    requires { r ≤ 16 }
{
    match method {
        b"plain" => size_by(alloc, &Plain, spec, r),
        b"ssv" => size_by(alloc, &Ssv, spec, r),
        b"select" => size_by(alloc, &Select, spec, r),
        b"fence" => size_by(alloc, &FenceEnc, spec, r),
        b"strong" => size_by(alloc, &Strong, spec, r),
        b"strong-fence" => size_by(alloc, &StrongFence, spec, r),
        _ => None,
    }
}

/// The sizes of the formulas for `r` steps, at most 16; None if the text isn't one of truth tables or the word
/// isn't a method.
pub fn build(alloc: Global, method: &[u8], text: &[u8], r: u32) -> Option<Size>
    requires { length text.now ≤ 65536 }
{
    if r > 16 {
        return None;
    }
    let tables = read_tables(alloc, text).ok()?;
    size_of(alloc, method, &tables.spec, r)
}
