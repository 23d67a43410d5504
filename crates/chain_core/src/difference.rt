//! Comparison of a chain with a specification.

ghost use Rattle.std.specs.Prelude.{◌≡◌, ◌≤◌, length};
ghost use Rattle.tt_core.specs.Words.{specification};
ghost use Rattle.chain_theory.specs.Agreement.{is_met};
ghost use Rattle.chain_theory.specs.Difference.{IsComparison};
ghost use Rattle.chain_core.specs.Rows.{IsFirstRow};

use crate::chain::Chain;
use crate::values::out_value;
use chain_theory::Cell;
use tt_core::{Spec, row};

/// Whether a value meets a cell: the cell is free or equal to the value.
fn meets(cell: Cell, bit: bool) -> bool
    ensures { result ≡ is_met cell bit }
{
    match cell {
        Cell::Zero => !bit,
        Cell::One => bit,
        Cell::Free => true,
    }
}

/// The first row on which an output misses its cell; None where there is none.
fn first_row(chain: &Chain, spec: &Spec, h: u32) -> Option<u32>
    requires inputs { chain.now.n ≡ spec.now.n }
    requires from { 1 ≤ h }
    requires to { h ≤ length chain.now.outs }
    requires specified { h ≤ length spec.now.on }
    ensures { IsFirstRow chain.now (specification spec.now) h result }
{
    for t in 0..1u32 << spec.n() {
        if !meets(row(spec, h, t), out_value(chain, t, h)) {
            return Some(t);
        }
    }
    None
}

/// Where a chain first misses a specification: the least output that does, numbered from 1, and its
/// least row. None where the chain agrees. The chain and the specification have the same numbers of
/// inputs and of outputs.
pub fn first_difference(chain: &Chain, spec: &Spec) -> Option<(u32, u32)>
    requires inputs { chain.now.n ≡ spec.now.n }
    requires outputs { length chain.now.outs ≡ length spec.now.on }
    ensures { IsComparison chain.now (specification spec.now) result }
{
    let outputs = chain.outs().len() as u32;
    for h in 1..outputs + 1 {
        if let Some(t) = first_row(chain, spec, h) {
            return Some((h, t));
        }
    }
    None
}
