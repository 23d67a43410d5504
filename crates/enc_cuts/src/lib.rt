//! Symmetry-breaking and structural constraints of encodings by pairs: further clauses, which keep the formula
//! of the minimum size satisfiable. They exclude unused steps, trivial operators, steps out of order,
//! re-application, and the copies of chains under symmetric inputs and complemented steps, each only for the
//! bases for which it is sound (Kojevnikov, Kulikov and Yaroslavtsev 2009; Knuth, TAOCP 7.2.2.2, exercise 477;
//! Haaswijk, Soeken, Mishchenko and De Micheli 2020).
//!
//! ```text
//! push_common(alloc, &mut list, &live, basis, z, &layout.steps)?; // the clauses that define chains
//! push_cuts(alloc, &mut list, &live, basis, z, &layout.steps)?;   // and the constraints
//! ```
//!
//! `formula_with_cuts` makes a formula of both. The constraints that don't mention pairs are public for
//! `enc_select` (MSV: multiple selection variables), and what `enc_strong` says of pairs as well.
//!
//! The constraints, and their names in the literature:
//!
//! | Here | Literature |
//! |---|---|
//! | each step drives an output or is read | all steps used |
//! | no step is a constant or projection | non-trivial operators |
//! | the pairs of consecutive steps never decrease | co-lexicographic order |
//! | no step combines a step with one of its operands | no re-application |
//! | symmetric inputs are first read in order | symmetric variables |
//! | a step that drives no output is 0 on row 0 | normal functions |
#![tactic(auto)]

ghost use Rattle.std.specs.Prelude.{All, OnOk};
ghost use Rattle.clause_core.specs.Clauses.{Appends};
ghost use Rattle.enc_theory.specs.Cuts.{cuts as cuts_of};
ghost use Rattle.enc_base.specs.Room.{HasRoom, HasSlots, AreFor};

mod exchange;
mod formula;
mod no_reapplication;
mod order;
mod row_zero;
mod slots;
mod trivial;
mod used;

use crate::exchange::push_exchange;
pub use crate::exchange::{may_exchange, push_exchange_steps};
pub use crate::formula::formula_with_cuts;
use crate::no_reapplication::push_no_reapplication;
use crate::order::push_order;
pub use crate::row_zero::push_row_0;
pub use crate::slots::{push_drivers, push_not_both, reads};
use crate::trivial::push_not_trivial;
pub use crate::trivial::{push_not_idle, push_operator};
pub use crate::used::push_readers;
use crate::used::push_used;
use clause_core::ClauseList;
use enc_base::StepSlots;
use enc_theory::Dimensions;
use op_basis::Basis;
use std::alloc::{AllocError, Global};
use tt_core::Spec;

/// Writes the constraints, for tables whose outputs are all live: all steps are used; operators are
/// non-trivial; pairs never decrease; there is no re-application; symmetric inputs are read in order; and a
/// step that drives no output is 0 on row 0.
#[tactic(auto, using(crate::proofs::Pieces::families), unfolding(enc_theory::specs::Cuts::cuts))]
pub fn push_cuts(
    alloc: Global,
    list: &mut ClauseList,
    spec: &Spec,
    basis: Basis,
    z: Dimensions,
    steps: &[StepSlots],
) -> Result<(), AllocError>
    requires room { HasRoom z list.old.vars }
    requires tables { AreFor z spec.now }
    requires slots { All (HasSlots z list.old.vars) steps.now }
    ensures { OnOk result (Appends list.old list.new (cuts_of spec.now basis z steps.now)) }
{
    push_used(alloc, list, z, steps)?;
    push_not_trivial(alloc, list, basis, z, steps)?;
    push_order(alloc, list, steps)?;
    push_no_reapplication(alloc, list, basis, steps)?;
    push_exchange(alloc, list, spec, steps)?;
    push_row_0(alloc, list, basis, z)
}
