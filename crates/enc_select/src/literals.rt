//! The literals of MSV: selection of operands, and their values.
ghost use Rattle.std.specs.Prelude.{◌≡◌, ℕ, ◌^◌, ◌<◌, ◌≤◌};
ghost use Rattle.clause_core.specs.declared.raw.RawLit.TheVariants.{Var};
ghost use Rattle.enc_theory.specs.Select.{choice_var as choice_var_of, value_var as value_var_of};
ghost use Rattle.enc_base.specs.Room.{IsSmall, IsPlace};
ghost use Rattle.clause_core.specs.Clauses.{IsWithin};
ghost use Rattle.enc_select.specs.Room.{HasChoices};

use crate::vars::{choice_var, value_var};
use clause_core::RawLit;
use enc_theory::{Side, Dimensions};

/// The literal that an operand of step `i` is place `j`, or isn't.
#[tactic(auto, unfolding(clause_core::specs::Clauses::IsWithin))]
pub(crate) fn choice(z: Dimensions, side: Side, i: u32, j: u32, bit: bool) -> RawLit
    requires small { IsSmall z }
    requires place { IsPlace z i }
    requires operand { (1 ≤ j) × (j < i) }
    ensures value { result ≡ Var (choice_var_of z side i j) bit }
    ensures within { (vars : ℕ) → HasChoices z vars → IsWithin vars result }
{
    RawLit::Var(choice_var(z, side, i, j), bit)
}

/// The literal that an operand of step `i` has the bit on row `t`.
#[tactic(auto, unfolding(clause_core::specs::Clauses::IsWithin))]
pub(crate) fn value(z: Dimensions, side: Side, i: u32, t: u32, bit: bool) -> RawLit
    requires small { IsSmall z }
    requires place { IsPlace z i }
    requires row { t < 2 ^ z.n }
    ensures value { result ≡ Var (value_var_of z side i t) bit }
    ensures within { (vars : ℕ) → HasChoices z vars → IsWithin vars result }
{
    RawLit::Var(value_var(z, side, i, t), bit)
}
