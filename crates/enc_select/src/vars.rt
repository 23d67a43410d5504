//! The numbers of the variables that an encoding by pairs doesn't have: the selection variables of single
//! operands, and the operands' values.
ghost use Rattle.std.specs.Prelude.{◌≡◌, ◌+◌, ◌-◌, ◌*◌, ◌^◌, ◌<◌, ◌≤◌};
ghost use Rattle.enc_theory.specs.Select.{operand_count as operand_count_of, choice_first as choice_first_of};
ghost use Rattle.enc_theory.specs.Select.{choice_var as choice_var_of, value_first as value_first_of};
ghost use Rattle.enc_theory.specs.Select.{value_var as value_var_of, select_vars as select_vars_of};
ghost use Rattle.enc_base.specs.Room.{IsSmall, HasRoom, IsPlace};
ghost use Rattle.chain_theory.specs.Limits.{most_steps, most_inputs};

use enc_base::{rows, s_first};
use enc_theory::{Side, Dimensions};

/// The number of selection variables of one side for the first `steps` steps: an operand may be any lower
/// place.
#[tactic(auto, using(crate::proofs::Numbers::counting))]
fn operand_count(n: u32, steps: u32) -> u32
    requires { (n ≤ most_inputs) × (steps ≤ most_steps) }
    ensures value { result ≡ operand_count_of n steps }
    ensures few { result ≤ 224 }
{
    n * steps + (steps * steps - steps) / 2
}

/// The first selection variable.
#[tactic(auto, unfolding(enc_theory::specs::Select::choice_first))]
fn choice_first(z: Dimensions, side: Side) -> u32
    requires { IsSmall z }
    ensures value { result ≡ choice_first_of z side }
    ensures few { result ≤ 1441 }
{
    match side {
        Side::First => s_first(z),
        Side::Second => s_first(z) + operand_count(z.n, z.r),
    }
}

/// The selection variable that an operand of step `i` is place `j`.
#[tactic(auto, using(crate::proofs::Numbers::choosing), unfolding(enc_theory::specs::Select::choice_var))]
pub(crate) fn choice_var(z: Dimensions, side: Side, i: u32, j: u32) -> u32
    requires small { IsSmall z }
    requires place { IsPlace z i }
    requires operand { (1 ≤ j) × (j < i) }
    ensures value { result ≡ choice_var_of z side i j }
    ensures within { (1 ≤ result) × (result ≤ select_vars_of z) }
{
    choice_first(z, side) + operand_count(z.n, i - (z.n + 1)) + (j - 1)
}

/// The first variable of the operands' values.
#[tactic(auto, using(crate::proofs::Numbers::valuing), unfolding(enc_theory::specs::Select::value_first))]
fn value_first(z: Dimensions, side: Side) -> u32
    requires { IsSmall z }
    ensures value { result ≡ value_first_of z side }
    ensures few { result ≤ 2689 }
{
    let first = s_first(z) + 2 * operand_count(z.n, z.r);
    match side {
        Side::First => first,
        Side::Second => first + z.r * rows(z),
    }
}

/// The variable of an operand's value on row `t`.
#[tactic(auto, using(crate::proofs::Numbers::valuing), unfolding(enc_theory::specs::Select::value_var))]
pub(crate) fn value_var(z: Dimensions, side: Side, i: u32, t: u32) -> u32
    requires small { IsSmall z }
    requires place { IsPlace z i }
    requires row { t < 2 ^ z.n }
    ensures value { result ≡ value_var_of z side i t }
    ensures within { (1 ≤ result) × (result ≤ select_vars_of z) }
{
    value_first(z, side) + (i - (z.n + 1)) * rows(z) + t
}

/// The number of all variables.
#[tactic(auto, using(crate::proofs::Numbers::valuing), unfolding(enc_theory::specs::Select::select_vars))]
pub(crate) fn select_vars(z: Dimensions) -> u32
    requires { IsSmall z }
    ensures value { result ≡ select_vars_of z }
    ensures room { HasRoom z result }
{
    s_first(z) - 1 + 2 * operand_count(z.n, z.r) + 2 * (z.r * rows(z))
}
