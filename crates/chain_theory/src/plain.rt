//! The definitions, computed literally: recursion over the steps from the last to the first. For
//! readers and for small inputs: a step that is read twice is computed twice, so the time is
//! exponential in the number of steps.
ghost use Rattle.std.specs.Prelude.{◌≡◌, ◌*◌, ◌^◌, ◌<◌, ◌≤◌, length, [], true, false};
ghost use Rattle.chain_theory.specs.Operator.{apply as apply_of};
ghost use Rattle.chain_theory.specs.Specification.{input as input_of};
ghost use Rattle.chain_theory.specs.Value.{values_on, out_value as out_value_of};
ghost use Rattle.chain_theory.specs.Levels.{level_in};
ghost use Rattle.chain_theory.specs.Agreement.{is_met as is_met_of, Agrees};
ghost use Rattle.chain_theory.specs.Plain.{steps_of, chain_of, MeetsRows, flat_specification};

use crate::data::{Cell, Out};

/// A step: the places `j` and `k` of its operands, from 1, and the number `op` of its operator, below 16.
#[derive(Clone, Copy)]
pub struct PlainStep {
    pub j: u32,
    pub k: u32,
    pub op: u8,
}

/// The value of an operator, given by its number, at two bits.
pub fn apply(op: u8, a: bool, b: bool) -> bool
    ensures { result ≡ apply_of op a b }
{
    let place = match (a, b) {
        (false, false) => 3,
        (false, true) => 2,
        (true, false) => 1,
        (true, true) => 0,
    };
    (op >> place) & 1 == 1
}

/// The bit of input `j` of `n` on row `t`; input 1 is the most significant bit. For `j` above `n` it
/// is that of input `n`, as in the definitions, where `n - j` is 0 then.
pub fn input(n: u32, t: u32, j: u32) -> bool
    requires { n < 32 }
    ensures { result ≡ input_of n t j }
{
    (t >> n.saturating_sub(j)) & 1 == 1
}

/// The value of a place on row `t`, in a chain of these steps over `n` inputs.
pub fn place_value(n: u32, steps: &[PlainStep], t: u32, place: u32) -> bool
    requires inputs { n < 32 }
    requires steps { length steps.now < 2 ^ 31 }
    ensures { result ≡ values_on n t (steps_of steps.now) place }
{
    let Some((last, before)) = steps.split_last() else {
        return input(n, t, place);
    };
    if place as usize == n as usize + 1 + before.len() {
        let a = place_value(n, before, t, last.j);
        let b = place_value(n, before, t, last.k);
        apply(last.op, a, b)
    } else {
        place_value(n, before, t, place)
    }
}

/// The level of a place, in a chain of these steps over `n` inputs.
pub fn place_level(n: u32, steps: &[PlainStep], place: u32) -> u32
    requires inputs { n < 32 }
    requires steps { length steps.now < 2 ^ 31 }
    ensures level { result ≡ level_in n (steps_of steps.now) place }
    ensures few { result ≤ length steps.now }
{
    let Some((last, before)) = steps.split_last() else {
        return 0;
    };
    if place as usize == n as usize + 1 + before.len() {
        let a = place_level(n, before, last.j);
        let b = place_level(n, before, last.k);
        1 + a.max(b)
    } else {
        place_level(n, before, place)
    }
}

/// The value of an out on row `t`.
pub fn out_value(n: u32, steps: &[PlainStep], t: u32, out: Out) -> bool
    requires inputs { n < 32 }
    requires steps { length steps.now < 2 ^ 31 }
    ensures { result ≡ out_value_of (chain_of n steps.now []) t out }
{
    match out {
        Out::Zero => false,
        Out::One => true,
        Out::Place(place) => place_value(n, steps, t, place),
    }
}

/// Whether a bit meets a cell: the cell is free or equal to the bit.
pub fn is_met(cell: Cell, bit: bool) -> bool
    ensures { result ≡ is_met_of cell bit }
{
    match cell {
        Cell::Zero => !bit,
        Cell::One => bit,
        Cell::Free => true,
    }
}

/// Whether an out meets all cells of an output. `cells` has the cell of row 0 first.
pub fn meets_rows(n: u32, steps: &[PlainStep], out: Out, cells: &[Cell]) -> bool
    requires inputs { n < 32 }
    requires steps { length steps.now < 2 ^ 31 }
    requires rows { length cells.now ≡ 2 ^ n }
    ensures meets { result ≡ true → MeetsRows n steps.now out cells.now }
    ensures misses { result ≡ false → MeetsRows n steps.now out cells.now → ⊥ }
{
    let mut row = 0;
    for cell in cells {
        if !is_met(*cell, out_value(n, steps, row, out)) {
            return false;
        }
        row += 1;
    }
    true
}

/// Whether a chain agrees with (implements) truth tables. `cells` has all cells of output 1, row 0
/// first, then all of output 2, and so on.
pub fn agrees(n: u32, steps: &[PlainStep], outs: &[Out], cells: &[Cell]) -> bool
    requires inputs { n < 32 }
    requires steps { length steps.now < 2 ^ 31 }
    requires rows { length cells.now ≡ length outs.now * 2 ^ n }
    ensures agrees { result ≡ true → Agrees (chain_of n steps.now outs.now)
        (flat_specification n (length outs.now) cells.now) }
    ensures differs { result ≡ false → Agrees (chain_of n steps.now outs.now)
        (flat_specification n (length outs.now) cells.now) → ⊥ }
{
    let Some((out, others)) = outs.split_first() else {
        return true;
    };
    let (own, following) = cells.split_at(1 << n);
    if !meets_rows(n, steps, *out, own) {
        return false;
    }
    agrees(n, steps, others, following)
}
