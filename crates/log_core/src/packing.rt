//! Lists of numbers appended to the byte array, number by number, without a temporary list.
ghost use Rattle.std.specs.Prelude.{◌≡◌, ◌+◌, ◌-◌, ◌*◌, ◌≤◌, ◌++◌, length, vec_len, OnOk, IfOk, All};
ghost use Rattle.std.specs.Vec.{vec_capacity};
ghost use Rattle.sat_theory.specs.Line as theory;
ghost use Rattle.cnf_core.specs.Bounds.{IsLit};
ghost use Rattle.cnf_core.specs.Codes.{code_of};
ghost use Rattle.log_core.specs.Lists.{ids_written, literals_written};
ghost use Rattle.log_core.specs.Rows.{BeginsAs, IsPacked};

use crate::head::Head;
use crate::held::take_row;
use crate::numbers::{MOST_DIGITS, put_number};
use crate::steps::step;
use cnf_core::Lit;
use std::alloc::AllocError;

/// The most numbers of a line, twice (2^32 - 1): each takes at least one byte. More count as running out of
/// memory.
const MOST_NUMBERS: usize = 8_589_934_590;

/// Reserves the bytes of some numbers.
fn reserve(bytes: &mut Vec<u8>, numbers: usize) -> Result<(), AllocError>
    ensures same { bytes.new.items ≡ bytes.old.items }
    ensures room { OnOk result (vec_len bytes.new + MOST_DIGITS * numbers ≤ vec_capacity bytes.new) }
{
    if numbers > MOST_NUMBERS {
        return Err(AllocError);
    }
    bytes.reserve(MOST_DIGITS * numbers)?;
    Ok(())
}

/// Appends ids, each as the step from the one before. There is room for them.
#[tactic(auto, using(crate::proofs::After::packed))]
fn with_ids(mut row: Vec<u8>, ids: &[u32]) -> Vec<u8>
    requires room { vec_len row + MOST_DIGITS * length ids.now ≤ vec_capacity row }
    ensures { result.items ≡ row.items ++ ids_written 0 ids.now }
{
    let mut last = 0u32;
    for &id in ids {
        put_number(&mut row, step(last, id));
        last = id;
    }
    row
}

/// Appends ids, as `with_ids` does.
fn put_ids(bytes: &mut Vec<u8>, ids: &[u32])
    requires room { vec_len bytes.old + MOST_DIGITS * length ids.now ≤ vec_capacity bytes.old }
    ensures items { bytes.new.items ≡ bytes.old.items ++ ids_written 0 ids.now }
{
    let row = take_row(bytes);
    *bytes = with_ids(row, ids);
}

/// The number that encodes a literal.
fn number_of(lit: Lit) -> u64
    ensures value { result ≡ code_of lit }
    ensures whole { IsLit lit }
{
    // for the prover: `variable` gives the invariant of the literal, which `code` doesn't
    let _variable = lit.variable();
    lit.code() as u64
}

/// Appends literals. There is room for them.
#[tactic(auto, using(crate::proofs::After::packed))]
fn put_literals(bytes: &mut Vec<u8>, lits: &[Lit])
    requires room { vec_len bytes.old + MOST_DIGITS * length lits.now ≤ vec_capacity bytes.old }
    ensures items { bytes.new.items ≡ bytes.old.items ++ literals_written lits.now }
    ensures whole { All IsLit lits.now }
    ensures few { vec_len bytes.new ≤ vec_len bytes.old + MOST_DIGITS * length lits.now }
    ensures capacity { vec_capacity bytes.new ≡ vec_capacity bytes.old }
{
    for lit in lits {
        put_number(bytes, number_of(*lit));
    }
}

/// The length of a part of the array. A length above 4,294,967,295 counts as running out of memory.
fn size(start: usize, end: usize) -> Result<u32, AllocError>
    requires { start ≤ end }
    ensures { IfOk result (λ size. size ≡ end - start) }
{
    if end - start > u32::MAX as usize {
        return Err(AllocError);
    }
    Ok((end - start) as u32)
}

/// Appends the bytes of an addition, and returns its head.
#[tactic(auto, using(crate::proofs::After::after))]
pub(crate) fn pack_addition(
    bytes: &mut Vec<u8>,
    id: u32,
    lits: &[Lit],
    hints: &[u32],
) -> Result<Head, AllocError>
    ensures packed { IfOk result (IsPacked bytes.old.items bytes.new.items (theory.Add id lits.now hints.now)) }
    ensures begins { BeginsAs bytes.old.items bytes.new.items }
{
    let start = bytes.len();
    reserve(bytes, lits.len().saturating_add(hints.len()))?;
    put_literals(bytes, lits);
    let middle = bytes.len();
    put_ids(bytes, hints);
    let lits = size(start, middle)?;
    let hints = size(middle, bytes.len())?;
    Ok(Head::Add { id, lits, hints })
}

/// Appends the bytes of a deletion, and returns its head.
#[tactic(auto, using(crate::proofs::After::after))]
pub(crate) fn pack_deletion(bytes: &mut Vec<u8>, id: u32, ids: &[u32]) -> Result<Head, AllocError>
    ensures packed { IfOk result (IsPacked bytes.old.items bytes.new.items (theory.Delete id ids.now)) }
    ensures begins { BeginsAs bytes.old.items bytes.new.items }
{
    let start = bytes.len();
    reserve(bytes, ids.len())?;
    put_ids(bytes, ids);
    let ids = size(start, bytes.len())?;
    Ok(Head::Delete { id, ids })
}
