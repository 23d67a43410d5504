//! The counts of a header.

ghost use Rattle.std.specs.Prelude.{◌≡◌, [], ◌++◌, drop, true, IfOk, OnOk};
ghost use Rattle.std.specs.List.{flat_map};
ghost use Rattle.text_core.specs.Items.{items_of};
ghost use Rattle.aiger_sections.specs.Header as spec;

use std::alloc::{AllocError, Global};
use text_core::{MOST_NUMBER, after, next_item, number_up_to, push_number};

/// How many outputs, bad states and invariant constraints a file has.
#[derive(Clone, Copy)]
pub struct Sections {
    pub outputs: u32,
    pub bads: u32,
    pub constraints: u32,
}

/// The numbers of a line; none if one isn't a number.
#[tactic(auto, unfolding(crate::specs::Header::numbers_from))]
fn numbers_in(alloc: Global, text: &[u8]) -> Result<Vec<u32>, AllocError>
    ensures { IfOk result (λ ns. ns.items ≡ spec.numbers_from [] (items_of text.now)) }
{
    let mut numbers = Vec::new(alloc);
    let mut left = Some(text);
    while let Some(text) = left {
        let (item, rest) = next_item(text);
        let Some(number) = number_up_to(MOST_NUMBER, item) else {
            return Ok(Vec::new(alloc));
        };
        numbers.push(number)?;
        left = rest;
    }
    Ok(numbers)
}

/// The numbers of a header; none if the text isn't one.
#[tactic(auto, unfolding(crate::specs::Header::header_numbers))]
pub(crate) fn header_numbers(alloc: Global, text: &[u8]) -> Result<Vec<u32>, AllocError>
    ensures { IfOk result (λ ns. ns.items ≡ spec.header_numbers text.now) }
{
    let Some(rest) = after(b"aag ", text) else {
        return Ok(Vec::new(alloc));
    };
    let numbers = numbers_in(alloc, rest)?;
    Ok(numbers)
}

/// The number at a place, or 0 where it was left out.
pub(crate) fn count_at(numbers: &[u32], place: usize) -> u32
    ensures { result ≡ spec.count_at numbers.now place }
{
    match numbers.get(place) {
        Some(number) => *number,
        None => 0,
    }
}

/// How many outputs, bad states and constraints there are.
pub(crate) fn sections_by(numbers: &[u32]) -> Sections
    ensures { result ≡ spec.sections_by numbers.now }
{
    Sections {
        outputs: count_at(numbers, 3),
        bads: count_at(numbers, 5),
        constraints: count_at(numbers, 6),
    }
}

/// Their sum.
pub(crate) fn total(sections: Sections) -> u64
    ensures { result ≡ spec.total sections }
{
    u64::from(sections.outputs) + u64::from(sections.bads) + u64::from(sections.constraints)
}

/// Whether there are bad states or constraints, and in all no more than a header can say.
#[tactic(auto, unfolding(crate::specs::Header::is_sectioned))]
pub(crate) fn is_sectioned(sections: Sections) -> bool
    ensures { result ≡ spec.is_sectioned sections }
{
    u64::from(sections.bads) + u64::from(sections.constraints) > 0
        && total(sections) <= u64::from(MOST_NUMBER)
}

/// Adds numbers, each after a blank.
fn push_items(out: &mut Vec<u8>, numbers: &[u32]) -> Result<(), AllocError>
    ensures { OnOk result (out.new.items ≡ out.old.items ++ flat_map spec.number_text numbers.now) }
{
    let mut left = numbers;
    while let Some((number, rest)) = left.split_first() {
        out.push(b' ')?;
        push_number(out, *number)?;
        left = rest;
    }
    Ok(())
}

/// Adds the first five numbers, with the bad states and constraints counted as outputs.
#[tactic(auto, using(crate::proofs::Numbers::totals))]
fn push_plain_numbers(out: &mut Vec<u8>, numbers: &[u32]) -> Result<(), AllocError>
    requires { spec.is_sectioned (spec.sections_by numbers.now) ≡ true }
    ensures { OnOk result (out.new.items ≡
        out.old.items ++ flat_map spec.number_text (spec.plain_numbers numbers.now)) }
{
    let variables = count_at(numbers, 0);
    let inputs = count_at(numbers, 1);
    let latches = count_at(numbers, 2);
    let outputs = total(sections_by(numbers)) as u32;
    let gates = count_at(numbers, 4);
    push_items(out, &[variables, inputs, latches, outputs, gates])
}

/// Adds the numbers after them.
fn push_more_numbers(out: &mut Vec<u8>, numbers: &[u32]) -> Result<(), AllocError>
    ensures { OnOk result (out.new.items ≡
        out.old.items ++ flat_map spec.number_text (spec.more_numbers numbers.now)) }
{
    if numbers.is_empty() {
        return Ok(());
    }
    push_items(out, &[0, 0])?;
    push_items(out, numbers)
}

/// The numbers from the eighth on.
#[tactic(auto, using(crate::proofs::Keys::keys))]
fn after_seven(numbers: &[u32]) -> &[u32]
    ensures { result.now ≡ drop 7 numbers.now }
{
    if numbers.len() > 7 {
        &numbers[7..]
    } else {
        &[]
    }
}

/// Adds the header of the plain text.
#[tactic(auto, unfolding(crate::specs::Header::plain_header))]
pub(crate) fn push_plain_header(out: &mut Vec<u8>, numbers: &[u32]) -> Result<(), AllocError>
    requires { spec.is_sectioned (spec.sections_by numbers.now) ≡ true }
    ensures { OnOk result (out.new.items ≡ out.old.items ++ spec.plain_header numbers.now) }
{
    out.extend_from_slice(b"aag")?;
    push_plain_numbers(out, numbers)?;
    push_more_numbers(out, after_seven(numbers))?;
    out.push(b'\n')?;
    Ok(())
}

/// How many lines there are of inputs, latches, outputs, bad states, constraints and gates.
#[tactic(auto, unfolding(crate::specs::Header::line_count))]
pub(crate) fn line_count(numbers: &[u32]) -> u64
    ensures { result ≡ spec.line_count numbers.now }
{
    u64::from(count_at(numbers, 1))
        + u64::from(count_at(numbers, 2))
        + total(sections_by(numbers))
        + u64::from(count_at(numbers, 4))
}
