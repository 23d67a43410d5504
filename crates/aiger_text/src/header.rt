//! Lines of numbers, and the header.

ghost use Rattle.std.specs.Prelude.{◌≡◌};
ghost use Rattle.std.specs.Option.{option_copied};
ghost use Rattle.aiger_text.specs.Reading.{Gives};
ghost use Rattle.aiger_text.specs.Header.{number_in as number_in_item, numbers_of as numbers_of_text};
ghost use Rattle.aiger_text.specs.Header.{count_at as count_at_place, counts_in as counts_in_numbers};
ghost use Rattle.aiger_text.specs.Header.{has_room as has_room_of, unsupported_in as unsupported_in_numbers};
ghost use Rattle.aiger_text.specs.Header.{source_count as source_count_in};
ghost use Rattle.aiger_text.specs.Header.{counts_of as counts_of_numbers, header_of as header_of_text};

use crate::file::Counts;
use crate::limits::{MOST_OUTPUTS, MOST_SOURCES, MOST_VARIABLES};
use net_core::{Name, NetError};
use std::alloc::Global;
use text_core::{MOST_NUMBER, after, next_item, number_up_to};

/// The number that an item spells, if it is at most `limit`.
pub fn number_in(line: u32, limit: u32, item: &[u8]) -> Result<u32, NetError>
    ensures { Gives (λ n. n) result (number_in_item line limit item.now) }
{
    match number_up_to(limit, item) {
        Some(number) => Ok(number),
        None => Err(NetError::Syntax(line)),
    }
}

/// The numbers of a line, each at most `limit`.
#[tactic(auto, unfolding(crate::specs::Header::numbers_from))]
pub fn numbers_of(alloc: Global, line: u32, limit: u32, text: &[u8]) -> Result<Vec<u32>, NetError>
    ensures { Gives (λ ns. ns.items) result (numbers_of_text line limit text.now) }
{
    let mut numbers = Vec::new(alloc);
    let mut left = Some(text);
    while let Some(text) = left {
        let (item, rest) = next_item(text);
        numbers.push(number_in(line, limit, item)?)?;
        left = rest;
    }
    Ok(numbers)
}

/// The number at a place, or 0 where it was left out.
fn count_at(numbers: &[u32], place: usize) -> u32
    ensures { result ≡ count_at_place numbers.now place }
{
    match numbers.get(place) {
        Some(number) => *number,
        None => 0,
    }
}

/// The counts of a header.
fn counts_in(numbers: &[u32]) -> Counts
    ensures { result ≡ counts_in_numbers numbers.now }
{
    Counts {
        variables: count_at(numbers, 0),
        inputs: count_at(numbers, 1),
        latches: count_at(numbers, 2),
        outputs: count_at(numbers, 3),
        gates: count_at(numbers, 4),
    }
}

/// Whether each input, latch and gate can have a variable of its own.
#[tactic(auto, unfolding(crate::specs::Header::has_room))]
fn has_room(counts: Counts) -> bool
    ensures { result ≡ has_room_of counts }
{
    let sum = u64::from(counts.inputs) + u64::from(counts.latches) + u64::from(counts.gates);
    sum <= u64::from(counts.variables)
}

/// The number of inputs and latches.
fn source_count(numbers: &[u32]) -> u64
    ensures { result ≡ source_count_in numbers.now }
{
    u64::from(count_at(numbers, 1)) + u64::from(count_at(numbers, 2))
}

/// The letter of the first count that isn't supported.
#[tactic(auto, unfolding(crate::specs::Header::unsupported_in))]
fn unsupported_in(numbers: &[u32]) -> Option<&'static [u8]>
    ensures { option_copied result ≡ unsupported_in_numbers numbers.now }
{
    if count_at(numbers, 0) > MOST_VARIABLES {
        Some(b"M")
    } else if source_count(numbers) > u64::from(MOST_SOURCES) {
        Some(b"I")
    } else if count_at(numbers, 3) > MOST_OUTPUTS {
        Some(b"O")
    } else if count_at(numbers, 5) > 0 {
        Some(b"B")
    } else if count_at(numbers, 6) > 0 {
        Some(b"C")
    } else if count_at(numbers, 7) > 0 {
        Some(b"J")
    } else if count_at(numbers, 8) > 0 {
        Some(b"F")
    } else {
        None
    }
}

/// The counts of a header with five to nine numbers.
#[tactic(auto, unfolding(crate::specs::Header::counts_of))]
fn counts_of(alloc: Global, line: u32, numbers: &[u32]) -> Result<Counts, NetError>
    ensures { Gives (λ c. c) result (counts_of_numbers line numbers.now) }
{
    if numbers.len() < 5 || numbers.len() > 9 {
        return Err(NetError::Syntax(line));
    }
    if let Some(letter) = unsupported_in(numbers) {
        return Err(NetError::NotSupported(line, Name::of(alloc, letter)?));
    }
    let counts = counts_in(numbers);
    if !has_room(counts) {
        return Err(NetError::Syntax(line));
    }
    Ok(counts)
}

/// The counts of a header that begins with `word`.
#[tactic(auto, unfolding(crate::specs::Header::header_of))]
pub fn header_of(alloc: Global, word: &[u8], text: &[u8]) -> Result<Counts, NetError>
    ensures { Gives (λ c. c) result (header_of_text word.now text.now) }
{
    let Some(rest) = after(word, text) else {
        return Err(NetError::Syntax(1));
    };
    let numbers = numbers_of(alloc, 1, MOST_NUMBER, rest)?;
    counts_of(alloc, 1, &numbers)
}
