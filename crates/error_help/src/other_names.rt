//! The names of interfaces in BENCH and AIGER.

use crate::naming::{List, Named, letter_of, plain_name, word_of};
use crate::tokens::{Separators, next_token, without_comment};
use std::alloc::{AllocError, Global};
use text_core::{next_line, number_up_to};

/// The most names that are looked at.
const MOST_NAMES: u32 = 1_000_000;

// ---- BENCH

/// The name that a line of BENCH adds to a list; an empty one if it adds none.
fn bench_name(list: List, line: &[u8]) -> &[u8] {
    let (first, rest) = next_token(Separators::Bench, without_comment(line));
    let (second, _) = next_token(Separators::Bench, rest);
    let is_found = match list {
        List::Inputs => first == b"INPUT".as_slice() || first == b"input".as_slice(),
        List::Outputs => first == b"OUTPUT".as_slice() || first == b"output".as_slice(),
        List::Latches => second == b"DFF".as_slice() || second == b"dff".as_slice(),
        List::Clocks => false,
    };
    if !is_found {
        return b"";
    }
    match list {
        List::Latches => first,
        _ => second,
    }
}

/// The names of an interface in BENCH.
pub(crate) fn bench_names(
    alloc: Global,
    list: List,
    text: &[u8],
) -> Result<Vec<Named<'_>>, AllocError> {
    let mut names = Vec::new(alloc);
    let mut left = text;
    let mut number: u32 = 0;
    for _ in 0..text.len() {
        let Some((line, _, rest)) = next_line(left) else {
            break;
        };
        number = number.saturating_add(1);
        let name = bench_name(list, line);
        if !name.is_empty() {
            names.push(plain_name(name, number))?;
        }
        left = rest;
    }
    Ok(names)
}

// ---- AIGER

/// The numbers of a header.
#[derive(Clone, Copy)]
struct Header {
    is_binary: bool,
    inputs: u32,
    latches: u32,
    outputs: u32,
    gates: u32,
    bads: u32,
    constraints: u32,
}

/// How many outputs there are with the bad states and constraints, which follow them.
fn all_outputs(h: Header) -> u32 {
    h.outputs
        .saturating_add(h.bads)
        .saturating_add(h.constraints)
}

/// The number that comes next, and the rest; 0 if there is none.
fn count_of(words: &[u8]) -> (u32, &[u8]) {
    let (word, rest) = word_of(words);
    (number_up_to(MOST_NAMES, word).unwrap_or(0), rest)
}

/// The header of a text.
fn header_of(text: &[u8]) -> Header {
    let line = match next_line(text) {
        Some((line, _, _)) => line,
        None => b"",
    };
    let (word, rest) = word_of(line);
    let (_, rest) = word_of(rest);
    let (inputs, rest) = count_of(rest);
    let (latches, rest) = count_of(rest);
    let (outputs, rest) = count_of(rest);
    let (gates, rest) = count_of(rest);
    let (bads, rest) = count_of(rest);
    let (constraints, _) = count_of(rest);
    Header {
        is_binary: word == b"aig".as_slice(),
        inputs,
        latches,
        outputs,
        gates,
        bads,
        constraints,
    }
}

/// A text after some lines.
fn after_lines(text: &[u8], count: u32) -> &[u8] {
    let mut left = text;
    for _ in 0..count {
        let Some((_, _, rest)) = next_line(left) else {
            break;
        };
        left = rest;
    }
    left
}

/// A text after the gates of the binary form, each of two numbers, whose last bytes are below 128.
fn after_gates(bytes: &[u8], gates: u32) -> &[u8] {
    let mut numbers = gates.saturating_mul(2);
    let mut count: usize = 0;
    for byte in bytes {
        if numbers == 0 {
            break;
        }
        if *byte < 128 {
            numbers = numbers.saturating_sub(1);
        }
        count = count.saturating_add(1);
    }
    let (_, left) = bytes.split_at(count.min(bytes.len()));
    left
}

/// The lines of a text that name its inputs, latches and outputs, and what comes after them.
fn symbols_of(text: &[u8], h: Header) -> &[u8] {
    let listed = h.latches.saturating_add(all_outputs(h)).saturating_add(1);
    if h.is_binary {
        return after_gates(after_lines(text, listed), h.gates);
    }
    let all = listed.saturating_add(h.inputs).saturating_add(h.gates);
    after_lines(text, all)
}

/// The first place in a list that symbols with a letter name; None if they name none of it.
fn first_of(list: List, h: Header, letter: u8) -> Option<u32> {
    if letter == letter_of(list) {
        return Some(0);
    }
    match (list, letter) {
        (List::Outputs, b'b') => Some(h.outputs),
        (List::Outputs, b'c') => Some(h.outputs.saturating_add(h.bads)),
        _ => None,
    }
}

/// Sets the name that a line gives to one of some.
fn put_symbol<'a>(names: &mut Vec<Named<'a>>, list: List, h: Header, line: &'a [u8]) {
    let Some((letter, rest)) = line.split_first() else {
        return;
    };
    let Some(first) = first_of(list, h, *letter) else {
        return;
    };
    let (word, after) = word_of(rest);
    let Some(number) = number_up_to(MOST_NAMES, word) else {
        return;
    };
    let Some((_, name)) = after.split_first() else {
        return;
    };
    if let Some(place) = names.get_mut(first.saturating_add(number) as usize) {
        place.name = name;
        place.number = None;
    }
}

/// Sets the names that the lines give, up to a comment.
fn put_symbols<'a>(names: &mut Vec<Named<'a>>, list: List, h: Header, lines: &'a [u8]) {
    let mut left = lines;
    for _ in 0..lines.len() {
        let Some((line, _, rest)) = next_line(left) else {
            break;
        };
        if line == b"c".as_slice() {
            break;
        }
        put_symbol(names, list, h, line);
        left = rest;
    }
}

/// Where the names of a list begin in the ASCII form, and how many there are.
fn range_of(list: List, h: Header) -> (u32, u32) {
    match list {
        List::Inputs => (2, h.inputs),
        List::Latches => (h.inputs.saturating_add(2), h.latches),
        List::Outputs => (
            h.inputs.saturating_add(h.latches).saturating_add(2),
            all_outputs(h),
        ),
        List::Clocks => (0, 0),
    }
}

/// The names of an interface in AIGER.
pub(crate) fn aiger_names(
    alloc: Global,
    list: List,
    text: &[u8],
) -> Result<Vec<Named<'_>>, AllocError> {
    let header = header_of(text);
    let (first, count) = range_of(list, header);
    let mut names = Vec::new(alloc);
    for number in 0..count {
        names.push(Named {
            name: b"",
            number: Some(number),
            line: if header.is_binary {
                0
            } else {
                first.saturating_add(number)
            },
            latch: None,
        })?;
    }
    put_symbols(&mut names, list, header, symbols_of(text, header));
    Ok(names)
}

/// Whether two texts in AIGER have as many outputs, bad states and constraints.
pub(crate) fn same_sections(first: &[u8], second: &[u8]) -> bool {
    let one = header_of(first);
    let other = header_of(second);
    one.outputs == other.outputs && one.bads == other.bads && one.constraints == other.constraints
}
