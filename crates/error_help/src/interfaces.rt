//! The first difference between the interfaces of two netlists.

use crate::expected::Subject;
use crate::explaining::{Input, Inputs, push_place};
use crate::naming::{Latch, List, Named, is_same_name, kind_of, plain_name, push_named, word_of};
use crate::other_names::{aiger_names, bench_names, same_sections};
use crate::tokens::{goes_on, without_comment};
use help_text::{Part, push_parts, push_quoted};
use std::alloc::{AllocError, Global};
use text_core::next_line;

/// The statement that has these names.
fn statement_of(list: List) -> &'static [u8] {
    match list {
        List::Inputs => b".inputs",
        List::Outputs => b".outputs",
        List::Clocks => b".clock",
        List::Latches => b".latch",
    }
}

/// The latch of a statement without its first word.
fn latch_of(words: &[u8], line: u32) -> Named<'_> {
    let (_, rest) = word_of(words);
    let (name, rest) = word_of(rest);
    let (first, rest) = word_of(rest);
    let (second, rest) = word_of(rest);
    let (third, _) = word_of(rest);
    let (control, initial): (&[u8], &[u8]) = if second.is_empty() {
        (b"", first)
    } else {
        (second, third)
    };
    let latch = Latch {
        control,
        initial: if initial.is_empty() { b"3" } else { initial },
    };
    Named {
        name,
        number: None,
        line,
        latch: Some(latch),
    }
}

/// Appends the names of a line.
fn push_names<'a>(
    names: &mut Vec<Named<'a>>,
    words: &'a [u8],
    line: u32,
) -> Result<(), AllocError> {
    let mut left = words;
    for _ in 0..words.len() {
        let (name, rest) = word_of(left);
        if name.is_empty() {
            break;
        }
        if name != b"\\".as_slice() {
            names.push(plain_name(name, line))?;
        }
        left = rest;
    }
    Ok(())
}

/// The names of an interface in BLIF, in the order of the text.
fn blif_names(alloc: Global, list: List, text: &[u8]) -> Result<Vec<Named<'_>>, AllocError> {
    let mut names = Vec::new(alloc);
    let mut left = text;
    let mut number: u32 = 0;
    let mut is_inside = false;
    for _ in 0..text.len() {
        let Some((line, _, rest)) = next_line(left) else {
            break;
        };
        number = number.saturating_add(1);
        let words = without_comment(line);
        let (first, others) = word_of(words);
        let is_begun = first == statement_of(list);
        if is_begun && matches!(list, List::Latches) {
            names.push(latch_of(others, number))?;
        } else if is_begun {
            push_names(&mut names, others, number)?;
        } else if is_inside {
            push_names(&mut names, words, number)?;
        }
        is_inside = (is_begun || is_inside) && goes_on(words) && !matches!(list, List::Latches);
        left = rest;
    }
    Ok(names)
}

/// The names of an interface in a format.
fn names_of(
    alloc: Global,
    format: Subject,
    list: List,
    text: &[u8],
) -> Result<Vec<Named<'_>>, AllocError> {
    match format {
        Subject::Aiger => aiger_names(alloc, list, text),
        Subject::Bench => bench_names(alloc, list, text),
        _ => blif_names(alloc, list, text),
    }
}

/// Whether a name is among some.
fn is_among(list: List, names: &[Named], name: Named) -> bool {
    for other in names {
        if is_same_name(list, *other, name) {
            return true;
        }
    }
    false
}

/// Appends where a name stands: the name of the netlist, and the line if it is known.
fn push_where(text: &mut Vec<u8>, list: List, input: Input, name: Named) -> Result<(), AllocError> {
    push_place(text, input, name.line)?;
    push_named(text, list, name)
}

/// Appends what the other of two netlists is called: both may be in one text.
fn push_other(text: &mut Vec<u8>, input: Input, other: Input) -> Result<(), AllocError> {
    if input.name == other.name {
        return text.extend_from_slice(b"the other netlist");
    }
    push_quoted(text, other.name)
}

/// Appends that a name of one netlist is missing in the other, or stands at another place there.
fn push_missing(
    text: &mut Vec<u8>,
    list: List,
    name: Named,
    input: Input,
    other: Input,
    others: &[Named],
) -> Result<(), AllocError> {
    push_where(text, list, input, name)?;
    text.extend_from_slice(b": ")?;
    push_other(text, input, other)?;
    if is_among(list, others, name) {
        push_parts(
            text,
            &[
                Part::Text(b" has this "),
                Part::Text(kind_of(list)),
                Part::Text(b" at another place"),
            ],
        )
    } else {
        push_parts(
            text,
            &[
                Part::Text(b" has no "),
                Part::Text(kind_of(list)),
                Part::Text(b" of this name"),
            ],
        )
    }
}

/// Whether what is known of two latches of one name differs.
fn is_other_latch(one: Named, other: Named) -> bool {
    match (one.latch, other.latch) {
        (Some(first), Some(second)) => {
            first.control != second.control || first.initial != second.initial
        }
        _ => false,
    }
}

/// How two latches of one name differ.
fn said_of(one: Named, other: Named) -> &'static [u8] {
    match (one.latch, other.latch) {
        (Some(first), Some(second)) if first.control != second.control => {
            b": another control than in "
        }
        _ => b": another initial value than in ",
    }
}

/// Appends that two latches of one name differ.
fn push_latch(
    text: &mut Vec<u8>,
    one: Named,
    other: Named,
    inputs: &Inputs,
) -> Result<(), AllocError> {
    push_where(text, List::Latches, inputs.second, other)?;
    text.extend_from_slice(said_of(one, other))?;
    push_other(text, inputs.second, inputs.first)
}

/// The place of the first difference of two lists, from 0; None if there is none.
fn first_difference(list: List, firsts: &[Named], seconds: &[Named]) -> Option<usize> {
    for at in 0..firsts.len().max(seconds.len()) {
        match (firsts.get(at), seconds.get(at)) {
            (Some(first), Some(second)) => {
                if !is_same_name(list, *first, *second) || is_other_latch(*first, *second) {
                    return Some(at);
                }
            }
            _ => return Some(at),
        }
    }
    None
}

/// Appends the first difference of two lists, and returns whether there is one.
fn push_list(
    text: &mut Vec<u8>,
    list: List,
    first: &[u8],
    second: &[u8],
    inputs: &Inputs,
) -> Result<bool, AllocError> {
    let alloc = *text.allocator();
    let firsts = names_of(alloc, inputs.first_format, list, first)?;
    let seconds = names_of(alloc, inputs.second_format, list, second)?;
    let Some(at) = first_difference(list, &firsts, &seconds) else {
        return Ok(false);
    };
    match (firsts.get(at), seconds.get(at)) {
        (Some(one), Some(other)) if is_same_name(list, *one, *other) => {
            push_latch(text, *one, *other, inputs)?
        }
        (Some(one), _) => push_missing(text, list, *one, inputs.first, inputs.second, &seconds)?,
        (None, Some(one)) => push_missing(text, list, *one, inputs.second, inputs.first, &firsts)?,
        (None, None) => return Ok(false),
    }
    Ok(true)
}

/// Appends that two netlists in AIGER have other sections, and returns whether they do.
fn push_sections(
    text: &mut Vec<u8>,
    first: &[u8],
    second: &[u8],
    inputs: &Inputs,
) -> Result<bool, AllocError> {
    let are_aiger = matches!(inputs.first_format, Subject::Aiger)
        && matches!(inputs.second_format, Subject::Aiger);
    if !are_aiger || same_sections(first, second) {
        return Ok(false);
    }
    push_place(text, inputs.second, 1)?;
    text.extend_from_slice(b"other numbers of outputs, bad states and constraints than in ")?;
    push_other(text, inputs.second, inputs.first)?;
    Ok(true)
}

/// Appends the first name of the interfaces of two netlists that differs, and how, and returns whether there is one.
pub(crate) fn push_difference(text: &mut Vec<u8>, inputs: &Inputs) -> Result<bool, AllocError> {
    let (Some(first), Some(second)) = (inputs.first.bytes, inputs.second.bytes) else {
        return Ok(false);
    };
    Ok(
        push_list(text, List::Inputs, first, second, inputs)?
            || push_list(text, List::Outputs, first, second, inputs)?
            || push_list(text, List::Clocks, first, second, inputs)?
            || push_list(text, List::Latches, first, second, inputs)?
            || push_sections(text, first, second, inputs)?,
    )
}
