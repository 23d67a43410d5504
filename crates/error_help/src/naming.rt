//! Names of an interface, as each format has them.

use crate::tokens::{Separators, next_token};
use help_text::{Part, push_parts, push_quoted};
use std::alloc::AllocError;
use text_core::number_up_to;

/// A name of an interface, and where it stands.
#[derive(Clone, Copy)]
pub(crate) struct Named<'a> {
    /// The name, where the text has it.
    pub(crate) name: &'a [u8],
    /// The number that makes the name, where the text has none: `i0`, `i1`.
    pub(crate) number: Option<u32>,
    /// The line of its statement; 0 if it isn't known.
    pub(crate) line: u32,
    /// Of a latch in BLIF: what controls it, and its initial value.
    pub(crate) latch: Option<Latch<'a>>,
}

/// What a latch has besides its name.
#[derive(Clone, Copy)]
pub(crate) struct Latch<'a> {
    pub(crate) control: &'a [u8],
    pub(crate) initial: &'a [u8],
}

/// Which names of an interface are compared.
#[derive(Clone, Copy)]
pub(crate) enum List {
    Inputs,
    Outputs,
    Clocks,
    Latches,
}

/// The word that comes next, and the rest.
pub(crate) fn word_of(line: &[u8]) -> (&[u8], &[u8]) {
    next_token(Separators::Blanks, line)
}

/// A name with nothing else.
pub(crate) fn plain_name(name: &[u8], line: u32) -> Named<'_> {
    Named {
        name,
        number: None,
        line,
        latch: None,
    }
}

/// What one of these names is called.
pub(crate) fn kind_of(list: List) -> &'static [u8] {
    match list {
        List::Inputs => b"input",
        List::Outputs => b"output",
        List::Clocks => b"clock",
        List::Latches => b"latch",
    }
}

/// The letter of such names in AIGER.
pub(crate) fn letter_of(list: List) -> u8 {
    match list {
        List::Inputs => b'i',
        List::Outputs => b'o',
        List::Clocks => b'c',
        List::Latches => b'l',
    }
}

/// Whether a name is a letter and a number.
fn is_numbered(name: &[u8], letter: u8, number: u32) -> bool {
    let Some((first, rest)) = name.split_first() else {
        return false;
    };
    *first == letter && number_up_to(u32::MAX, rest) == Some(number)
}

/// Whether two names of lists of one kind are the same.
pub(crate) fn is_same_name(list: List, one: Named, other: Named) -> bool {
    match (one.number, other.number) {
        (None, None) => one.name == other.name,
        (Some(number), None) => is_numbered(other.name, letter_of(list), number),
        (None, Some(number)) => is_numbered(one.name, letter_of(list), number),
        (Some(number), Some(second)) => number == second,
    }
}

/// Appends a name.
pub(crate) fn push_named(text: &mut Vec<u8>, list: List, given: Named) -> Result<(), AllocError> {
    match given.number {
        Some(number) => {
            text.push(letter_of(list))?;
            push_parts(text, &[Part::Number(number)])
        }
        None => push_quoted(text, given.name),
    }
}
