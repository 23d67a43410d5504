//! What is wrong with words that are no command line: the first wrong word, and what is allowed in its place.

use crate::clashes::{first_clash, push_clash};
use crate::commands::{COMMANDS, CommandName, command_named, most_files, name_of};
use crate::options::{Allowed, Row, options_of, row_named};
use crate::pen::{Part, push_parts};
use crate::phrases::{push_takes, push_word};
use crate::topics::push_topic_names;
use crate::values::{is_bits, is_bytes, is_option, value_of};
use op_basis::read_basis;
use std::alloc::AllocError;
use text_core::number_up_to;

/// The first fault of the words after a command.
#[derive(Clone, Copy)]
enum Fault<'a> {
    /// The command has no such option.
    NoOption(&'a [u8]),
    /// An option and its value are one word.
    OneWord(&'a [u8]),
    /// The value is missing.
    NoValue(Row),
    /// The option is named twice.
    Twice(Row),
    /// The option doesn't take this value.
    BadValue(Row, &'a [u8]),
    /// This file is one too many.
    TooMany(&'a [u8]),
}

/// Whether a word is one of some words.
fn is_among(word: &[u8], words: &[&'static [u8]]) -> bool {
    for other in words {
        if *other == word {
            return true;
        }
    }
    false
}

/// Whether an option takes a value.
fn takes(row: &Row, word: &[u8]) -> bool {
    match row.allowed {
        Allowed::Number(low, high) => match number_up_to(high, word) {
            Some(number) => number >= low,
            None => false,
        },
        Allowed::Bytes(high) => is_bytes(high, word),
        Allowed::Words(words) => is_among(word, words),
        Allowed::WordsOr(words, high) => {
            is_among(word, words) || number_up_to(high, word).is_some()
        }
        Allowed::Basis => read_basis(word).is_ok(),
        Allowed::File => true,
        Allowed::Bits => is_bits(word),
    }
}

/// Whether a word has a character `=`.
fn has_equals(word: &[u8]) -> bool {
    for byte in word {
        if *byte == b'=' {
            return true;
        }
    }
    false
}

/// The fault of an option, with the words behind its name.
fn option_fault<'a>(command: CommandName, name: &'a [u8], rest: &'a [String]) -> Option<Fault<'a>> {
    let Some(row) = row_named(command, name) else {
        if has_equals(name) {
            return Some(Fault::OneWord(name));
        }
        return Some(Fault::NoOption(name));
    };
    let Some((value, after)) = rest.split_first() else {
        return Some(Fault::NoValue(row));
    };
    if !takes(&row, value.as_bytes()) {
        return Some(Fault::BadValue(row, value.as_bytes()));
    }
    if value_of(name, after).is_some() {
        return Some(Fault::Twice(row));
    }
    None
}

/// The first fault of options and files, one after the other.
fn word_fault(command: CommandName, words: &[String]) -> Option<Fault<'_>> {
    let mut files: usize = 0;
    let mut are_files = false;
    let mut is_value = false;
    let mut left = words;
    for _ in 0..words.len() {
        let Some((word, rest)) = left.split_first() else {
            break;
        };
        let bytes = word.as_bytes();
        if is_value {
            is_value = false;
        } else if !are_files && bytes == b"--".as_slice() {
            are_files = true;
        } else if !are_files && is_option(bytes) {
            let fault = option_fault(command, bytes, rest);
            if fault.is_some() {
                return fault;
            }
            is_value = true;
        } else if files >= most_files(command) {
            return Some(Fault::TooMany(bytes));
        } else {
            files = files.saturating_add(1);
        }
        left = rest;
    }
    None
}

/// Appends the names of a command's options.
fn push_names(text: &mut Vec<u8>, command: CommandName) -> Result<(), AllocError> {
    for row in options_of(command) {
        push_parts(text, &[Part::Text(b" "), Part::Text(row.name)])?;
    }
    Ok(())
}

/// Appends what is wrong with a word.
fn push_fault(text: &mut Vec<u8>, command: CommandName, fault: Fault) -> Result<(), AllocError> {
    match fault {
        Fault::NoOption(word) => {
            push_parts(
                text,
                &[Part::Text(name_of(command)), Part::Text(b" has no option ")],
            )?;
            push_word(text, b"", word, b"; it has")?;
            push_names(text, command)
        }
        Fault::OneWord(word) => {
            push_word(
                text,
                b"an option and its value are two words, and not ",
                word,
                b"",
            )
        }
        Fault::NoValue(row) => push_takes(text, &row, b" needs a value: "),
        Fault::Twice(row) => {
            push_parts(
                text,
                &[Part::Text(row.name), Part::Text(b" is named twice")],
            )
        }
        Fault::BadValue(row, word) => {
            push_takes(text, &row, b" takes ")?;
            push_word(text, b", and not ", word, b"")
        }
        Fault::TooMany(word) => push_too_many(text, command, word),
    }
}

/// How many files a command reads, in words.
fn files_of(command: CommandName) -> &'static [u8] {
    match most_files(command) {
        0 => b" reads no file, and ",
        1 => b" reads one file, and ",
        _ => b" reads two files, and ",
    }
}

/// Appends that a file is one too many.
fn push_too_many(text: &mut Vec<u8>, command: CommandName, word: &[u8]) -> Result<(), AllocError> {
    push_parts(
        text,
        &[Part::Text(name_of(command)), Part::Text(files_of(command))],
    )?;
    push_word(text, b"", word, b" is one more")
}

/// Appends the names of the commands.
fn push_commands(text: &mut Vec<u8>) -> Result<(), AllocError> {
    for command in COMMANDS {
        push_parts(text, &[Part::Text(b" "), Part::Text(name_of(*command))])?;
    }
    Ok(())
}

/// Appends the first clash of a command's options.
fn push_first_clash(
    text: &mut Vec<u8>,
    command: CommandName,
    words: &[String],
) -> Result<(), AllocError> {
    match first_clash(command, words) {
        Some(rule) => push_clash(text, command, rule, words),
        None => text.extend_from_slice(b"these words are no command line"),
    }
}

/// Appends what is wrong with the words of a command.
fn push_command_fault(
    text: &mut Vec<u8>,
    command: CommandName,
    words: &[String],
) -> Result<(), AllocError> {
    match word_fault(command, words) {
        Some(fault) => push_fault(text, command, fault)?,
        None => push_first_clash(text, command, words)?,
    }
    push_parts(
        text,
        &[
            Part::Text(b" (batsokemi help "),
            Part::Text(name_of(command)),
            Part::Text(b")\n"),
        ],
    )
}

/// Appends what is wrong with the words after `help`.
fn push_help_fault(text: &mut Vec<u8>, words: &[String]) -> Result<(), AllocError> {
    let Some((word, _)) = words.split_first() else {
        return Ok(());
    };
    push_word(
        text,
        b"help has no page ",
        word.as_bytes(),
        b", or not with more words; it has",
    )?;
    push_commands(text)?;
    text.push(b' ')?;
    push_topic_names(text)?;
    text.extend_from_slice(b"--completion --manual --options\n")
}

/// Appends what is wrong with words that are no command line, as a line for people.
pub fn push_wrong_words(text: &mut Vec<u8>, words: &[String]) -> Result<(), AllocError> {
    text.extend_from_slice(b"batsokemi: ")?;
    let Some((first, rest)) = words.split_first() else {
        text.extend_from_slice(b"a command is needed, one of")?;
        push_commands(text)?;
        return text.extend_from_slice(b" (batsokemi help)\n");
    };
    if first.as_bytes() == b"help".as_slice() {
        return push_help_fault(text, rest);
    }
    match command_named(first.as_bytes()) {
        Some(command) => push_command_fault(text, command, rest),
        None => {
            push_word(
                text,
                b"there is no command ",
                first.as_bytes(),
                b"; there is",
            )?;
            push_commands(text)?;
            text.extend_from_slice(b" help (batsokemi help)\n")
        }
    }
}
