//! The table of options for programs: a line `COMMAND|OPTION|KIND|DEFAULT` for each.

use crate::commands::{COMMANDS, CommandName, name_of};
use crate::options::{Allowed, Row, default_of, options_of};
use crate::pen::{Part, push_parts};
use std::alloc::AllocError;

/// Appends words, each after a blank.
fn push_words(table: &mut Vec<u8>, words: &[&'static [u8]]) -> Result<(), AllocError> {
    for word in words {
        push_parts(table, &[Part::Text(b" "), Part::Text(word)])?;
    }
    Ok(())
}

/// Appends the kind of an option: `number LOW HIGH`, `word WORD..`, `basis`, `bits` or `file`; `either
/// HIGH WORD..` where it takes words and numbers up to HIGH.
fn push_kind(table: &mut Vec<u8>, allowed: Allowed) -> Result<(), AllocError> {
    match allowed {
        Allowed::Number(low, high) => push_parts(
            table,
            &[
                Part::Text(b"number "),
                Part::Number(low),
                Part::Text(b" "),
                Part::Number(high),
            ],
        ),
        Allowed::Bytes(high) => {
            push_parts(table, &[Part::Text(b"number 0 "), Part::Count(high)])
        }
        Allowed::Words(words) => {
            table.extend_from_slice(b"word")?;
            push_words(table, words)
        }
        Allowed::WordsOr(words, high) => {
            push_parts(table, &[Part::Text(b"either "), Part::Number(high)])?;
            push_words(table, words)
        }
        Allowed::Basis => table.extend_from_slice(b"basis"),
        Allowed::File => table.extend_from_slice(b"file"),
        Allowed::Bits => table.extend_from_slice(b"bits"),
    }
}

/// Appends the line of an option.
fn push_line(table: &mut Vec<u8>, command: CommandName, row: &Row) -> Result<(), AllocError> {
    push_parts(
        table,
        &[
            Part::Text(name_of(command)),
            Part::Text(b"|"),
            Part::Text(row.name),
            Part::Text(b"|"),
        ],
    )?;
    push_kind(table, row.allowed)?;
    table.push(b'|')?;
    if let Some(value) = default_of(row) {
        push_parts(table, &[value])?;
    }
    Ok(table.push(b'\n')?)
}

/// Appends the lines of a command.
fn push_lines(table: &mut Vec<u8>, command: CommandName) -> Result<(), AllocError> {
    for row in options_of(command) {
        push_line(table, command, row)?;
    }
    Ok(())
}

/// Appends the table.
pub(crate) fn push_table(table: &mut Vec<u8>) -> Result<(), AllocError> {
    for command in COMMANDS {
        push_lines(table, *command)?;
    }
    Ok(())
}
