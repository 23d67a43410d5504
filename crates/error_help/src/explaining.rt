//! The line for people after an error line.

use crate::expected::{
    Entry, Place, Subject, after_most_bytes, entry_of, most_bytes, step_entry, word_entry,
};
use crate::finding::line_of;
use crate::halves::is_blank;
use crate::interfaces::push_difference;
use crate::looks::{begins_counted, remark_on};
use crate::netlists::{Role, line_of_name};
use crate::tokens::{Separators, next_token};
use help_text::{Part, push_parts, push_quoted};
use std::alloc::AllocError;
use text_core::{after, number_up_to};

/// An input of a command.
#[derive(Clone, Copy)]
pub struct Input<'a> {
    /// Its name; `-` for standard input.
    pub name: &'a [u8],
    /// Its bytes, if they are known.
    pub bytes: Option<&'a [u8]>,
    /// How many lines of the file come before it; None if that isn't known.
    pub before: Option<u32>,
    /// The most bytes of it that are read, if an option says so.
    pub most_bytes: Option<usize>,
}

impl<'a> Input<'a> {
    /// A whole file, of which as much is read as the command always reads.
    pub fn of(name: &'a [u8], bytes: Option<&'a [u8]>) -> Self {
        Input {
            name,
            bytes,
            before: Some(0),
            most_bytes: None,
        }
    }
}

/// The inputs of a command. Of a command with one input both are the same.
#[derive(Clone, Copy)]
pub struct Inputs<'a> {
    /// The first, or the only one.
    pub first: Input<'a>,
    /// The second.
    pub second: Input<'a>,
    /// The format of the first of two netlists.
    pub first_format: Subject,
    /// That of the second.
    pub second_format: Subject,
}

/// A fault as an error line names it: its name and what comes after that.
#[derive(Clone, Copy)]
struct Fault<'a> {
    name: &'a [u8],
    fields: &'a [u8],
}

/// The first word of an error line, and the rest.
fn fault_of(line: &[u8]) -> Fault<'_> {
    let (name, fields) = next_token(Separators::Blanks, line);
    Fault { name, fields }
}

/// The number that comes next, and what comes after it; 0 if there is none.
fn number_of(fields: &[u8]) -> (u32, &[u8]) {
    let (word, rest) = next_token(Separators::Blanks, fields);
    (number_up_to(u32::MAX, word).unwrap_or(0), rest)
}

/// Appends the number that a line of an input has in its file; 0 stands for no line.
fn push_number(text: &mut Vec<u8>, input: Input, line: u32) -> Result<(), AllocError> {
    match input.before {
        Some(before) if line > 0 => push_parts(
            text,
            &[Part::Text(b":"), Part::Number(before.saturating_add(line))],
        ),
        _ => Ok(()),
    }
}

/// Appends the name of an input and a line of it; 0 stands for no line.
pub(crate) fn push_place(text: &mut Vec<u8>, input: Input, line: u32) -> Result<(), AllocError> {
    push_quoted(text, input.name)?;
    push_number(text, input, line)?;
    text.extend_from_slice(b": ")
}

/// Appends the bytes of a line, and what is wrong with its end.
fn push_line(text: &mut Vec<u8>, bytes: &[u8], line: u32) -> Result<(), AllocError> {
    let Some(found) = line_of(bytes, line) else {
        return text.extend_from_slice(b"the text ends before this line: ");
    };
    push_quoted(text, found.bytes)?;
    if found.bytes.is_empty() {
        text.extend_from_slice(b"an empty line")?;
    }
    if !found.is_ended {
        text.extend_from_slice(b" (without LF at its end)")?;
    }
    text.extend_from_slice(b": ")
}

/// Appends what stands on a line of an input, if that is known.
fn push_standing(text: &mut Vec<u8>, input: Input, line: u32) -> Result<(), AllocError> {
    match input.bytes {
        Some(bytes) if line > 0 => push_line(text, bytes, line),
        _ => Ok(()),
    }
}

/// Appends an entry about a line.
fn push_at(text: &mut Vec<u8>, input: Input, line: u32, says: &[Part]) -> Result<(), AllocError> {
    push_place(text, input, line)?;
    push_standing(text, input, line)?;
    push_parts(text, says)
}

/// Appends an entry about a word on a line, or about the line if there is no word.
fn push_at_word(
    text: &mut Vec<u8>,
    input: Input,
    line: u32,
    word: &[u8],
    says: &[Part],
) -> Result<(), AllocError> {
    if word.is_empty() {
        return push_at(text, input, line, says);
    }
    push_place(text, input, line)?;
    push_quoted(text, word)?;
    text.extend_from_slice(b": ")?;
    push_parts(text, says)
}

/// Appends an entry about a name of a netlist.
fn push_at_name(
    text: &mut Vec<u8>,
    subject: Subject,
    input: Input,
    fields: &[u8],
    role: Role,
    says: &[Part],
) -> Result<(), AllocError> {
    let (name, _) = next_token(Separators::Blanks, fields);
    let separators = match subject {
        Subject::Bench => Separators::Bench,
        _ => Separators::Blanks,
    };
    let line = match input.bytes {
        Some(bytes) => line_of_name(separators, bytes, name, role).unwrap_or(0),
        None => 0,
    };
    push_at_word(text, input, line, name, says)
}

/// Appends what an entry says of a fault.
fn push_entry(
    text: &mut Vec<u8>,
    subject: Subject,
    input: Input,
    entry: Entry,
    fields: &[u8],
) -> Result<(), AllocError> {
    match entry.place {
        Place::Line => {
            let (line, rest) = number_of(fields);
            let (word, _) = next_token(Separators::Blanks, rest);
            let says = match word_entry(word) {
                Some(about) => about.says,
                None => entry.says,
            };
            push_at_word(text, input, line, word, says)
        }
        Place::At(line) => push_at(text, input, line, entry.says),
        Place::Read => push_at_name(text, subject, input, fields, Role::Read, entry.says),
        Place::Driven => push_at_name(text, subject, input, fields, Role::Driven, entry.says),
        Place::DrivenAgain => {
            push_at_name(text, subject, input, fields, Role::DrivenAgain, entry.says)
        }
        Place::Counted => {
            let (count, _) = number_of(fields);
            push_place(text, input, 0)?;
            push_parts(text, &[Part::Number(count)])?;
            push_parts(text, entry.says)
        }
        Place::Nowhere => {
            push_place(text, input, 0)?;
            push_parts(text, entry.says)
        }
    }
}

/// Appends what was expected of a line of a log.
fn push_step(text: &mut Vec<u8>, input: Input, fields: &[u8]) -> Result<(), AllocError> {
    let (line, rest) = number_of(fields);
    let (name, _) = next_token(Separators::Blanks, rest);
    match step_entry(name) {
        Some(entry) => push_at(text, input, line, entry.says),
        None => push_at(text, input, line, &[]),
    }
}

/// Appends that an input is too long.
fn push_too_long(text: &mut Vec<u8>, subject: Subject, input: Input) -> Result<(), AllocError> {
    push_place(text, input, 0)?;
    text.extend_from_slice(b"at most ")?;
    match input.most_bytes {
        Some(most) => push_parts(
            text,
            &[
                Part::Count(most),
                Part::Text(b" bytes are read, as --most-bytes says"),
            ],
        ),
        None => push_parts(
            text,
            &[
                Part::Count(most_bytes(subject)),
                Part::Text(after_most_bytes(subject)),
            ],
        ),
    }
}

/// Whether an input is known to be in the binary form of AIGER.
fn is_binary(input: Input) -> bool {
    match input.bytes {
        Some(text) => begins_counted(b"aig ", text),
        None => false,
    }
}

/// An input whose lines can be shown: those of a binary text aren't the lines that its faults name.
fn shown_input(input: Input) -> Input {
    if is_binary(input) {
        Input {
            name: input.name,
            bytes: None,
            before: input.before,
            most_bytes: input.most_bytes,
        }
    } else {
        input
    }
}

/// Appends a remark on a text in which a line has a fault.
fn push_remark(
    text: &mut Vec<u8>,
    subject: Subject,
    input: Input,
    place: Place,
) -> Result<(), AllocError> {
    match (input.bytes, place) {
        (Some(bytes), Place::Line | Place::At(_)) => {
            text.extend_from_slice(remark_on(subject, bytes))
        }
        _ => Ok(()),
    }
}

/// Appends what was expected, and returns whether there is anything to say.
fn push_fault(
    text: &mut Vec<u8>,
    subject: Subject,
    given: Input,
    fault: Fault,
) -> Result<bool, AllocError> {
    let input = shown_input(given);
    if fault.name == b"TooLong".as_slice() {
        push_too_long(text, subject, input)?;
        return Ok(true);
    }
    if fault.name == b"StepRefused".as_slice() {
        push_step(text, input, fault.fields)?;
        return Ok(true);
    }
    match entry_of(subject, fault.name) {
        Some(entry) => {
            push_entry(text, subject, input, entry, fault.fields)?;
            push_remark(text, subject, given, entry.place)?;
            Ok(true)
        }
        None => Ok(false),
    }
}

/// Whether nothing comes after the first of two netlists, as far as that is known.
fn is_alone(inputs: &Inputs) -> bool {
    match inputs.second.bytes {
        Some(bytes) => is_blank(bytes),
        None => false,
    }
}

/// Appends how the interfaces of two netlists differ, and returns whether that is known.
fn push_interfaces(text: &mut Vec<u8>, inputs: &Inputs) -> Result<bool, AllocError> {
    if !is_alone(inputs) {
        return push_difference(text, inputs);
    }
    push_place(text, inputs.first, 0)?;
    text.extend_from_slice(
        b"nothing comes after its first netlist: equiv compares two files, or two netlists in one text",
    )?;
    Ok(true)
}

/// Appends what was expected of an input of two, or of the certificate within another, or of the only one.
fn push_led(
    text: &mut Vec<u8>,
    subject: Subject,
    line: &[u8],
    inputs: &Inputs,
) -> Result<bool, AllocError> {
    let fault = fault_of(line);
    if fault.name == b"First".as_slice() {
        return push_fault(
            text,
            inputs.first_format,
            inputs.first,
            fault_of(fault.fields),
        );
    }
    if fault.name == b"Second".as_slice() {
        return push_fault(
            text,
            inputs.second_format,
            inputs.second,
            fault_of(fault.fields),
        );
    }
    if fault.name == b"Certificate".as_slice() || fault.name == b"Bundle".as_slice() {
        return push_fault(
            text,
            Subject::Certificate,
            inputs.first,
            fault_of(fault.fields),
        );
    }
    if fault.name == b"DifferentInterface".as_slice() && push_interfaces(text, inputs)? {
        return Ok(true);
    }
    push_fault(text, subject, inputs.first, fault)
}

/// Appends the line for people to an error line: the file, the line, what stands there, and what was expected.
/// Returns whether there is one; if there is none, nothing is appended.
pub fn push_explained(
    text: &mut Vec<u8>,
    subject: Subject,
    error_line: &[u8],
    inputs: &Inputs,
) -> Result<bool, AllocError> {
    let Some(line) = after(b"error: ", error_line) else {
        return Ok(false);
    };
    let is_explained = push_led(text, subject, line, inputs)?;
    if is_explained {
        text.push(b'\n')?;
    }
    Ok(is_explained)
}
