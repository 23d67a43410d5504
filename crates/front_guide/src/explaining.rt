//! The line for people after an error line.

use crate::remarks::{names, push_remarks, push_unnamed};
use crate::remembering::{Recalls, Retells};
use crate::subjects::{Reading, netlist_in, reading_of, usual};
use error_help::{Input, Inputs, Subject, halves_of, push_explained};
use file_words::{FileLine, is_standard, read_line};
use format_names::{FormatPair, NetFormat};
use frame_core::Status;
use help_text::push_wrong_words;
use std::alloc::{AllocError, Global};

/// Reads files again that were named.
pub trait Rereads {
    /// The bytes of a plain file; None if it is none, too long, or can't be read.
    fn reread(&self, alloc: Global, name: &str) -> Option<Vec<u8>>;
}

/// The bytes of a file that was named; None for standard input.
fn file_bytes<R: Rereads>(alloc: Global, reader: &R, file: Option<&String>) -> Option<Vec<u8>> {
    match file {
        Some(name) if !is_standard(name.as_str()) => reader.reread(alloc, name.as_str()),
        _ => None,
    }
}

/// What was seen of standard input, from the start, and whether that is all that was read.
#[derive(Clone, Copy)]
struct Seen<'a> {
    bytes: &'a [u8],
    is_whole: bool,
}

/// Standard input with what was seen of it.
fn standard_input(seen: Seen<'_>) -> Input<'_> {
    if seen.is_whole {
        Input::of(b"-", Some(seen.bytes))
    } else {
        Input::of(b"-", None)
    }
}

/// A file with its bytes, if they were read again.
fn file_input<'a>(name: &'a str, bytes: &'a Option<Vec<u8>>) -> Input<'a> {
    match bytes {
        Some(found) => Input::of(name.as_bytes(), Some(found.as_slice())),
        None => Input::of(name.as_bytes(), None),
    }
}

/// An input: a file with its bytes, or standard input with what was seen of it.
fn input_of<'a>(file: &'a String, bytes: &'a Option<Vec<u8>>, seen: Seen<'a>) -> Input<'a> {
    if is_standard(file.as_str()) {
        standard_input(seen)
    } else {
        file_input(file.as_str(), bytes)
    }
}

/// The first input of a command.
fn first_of<'a>(files: &'a [String], bytes: &'a Option<Vec<u8>>, seen: Seen<'a>) -> Input<'a> {
    match files.split_first() {
        Some((file, _)) => input_of(file, bytes, seen),
        None => standard_input(seen),
    }
}

/// The inputs of a command: of two netlists in one text each its part.
fn inputs_of<'a>(
    subject: Subject,
    formats: FormatPair,
    first: Input<'a>,
    other: Option<Input<'a>>,
) -> Inputs<'a> {
    let first_format = netlist_in(formats.first);
    let second_format = netlist_in(formats.second);
    match (subject, other) {
        (Subject::Pair, None) => {
            let halves = halves_of(first);
            Inputs {
                first: halves.first,
                second: halves.second,
                first_format,
                second_format,
            }
        }
        (_, second) => Inputs {
            first,
            second: second.unwrap_or(first),
            first_format,
            second_format,
        },
    }
}

/// The second input of a command, if it is named.
fn second_of<'a>(
    files: &'a [String],
    bytes: &'a Option<Vec<u8>>,
    seen: Seen<'a>,
) -> Option<Input<'a>> {
    match files.get(1) {
        Some(file) => Some(input_of(file, bytes, seen)),
        None => None,
    }
}

/// Appends the line of a command over the files of its line, of which these bytes were read again.
fn push_of_inputs<'a>(
    text: &mut Vec<u8>,
    reading: Reading,
    formats: FormatPair,
    files: &'a [String],
    bytes: &'a Option<Vec<u8>>,
    other_bytes: &'a Option<Vec<u8>>,
    seen: &'a [u8],
    is_whole: bool,
    error_line: &[u8],
) -> Result<(), AllocError> {
    let seen = Seen {
        bytes: seen,
        is_whole,
    };
    let mut first = first_of(files, bytes, seen);
    first.most_bytes = reading.most_bytes;
    let second = second_of(files, other_bytes, seen);
    let inputs = inputs_of(reading.subject, formats, first, second);
    push_explained(text, reading.subject, error_line, &inputs)?;
    Ok(())
}

/// The formats in which two netlists are read, where the words of a line ask for these.
fn read_as(asked: FormatPair, words: &[String]) -> FormatPair {
    if names(b"--formula", words) {
        FormatPair {
            first: NetFormat::Blif,
            second: NetFormat::Blif,
        }
    } else {
        asked
    }
}

/// Appends the line of words that may name files.
fn push_of_line<R: Rereads>(
    alloc: Global,
    text: &mut Vec<u8>,
    reading: Reading,
    formats: FormatPair,
    line: &FileLine,
    seen: &[u8],
    is_whole: bool,
    error_line: &[u8],
    reader: &R,
) -> Result<(), AllocError> {
    let bytes = file_bytes(alloc, reader, line.operands.first());
    let other_bytes = file_bytes(alloc, reader, line.operands.get(1));
    push_of_inputs(
        text,
        reading,
        read_as(formats, &line.words),
        &line.operands,
        &bytes,
        &other_bytes,
        seen,
        is_whole,
        error_line,
    )?;
    push_remarks(text, formats, line)
}

/// Appends the line on a netlist of a line.
fn push_of_netlist<S: Recalls, N: Retells, R: Rereads>(
    alloc: Global,
    text: &mut Vec<u8>,
    format: NetFormat,
    line: &FileLine,
    source: &S,
    note: &N,
    reader: &R,
) -> Result<(), AllocError> {
    let bytes = file_bytes(alloc, reader, line.operands.first());
    let formats = FormatPair {
        first: format,
        second: format,
    };
    push_of_inputs(
        text,
        usual(netlist_in(format)),
        formats,
        &line.operands,
        &bytes,
        &None,
        source.seen(),
        source.is_whole(),
        note.last_line(),
    )
}

/// The line for people of a run without an answer over a netlist of a line; empty if there is nothing to say.
fn line_of_netlist<S: Recalls, N: Retells, R: Rereads>(
    alloc: Global,
    format: NetFormat,
    line: &FileLine,
    status: Status,
    source: &S,
    note: &N,
    reader: &R,
) -> Result<Vec<u8>, AllocError> {
    let mut text = Vec::new(alloc);
    match status {
        Status::Malformed | Status::Limit | Status::Refused => {
            push_of_netlist(alloc, &mut text, format, line, source, note, reader)?
        }
        Status::WriteFault => push_unnamed(&mut text, line, note.last_line())?,
        Status::Usage | Status::Done | Status::Undecided | Status::ReadFault | Status::Memory => {}
    }
    Ok(text)
}

/// The same; empty if memory runs out.
pub(crate) fn netlist_line<S: Recalls, N: Retells, R: Rereads>(
    alloc: Global,
    format: NetFormat,
    line: &FileLine,
    status: Status,
    source: &S,
    note: &N,
    reader: &R,
) -> Vec<u8> {
    match line_of_netlist(alloc, format, line, status, source, note, reader) {
        Ok(text) => text,
        Err(_) => Vec::new(alloc),
    }
}

/// Appends the line of words that may name files, after a run without an answer. Of `improve` of its program this is
/// known.
fn push_for_line<S: Recalls, N: Retells, R: Rereads>(
    alloc: Global,
    text: &mut Vec<u8>,
    improved: Option<NetFormat>,
    formats: FormatPair,
    line: &FileLine,
    status: Status,
    source: &S,
    note: &N,
    reader: &R,
) -> Result<(), AllocError> {
    if matches!(status, Status::WriteFault) {
        return push_unnamed(text, line, note.last_line());
    }
    let Some(reading) = reading_of(alloc, line, improved) else {
        return Ok(());
    };
    push_of_line(
        alloc,
        text,
        reading,
        formats,
        line,
        source.seen(),
        source.is_whole(),
        note.last_line(),
        reader,
    )
}

/// The line for people of a run without an answer; empty if there is nothing to say. Two netlists are in these formats.
fn line_for<S: Recalls, N: Retells, R: Rereads>(
    alloc: Global,
    improved: Option<NetFormat>,
    formats: FormatPair,
    words: &Vec<String>,
    status: Status,
    source: &S,
    note: &N,
    reader: &R,
) -> Result<Vec<u8>, AllocError> {
    let mut text = Vec::new(alloc);
    match status {
        Status::Usage => push_wrong_words(&mut text, words)?,
        Status::Malformed | Status::Limit | Status::Refused | Status::WriteFault => {
            if let Some(line) = read_line(alloc, words)? {
                push_for_line(
                    alloc, &mut text, improved, formats, &line, status, source, note, reader,
                )?;
            }
        }
        Status::Done | Status::Undecided | Status::ReadFault | Status::Memory => {}
    }
    Ok(text)
}

/// The same; empty if memory runs out.
pub(crate) fn people_line<S: Recalls, N: Retells, R: Rereads>(
    alloc: Global,
    improved: Option<NetFormat>,
    formats: FormatPair,
    words: &Vec<String>,
    status: Status,
    source: &S,
    note: &N,
    reader: &R,
) -> Vec<u8> {
    match line_for(
        alloc, improved, formats, words, status, source, note, reader,
    ) {
        Ok(text) => text,
        Err(_) => Vec::new(alloc),
    }
}
