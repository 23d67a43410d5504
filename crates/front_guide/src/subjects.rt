//! What the command of a line reads.

use command_line::{Command, Format, read_words};
use error_help::Subject;
use file_words::FileLine;
use format_names::NetFormat;
use front_large::{Large, large_in};
use std::alloc::Global;

/// A program that knows what its `improve` reads.
pub trait Improves {
    /// The format that `improve` reads whatever its words say; None if the words say it.
    fn improved(&self) -> Option<NetFormat>;
}

/// What is read, and the most bytes of it, where words ask for these.
#[derive(Clone, Copy)]
pub(crate) struct Reading {
    pub(crate) subject: Subject,
    pub(crate) most_bytes: Option<usize>,
}

/// What a netlist in a format is.
pub(crate) fn netlist_in(format: NetFormat) -> Subject {
    match format {
        NetFormat::Blif => Subject::Blif,
        NetFormat::Bench => Subject::Bench,
        NetFormat::Aiger => Subject::Aiger,
    }
}

/// What `improve` reads by its words.
fn named_in(format: Format) -> Subject {
    match format {
        Format::Blif => Subject::Blif,
        Format::Bench => Subject::Bench,
    }
}

/// What a command reads, of whose `improve` this is known.
fn subject_of(command: &Command, improved: Option<NetFormat>) -> Subject {
    match command {
        Command::Synth(_) | Command::LeastDepth(_) => Subject::Tables,
        Command::Agree => Subject::Question,
        Command::Recheck => Subject::Certificate,
        Command::RecheckDepth => Subject::Depth,
        Command::Improve {
            format,
            settings: _,
        } => match improved {
            Some(known) => netlist_in(known),
            None => named_in(*format),
        },
        Command::Gen { .. } => Subject::Blif,
        Command::Equiv(_) => Subject::Pair,
    }
}

/// What is read as much as ever.
pub(crate) fn usual(subject: Subject) -> Reading {
    Reading {
        subject,
        most_bytes: None,
    }
}

/// What a large question reads; None if words ask for none.
fn large_reading(alloc: Global, words: &Vec<String>) -> Option<Reading> {
    match large_in(alloc, words) {
        Ok(Some(Large::Part(_))) => Some(usual(Subject::Tables)),
        Ok(Some(Large::Steps(most))) => Some(Reading {
            subject: Subject::Certificate,
            most_bytes: Some(most as usize),
        }),
        Ok(Some(Large::Levels(most))) => Some(Reading {
            subject: Subject::Depth,
            most_bytes: Some(most as usize),
        }),
        Ok(None) | Err(_) => None,
    }
}

/// What the command of a line reads, of whose `improve` this is known; None if its words are none of a command.
pub(crate) fn reading_of(
    alloc: Global,
    line: &FileLine,
    improved: Option<NetFormat>,
) -> Option<Reading> {
    let words = &line.words;
    let (name, _) = words.split_first()?;
    if name.as_bytes() == b"formula".as_slice() {
        return Some(usual(Subject::Certificate));
    }
    if name.as_bytes() == b"equiv".as_slice() {
        return Some(usual(Subject::Pair));
    }
    match read_words(words) {
        Ok(command) => Some(usual(subject_of(&command, improved))),
        Err(_) => large_reading(alloc, words),
    }
}
