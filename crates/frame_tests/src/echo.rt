//! A small program for tests of the front: it writes what it reads.
use frame_core::Status;
use front_core::Program;
use port_io::{ReadError, Sink, Source, read_all, write_all};
use std::alloc::Global;

/// The most bytes that it reads.
const MOST: usize = 8;

/// Writes its input, of at most eight bytes; `no` has no answer, and of `bit` a part is written before memory runs out.
/// Over a file that is named, an empty text has no answer either.
#[derive(Drop)]
pub struct Echo;

/// The status of a failed read.
fn read_status(error: ReadError) -> Status {
    match error {
        ReadError::ReadFault => Status::ReadFault,
        ReadError::TooLong => Status::Limit,
        ReadError::Memory => Status::Memory,
    }
}

/// Writes a text, and tells the status of the answer.
fn write_back<O: Sink>(out: &mut O, text: &[u8]) -> Status {
    if text == b"no".as_slice() {
        return Status::Malformed;
    }
    if write_all(out, text).is_err() {
        return Status::WriteFault;
    }
    if text == b"bit".as_slice() {
        return Status::Memory;
    }
    Status::Done
}

impl Program for Echo {
    ghost keeps = { λ r. Unit {0} };

    ghost keeps_named = { λ r. Unit {0} };

    ghost compares = { λ budget text source out note status. Unit {0} };

    fn run<S: Source, O: Sink, N: Sink>(
        &self,
        alloc: Global,
        _words: &Vec<String>,
        source: &mut S,
        out: &mut O,
        _note: &mut N,
    ) -> Status {
        match read_all(alloc, source, MOST) {
            Ok(text) => write_back(out, &text),
            Err(error) => read_status(error),
        }
    }

    fn run_named<S: Source, O: Sink, N: Sink>(
        &self,
        alloc: Global,
        _words: &Vec<String>,
        source: &mut S,
        out: &mut O,
        _note: &mut N,
    ) -> Status {
        match read_all(alloc, source, MOST) {
            Ok(text) if text.is_empty() => Status::Malformed,
            Ok(text) => write_back(out, &text),
            Err(error) => read_status(error),
        }
    }

    fn compare<S: Source, O: Sink, N: Sink>(
        &self,
        alloc: Global,
        _budget: u32,
        text: &[u8],
        source: &mut S,
        out: &mut O,
        _note: &mut N,
    ) -> Status {
        let Ok(other) = read_all(alloc, source, MOST) else {
            return Status::ReadFault;
        };
        if write_all(out, text).is_err() || write_all(out, b"|").is_err() {
            return Status::WriteFault;
        }
        write_back(out, &other)
    }
}
