//! Runs in memory, with fault injection.
use chain_app::run;
use port_io::{MemorySink, MemorySource};
use std::alloc::{AllocError, Global};

/// The results of a run: its status, its output and its notes.
#[derive(Drop)]
pub(crate) struct Seen {
    pub(crate) status: u8,
    pub(crate) out: MemorySink,
    pub(crate) note: MemorySink,
}

impl Seen {
    /// Whether the run has this status, this output and these notes.
    pub(crate) fn is(&self, status: u8, out: &[u8], note: &[u8]) -> bool {
        self.status == status && self.out.written() == out && self.note.written() == note
    }
}

/// Which calls of a port fail: one, all up to one, or none.
#[derive(Clone, Copy)]
pub(crate) enum Fails {
    None,
    At(u64),
    UpTo(u64),
}

/// The numbers of the calls that fail.
fn calls(alloc: Global, fails: Fails) -> Result<Vec<u64>, AllocError> {
    let mut calls = Vec::new(alloc);
    match fails {
        Fails::None => {}
        Fails::At(call) => calls.push(call)?,
        Fails::UpTo(last) => calls.extend_from_slice(Vec::from_iter(alloc, 1..last)?.as_slice())?,
    }
    Ok(calls)
}

/// The words of a line, separated by blanks.
pub(crate) fn words_of(alloc: Global, line: &str) -> Result<Vec<String>, AllocError> {
    let mut words = Vec::new(alloc);
    for word in line.split(' ') {
        words.push(String::from_str(alloc, word)?)?;
    }
    Ok(words)
}

/// A source of an input.
fn source(alloc: Global, input: &[u8], fails: Fails) -> Result<MemorySource, AllocError> {
    let bytes = Vec::from_slice(alloc, input)?;
    Ok(MemorySource::new(bytes, calls(alloc, fails)?))
}

/// A sink.
fn sink(alloc: Global, fails: Fails) -> Result<MemorySink, AllocError> {
    Ok(MemorySink::new(alloc, calls(alloc, fails)?))
}

/// An output and notes before a run.
fn nothing(alloc: Global, writes: Fails, notes: Fails) -> Result<Seen, AllocError> {
    let out = sink(alloc, writes)?;
    let note = sink(alloc, notes)?;
    Ok(Seen {
        status: 0,
        out,
        note,
    })
}

/// Runs in memory; calls of the source, of the output and of the notes may fail.
pub(crate) fn run_on(
    alloc: Global,
    line: &str,
    input: &[u8],
    reads: Fails,
    writes: Fails,
    notes: Fails,
) -> Result<Seen, AllocError> {
    let words = words_of(alloc, line)?;
    let mut source = source(alloc, input, reads)?;
    let mut seen = nothing(alloc, writes, notes)?;
    let status = run(alloc, &words, &mut source, &mut seen.out, &mut seen.note).number();
    seen.status = status;
    Ok(seen)
}

/// Runs without a failure.
pub(crate) fn reported(alloc: Global, line: &str, input: &[u8]) -> Result<Seen, AllocError> {
    run_on(alloc, line, input, Fails::None, Fails::None, Fails::None)
}

/// Whether a run without a failure ends with this status, this output and these notes.
pub(crate) fn reports(
    alloc: Global,
    line: &str,
    input: &[u8],
    status: u8,
    out: &str,
    note: &str,
) -> bool {
    match reported(alloc, line, input) {
        Ok(seen) => seen.is(status, out.as_bytes(), note.as_bytes()),
        Err(_) => false,
    }
}
