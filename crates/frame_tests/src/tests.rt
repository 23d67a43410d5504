//! Runs of the small commands in memory, as tables: which calls fail, the status, and what is written.

use crate::{Greeting, Lines};
use frame_core::{AtOnce, perform};
use port_io::{MemorySink, MemorySource};
use std::alloc::{AllocError, Global};

/// The numbers of the calls that fail.
type Fails = &'static [u64];

/// The name, the input, which reads, writes and calls of the notes fail, the status, how many reads failed, the
/// output and the notes.
type Run = (
    &'static str,
    &'static [u8],
    (Fails, Fails, Fails),
    u8,
    u64,
    &'static [u8],
    &'static [u8],
);

/// The source and the sinks of a run.
#[derive(Drop)]
struct Outside {
    source: MemorySource,
    out: MemorySink,
    note: MemorySink,
}

/// A source of an input.
fn source(alloc: Global, input: &[u8], fails: Fails) -> Result<MemorySource, AllocError> {
    let bytes = Vec::from_slice(alloc, input)?;
    Ok(MemorySource::new(bytes, Vec::from_slice(alloc, fails)?))
}

/// A sink.
fn sink(alloc: Global, fails: Fails) -> Result<MemorySink, AllocError> {
    Ok(MemorySink::new(alloc, Vec::from_slice(alloc, fails)?))
}

/// The source and the sinks before a run.
fn ports(alloc: Global, run: &Run) -> Result<Outside, AllocError> {
    let source = source(alloc, run.1, run.2.0)?;
    let out = sink(alloc, run.2.1)?;
    let note = sink(alloc, run.2.2)?;
    Ok(Outside { source, out, note })
}

/// Runs the greeting or the lines, and returns the status.
fn performed(alloc: Global, greets: bool, ports: &mut Outside) -> u8 {
    let (source, out, note) = (&mut ports.source, &mut ports.out, &mut ports.note);
    if greets {
        return perform(alloc, &AtOnce(Greeting), source, out, note).number();
    }
    perform(alloc, &Lines, source, out, note).number()
}

/// Whether a run of the greeting or of the lines has the expected results.
fn is_run(alloc: Global, greets: bool, run: &Run) -> bool {
    let Ok(mut ports) = ports(alloc, run) else {
        return false;
    };
    let reported = performed(alloc, greets, &mut ports) == run.3 && ports.source.faults() == run.4;
    reported && ports.out.written() == run.5 && ports.note.written() == run.6
}

/// Runs of the lines.
const LINES: &[Run] = &[
    ("the empty text", b"", (&[], &[], &[]), 0, 0, b"", b""),
    (
        "three lines",
        b"abc",
        (&[], &[], &[]),
        0,
        0,
        b"a\nb\nc\n",
        b"",
    ),
    (
        "a text that is too long",
        b"abcd",
        (&[], &[], &[]),
        3,
        0,
        b"",
        b"error: TooLong\n",
    ),
    (
        "the second read fails",
        b"abc",
        (&[2], &[], &[]),
        5,
        1,
        b"",
        b"error: ReadFault\n",
    ),
    (
        "the first write fails",
        b"abc",
        (&[], &[1], &[]),
        6,
        0,
        b"",
        b"error: WriteFault\n",
    ),
    (
        "the third write fails",
        b"abc",
        (&[], &[3], &[]),
        6,
        0,
        b"a\nb\n",
        b"error: WriteFault\n",
    ),
    (
        "a call of the notes that isn't made",
        b"abc",
        (&[], &[4], &[1]),
        0,
        0,
        b"a\nb\nc\n",
        b"",
    ),
    (
        "out of memory at once",
        b"!",
        (&[], &[], &[]),
        7,
        0,
        b"",
        b"error: Memory\n",
    ),
    (
        "out of memory after two lines",
        b"ab!",
        (&[], &[], &[]),
        7,
        0,
        b"a\nb\n",
        b"error: Memory\n",
    ),
    (
        "out of memory, and the notes fail",
        b"ab!",
        (&[], &[], &[1]),
        7,
        0,
        b"a\nb\n",
        b"",
    ),
    (
        "the second write fails before memory runs out",
        b"ab!",
        (&[], &[2], &[]),
        6,
        0,
        b"a\n",
        b"error: WriteFault\n",
    ),
];

#[test]
fn lines_are_written_until_a_call_fails(rt: HostRuntime) {
    for run in LINES {
        assert!(rt; is_run(rt.alloc(), false, run), "{}", run.0);
    }
}

/// Runs of the greeting. The first call of the source would fail, but none is made.
const GREETINGS: &[Run] = &[
    (
        "no call fails",
        b"unread",
        (&[1], &[], &[]),
        0,
        0,
        b"hello\n",
        b"2 parts\none\ntwo\ndone\n",
    ),
    (
        "the write fails",
        b"unread",
        (&[1], &[1], &[]),
        6,
        0,
        b"",
        b"error: WriteFault\n",
    ),
    (
        "the first call of the notes fails",
        b"unread",
        (&[1], &[], &[1]),
        6,
        0,
        b"hello\n",
        b"error: WriteFault\n",
    ),
    (
        "the second call of the notes fails",
        b"unread",
        (&[1], &[], &[2]),
        6,
        0,
        b"hello\n",
        b"2 parts\nerror: WriteFault\n",
    ),
    (
        "the third call of the notes fails",
        b"unread",
        (&[1], &[], &[3]),
        6,
        0,
        b"hello\n",
        b"2 parts\none\nerror: WriteFault\n",
    ),
    (
        "the fourth call of the notes fails",
        b"unread",
        (&[1], &[], &[4]),
        6,
        0,
        b"hello\n",
        b"2 parts\none\ntwo\nerror: WriteFault\n",
    ),
    (
        "the fourth call of the notes and the report of it fail",
        b"unread",
        (&[1], &[], &[4, 5]),
        6,
        0,
        b"hello\n",
        b"2 parts\none\ntwo\n",
    ),
    (
        "the fifth call of the notes isn't made",
        b"unread",
        (&[1], &[], &[5]),
        0,
        0,
        b"hello\n",
        b"2 parts\none\ntwo\ndone\n",
    ),
];

#[test]
fn notes_of_a_greeting_are_written_until_a_call_fails(rt: HostRuntime) {
    for run in GREETINGS {
        assert!(rt; is_run(rt.alloc(), true, run), "{}", run.0);
    }
}
