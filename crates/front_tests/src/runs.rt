//! The front over files in memory, as a table: words, what fails, and what is seen of the run.

use crate::files::{Known, files_of, words_of};
use file_io::Call;
use frame_tests::MemoryFiles;
use front_app::{Remembering, Retelling, serve};
use front_guide::Retells;
use port_io::{MemorySink, MemorySource};
use progress::Silent;
use std::alloc::{AllocError, Global};
use text_core::after;

/// A run: its words, which calls on files fail, and what is seen of it.
#[derive(Clone, Copy)]
struct Row {
    words: &'static str,
    failing: Option<Call>,
    /// How many bytes can be written to a draft.
    room: usize,
    status: u8,
    /// How the output begins.
    out: &'static str,
    /// How the last line of the notes begins.
    note: &'static str,
    /// How the file `out` begins afterwards.
    held: &'static str,
}

/// Whether a text begins so; it is empty, if nothing else is wanted.
fn is_text(text: &[u8], wanted: &str) -> bool {
    if wanted.is_empty() {
        return text.is_empty();
    }
    after(wanted.as_bytes(), text).is_some()
}

/// The status of the run of a row, without standard input.
fn status_of(
    alloc: Global,
    row: &Row,
    files: &mut MemoryFiles,
    out: &mut MemorySink,
    note: &mut Retelling<MemorySink>,
) -> Result<u8, AllocError> {
    let words = words_of(alloc, row.words)?;
    let input = MemorySource::new(Vec::new(alloc), Vec::new(alloc));
    let mut source = Remembering::new(alloc, input);
    let status = serve(
        alloc,
        &words,
        files,
        &mut source,
        out,
        note,
        &Known,
        &Silent,
    );
    Ok(status.number())
}

/// Whether a run is as its row says, if memory doesn't run out.
fn is_seen(alloc: Global, row: &Row) -> Result<bool, AllocError> {
    let mut files = files_of(alloc, row.failing, row.room)?;
    let mut out = MemorySink::new(alloc, Vec::new(alloc));
    let mut note = Retelling::new(alloc, MemorySink::new(alloc, Vec::new(alloc)));
    let status = status_of(alloc, row, &mut files, &mut out, &mut note)?;
    let is_held = match files.held(b"out") {
        Some(bytes) => is_text(bytes, row.held),
        None => false,
    };
    let is_written = is_text(out.written(), row.out) && is_text(note.last_line(), row.note);
    Ok(status == row.status && is_written && is_held)
}

/// Whether a run is as its row says.
fn is_row(alloc: Global, row: &Row) -> bool {
    match is_seen(alloc, row) {
        Ok(is) => is,
        Err(_) => false,
    }
}

const ROWS: &[Row] = &[
    Row {
        words: "synth tables -o out",
        failing: None,
        room: 999,
        status: 0,
        out: "",
        note: "",
        held: "chains 1\n",
    },
    Row {
        words: "help synth",
        failing: None,
        room: 999,
        status: 0,
        out: "batsokemi synth ",
        note: "",
        held: "old",
    },
    Row {
        words: "synth bad -o out",
        failing: None,
        room: 999,
        status: 2,
        out: "",
        note: "bad:2: 01x1: a row has",
        held: "old",
    },
    Row {
        words: "synth tables -o out",
        failing: None,
        room: 3,
        status: 6,
        out: "",
        note: "out: writing failed: is there space left",
        held: "old",
    },
    Row {
        words: "synth --size 7 --max 5 tables",
        failing: None,
        room: 999,
        status: 1,
        out: "",
        note: "batsokemi: --size is at most --max ",
        held: "old",
    },
    Row {
        words: "recheck --most-bytes 10 minimum",
        failing: None,
        room: 999,
        status: 3,
        out: "",
        note: "minimum: at most 10 bytes",
        held: "old",
    },
    Row {
        words: "improve --format aiger x.bench -o out",
        failing: None,
        room: 999,
        status: 0,
        out: "",
        note: "settled",
        held: "aag 3 2 0 1 1\n",
    },
    Row {
        words: "improve --format aiger a.blif",
        failing: None,
        room: 999,
        status: 2,
        out: "",
        note: "a.blif:1: .inputs a b: `aag M I L O A`",
        held: "old",
    },
    Row {
        words: "improve --format blif a.aag",
        failing: None,
        room: 999,
        status: 2,
        out: "",
        note: "a.aag:1: aag 3 2 0 1 1: a statement as `.names",
        held: "old",
    },
    Row {
        words: "equiv a.blif",
        failing: None,
        room: 999,
        status: 8,
        out: "",
        note: "a.blif: nothing comes after",
        held: "old",
    },
    Row {
        words: "equiv --at 11 a.blif b.blif -o out",
        failing: None,
        room: 999,
        status: 0,
        out: "",
        note: "",
        held: "differ at 11\n",
    },
    Row {
        words: "formula minimum --log out",
        failing: Some(Call::Open),
        room: 999,
        status: 5,
        out: "",
        note: "error: ReadFault minimum: refused",
        held: "old",
    },
    Row {
        words: "formula minimum --log out",
        failing: Some(Call::Keep),
        room: 999,
        status: 6,
        out: "p cnf ",
        note: "error: WriteFault out: refused",
        held: "old",
    },
    Row {
        words: "formula minimum --log out",
        failing: None,
        room: 3,
        status: 6,
        out: "p cnf ",
        note: "standard output, out: writing failed",
        held: "old",
    },
    Row {
        words: "equiv --formula out a.blif b.blif",
        failing: None,
        room: 999,
        status: 8,
        out: "differ output y\nat 11\n",
        note: "b=1",
        held: "p cnf 4 6\n1 2 -3 0\n",
    },
    Row {
        words: "equiv --match names c.blif b.blif -o out",
        failing: None,
        room: 999,
        status: 8,
        out: "",
        note: "a=1",
        held: "differ output y\nat 11\n",
    },
    Row {
        words: "equiv --match names a.blif c.blif",
        failing: None,
        room: 999,
        status: 0,
        out: "equal\n",
        note: "",
        held: "old",
    },
    Row {
        words: "equiv a.blif c.blif",
        failing: None,
        room: 999,
        status: 8,
        out: "",
        note: "a.blif:1: a: ",
        held: "old",
    },
    Row {
        words: "equiv --match names a.blif a.aag",
        failing: None,
        room: 999,
        status: 8,
        out: "",
        note: "a.aag: a: an input of this name",
        held: "old",
    },
];

#[test]
fn the_front_over_files(rt: HostRuntime) {
    for row in ROWS {
        assert!(rt; is_row(rt.alloc(), row), "{}", row.words);
    }
}
