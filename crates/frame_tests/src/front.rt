//! The front over files in memory, as a table: words, what fails, and what is seen of the run.

use crate::{Echo, MemoryFile, MemoryFiles};
use file_io::Call;
use front_core::serve;
use port_io::{MemorySink, MemorySource};
use std::alloc::{AllocError, Global};

/// The words, the calls that fail, the room of a draft, the status, the output, the notes, and what the file `out`
/// holds afterwards, which held `old` before. The file `in` holds `text`, and standard input `std`.
type Row = (
    &'static str,
    Option<Call>,
    usize,
    u8,
    &'static str,
    &'static str,
    &'static str,
);

/// The words of a line, separated by blanks.
fn words_of(alloc: Global, line: &str) -> Result<Vec<String>, AllocError> {
    let mut words = Vec::new(alloc);
    for word in line.split(' ') {
        words.push(String::from_str(alloc, word)?)?;
    }
    Ok(words)
}

/// Adds a file.
fn add(alloc: Global, files: &mut MemoryFiles, name: &[u8], text: &[u8]) -> Result<(), AllocError> {
    let name = Vec::from_slice(alloc, name)?;
    let bytes = Vec::from_slice(alloc, text)?;
    files.files.push(MemoryFile { name, bytes })?;
    Ok(())
}

/// The files before a run.
fn files_of(alloc: Global, failing: Option<Call>, room: usize) -> Result<MemoryFiles, AllocError> {
    let mut files = MemoryFiles::new(alloc, failing, room);
    add(alloc, &mut files, b"in", b"text")?;
    add(alloc, &mut files, b"out", b"old")?;
    add(alloc, &mut files, b"no", b"no")?;
    add(alloc, &mut files, b"bit", b"bit")?;
    add(alloc, &mut files, b"empty", b"")?;
    add(alloc, &mut files, b"-o", b"dash")?;
    add(alloc, &mut files, b"at", b"at 1\n-1\n")?;
    Ok(files)
}

/// Whether a run is as its row says, if memory doesn't run out.
fn is_seen(alloc: Global, row: &Row) -> Result<bool, AllocError> {
    let words = words_of(alloc, row.0)?;
    let mut files = files_of(alloc, row.1, row.2)?;
    let mut source = MemorySource::new(Vec::from_slice(alloc, b"std")?, Vec::new(alloc));
    let mut out = MemorySink::new(alloc, Vec::new(alloc));
    let mut note = MemorySink::new(alloc, Vec::new(alloc));
    let status = serve::<Echo, MemoryFiles, MemorySource, MemorySink, MemorySink>(
        alloc,
        &Echo,
        &words,
        &mut files,
        &mut source,
        &mut out,
        &mut note,
    )
    .number();
    let held = files.held(b"out") == Some(row.6.as_bytes());
    let written = out.written() == row.4.as_bytes() && note.written() == row.5.as_bytes();
    Ok(status == row.3 && written && held)
}

/// Whether a run is as its row says.
fn is_row(alloc: Global, row: &Row) -> bool {
    match is_seen(alloc, row) {
        Ok(is) => is,
        Err(_) => false,
    }
}

/// Words, and what is seen of their runs.
const ROWS: &[Row] = &[
    ("recheck", None, 9, 0, "std", "", "old"),
    ("recheck -", None, 9, 0, "std", "", "old"),
    ("recheck in", None, 9, 0, "text", "", "old"),
    ("recheck in -o out", None, 9, 0, "", "", "text"),
    ("recheck -o out in", None, 9, 0, "", "", "text"),
    ("recheck -o out", None, 9, 0, "", "", "std"),
    ("recheck -o - in", None, 9, 0, "text", "", "old"),
    ("recheck out -o out", None, 9, 0, "", "", "old"),
    ("recheck -- -o", None, 9, 0, "dash", "", "old"),
    ("recheck -o out -- -o", None, 9, 0, "", "", "dash"),
    ("equiv in no", None, 9, 2, "text|", "", "old"),
    ("equiv in -", None, 9, 0, "text|std", "", "old"),
    ("equiv - in", None, 9, 0, "std|text", "", "old"),
    ("equiv in in -o out", None, 9, 0, "", "", "text|text"),
    ("equiv in out -o out", None, 9, 0, "", "", "text|old"),
    (
        "recheck none",
        None,
        9,
        5,
        "",
        "error: ReadFault none: refused\n",
        "old",
    ),
    (
        "recheck no\\ne\u{1}",
        None,
        9,
        5,
        "",
        "error: ReadFault no\\\\ne?: refused\n",
        "old",
    ),
    (
        "recheck a\nb",
        None,
        9,
        5,
        "",
        "error: ReadFault a\\nb: refused\n",
        "old",
    ),
    (
        "equiv in none -o out",
        None,
        9,
        5,
        "",
        "error: ReadFault none: refused\n",
        "old",
    ),
    (
        "recheck in -o out",
        Some(Call::Open),
        9,
        5,
        "",
        "error: ReadFault in: refused\n",
        "old",
    ),
    (
        "recheck none -o out",
        Some(Call::Create),
        9,
        6,
        "",
        "error: WriteFault out: refused\n",
        "old",
    ),
    (
        "equiv none none -o out",
        Some(Call::Create),
        9,
        6,
        "",
        "error: WriteFault out: refused\n",
        "old",
    ),
    (
        "recheck in -o out",
        Some(Call::Keep),
        9,
        6,
        "",
        "error: WriteFault out: refused\n",
        "old",
    ),
    ("recheck in -o out", None, 3, 6, "", "", "old"),
    ("equiv in in -o out", None, 5, 6, "", "", "old"),
    ("recheck no -o out", None, 9, 2, "", "", "old"),
    ("recheck bit -o out", None, 9, 7, "", "", "old"),
    ("recheck empty -o out", None, 9, 2, "", "", "old"),
    ("recheck in out", None, 9, 1, "", "error: Usage\n", "old"),
    (
        "recheck -o out -o out in",
        None,
        9,
        1,
        "",
        "error: Usage\n",
        "old",
    ),
    ("recheck -o", None, 9, 1, "", "error: Usage\n", "old"),
    (
        "recheck --cap 3 in",
        None,
        9,
        1,
        "",
        "error: Usage\n",
        "old",
    ),
    ("gen --blocks 1 in", None, 9, 1, "", "error: Usage\n", "old"),
    ("unknown in", None, 9, 1, "", "error: Usage\n", "old"),
    ("equiv in in in", None, 9, 1, "", "error: Usage\n", "old"),
    (
        "synth at --certificate out",
        None,
        9,
        0,
        "at 1\n",
        "",
        "at 1\n-1\n",
    ),
    ("synth --certificate out", None, 9, 0, "", "", "std"),
    (
        "synth at --certificate in -o out",
        None,
        9,
        0,
        "",
        "",
        "at 1\n",
    ),
    (
        "synth at --certificate out -o -",
        None,
        9,
        0,
        "at 1\n",
        "",
        "at 1\n-1\n",
    ),
    (
        "equiv at in --certificate out",
        None,
        20,
        0,
        "at 1\n",
        "",
        "at 1\n-1\n|text",
    ),
    ("synth no --certificate out", None, 9, 2, "", "", "old"),
    ("synth bit --certificate out", None, 9, 7, "", "", "old"),
    ("synth empty --certificate out", None, 9, 2, "", "", "old"),
    ("synth at --certificate out", None, 7, 6, "", "", "old"),
    (
        "synth none --certificate out",
        Some(Call::Create),
        9,
        6,
        "",
        "error: WriteFault out: refused\n",
        "old",
    ),
    (
        "synth --certificate out",
        Some(Call::Open),
        9,
        5,
        "",
        "error: ReadFault out: refused\n",
        "old",
    ),
    (
        "synth at --certificate out",
        Some(Call::Keep),
        9,
        6,
        "at 1\n",
        "error: WriteFault out: refused\n",
        "old",
    ),
    (
        "recheck in --certificate out",
        None,
        9,
        1,
        "",
        "error: Usage\n",
        "old",
    ),
    (
        "improve in --certificate out",
        None,
        9,
        1,
        "",
        "error: Usage\n",
        "old",
    ),
    (
        "synth at --certificate -",
        None,
        9,
        1,
        "",
        "error: Usage\n",
        "old",
    ),
    (
        "synth at --certificate out -o out",
        None,
        9,
        1,
        "",
        "error: Usage\n",
        "old",
    ),
    (
        "synth --certificate out --certificate in",
        None,
        9,
        1,
        "",
        "error: Usage\n",
        "old",
    ),
    (
        "synth at --certificate",
        None,
        9,
        1,
        "",
        "error: Usage\n",
        "old",
    ),
];

#[test]
fn words_name_files(rt: HostRuntime) {
    for row in ROWS {
        assert!(rt; is_row(rt.alloc(), row), "{}", row.0);
    }
}
