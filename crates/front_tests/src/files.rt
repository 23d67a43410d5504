//! The files of the tests, and what is read again of them.

use file_io::Call;
use frame_tests::{MemoryFile, MemoryFiles};
use front_app::Rereads;
use std::alloc::{AllocError, Global};

/// A certificate of conjunction.
const CERTIFICATE: &str =
    "chains 1\ninputs 2\n0001\nbasis all\nmethod ssv\nconflicts 100000\nmax 16\nsize 0\n\
    refuted\ndone\nchain 1\nx3 x1 x2 0001\nout x3\nminimum 1\nend\n";

/// The conjunction of two inputs, and the constant 0 of them.
const CONJUNCTION: &str = ".inputs a b\n.outputs y\n.names a b y\n11 1\n.end\n";

const ZERO: &str = ".inputs a b\n.outputs y\n.names y\n.end\n";

/// The conjunction with its inputs in the other order.
const TURNED: &str = ".inputs b a\n.outputs y\n.names b a y\n11 1\n.end\n";

/// The same conjunction in AIGER.
const AIGER: &str = "aag 3 2 0 1 1\n2\n4\n6\n6 4 2\n";

/// A table with a fault.
const BAD: &str = "inputs 2\n01x1\n";

/// The files before a run.
const FILES: &[(&str, &str)] = &[
    ("in", "text"),
    ("out", "old"),
    ("tables", "inputs 2\n0001\n"),
    ("bad", BAD),
    ("minimum", CERTIFICATE),
    ("a.blif", CONJUNCTION),
    ("b.blif", ZERO),
    ("c.blif", TURNED),
    ("a.aag", AIGER),
    ("x.bench", AIGER),
];

/// The same in memory.
pub fn files_of(
    alloc: Global,
    failing: Option<Call>,
    room: usize,
) -> Result<MemoryFiles, AllocError> {
    let mut files = MemoryFiles::new(alloc, failing, room);
    for &(name, text) in FILES {
        let name = Vec::from_slice(alloc, name.as_bytes())?;
        let bytes = Vec::from_slice(alloc, text.as_bytes())?;
        files.files.push(MemoryFile { name, bytes })?;
    }
    Ok(files)
}

/// The words of a line, separated by blanks.
pub fn words_of(alloc: Global, line: &str) -> Result<Vec<String>, AllocError> {
    let mut words = Vec::new(alloc);
    for word in line.split(' ') {
        words.push(String::from_str(alloc, word)?)?;
    }
    Ok(words)
}

/// The text of a file.
fn text_of(name: &str) -> Option<&'static str> {
    for &(other, text) in FILES {
        if other == name {
            return Some(text);
        }
    }
    None
}

/// Reads files again, as they were before a run.
#[derive(Drop)]
pub struct Known;

impl Rereads for Known {
    fn reread(&self, alloc: Global, name: &str) -> Option<Vec<u8>> {
        match Vec::from_slice(alloc, text_of(name)?.as_bytes()) {
            Ok(bytes) => Some(bytes),
            Err(_) => None,
        }
    }
}
