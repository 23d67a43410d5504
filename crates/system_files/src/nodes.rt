//! Files by what they are, whatever names they have.

use crate::names::Stream;
use std::fs;
use std::fs::Metadata;
use std::os::unix::fs::{FileTypeExt, MetadataExt};

/// A file by its device, and its number there.
#[derive(Clone, Copy)]
pub(crate) struct Node {
    device: u64,
    number: u64,
}

impl Node {
    /// The file that was found.
    pub(crate) fn of(found: &Metadata) -> Self {
        Node {
            device: found.dev(),
            number: found.ino(),
        }
    }

    /// Whether two files are one.
    fn is_same(self, other: Self) -> bool {
        self.device == other.device && self.number == other.number
    }

    /// Whether a file is one of some files.
    fn is_among(self, others: &[Node]) -> bool {
        for other in others {
            if self.is_same(*other) {
                return true;
            }
        }
        false
    }
}

/// Whether a name leads to a pipe that is one of some files.
pub(crate) fn is_pipe_among(rt: &HostRuntime, name: &str, pipes: &[Node]) -> bool {
    match fs::metadata(rt, name) {
        Ok(found) => found.file_type().is_fifo() && Node::of(&found).is_among(pipes),
        Err(_) => false,
    }
}

/// Whether what was found is the open file of a name.
fn is_open_as(rt: &HostRuntime, found: &Metadata, name: &str) -> bool {
    match fs::metadata(rt, name) {
        Ok(open) => Node::of(found).is_same(Node::of(&open)),
        Err(_) => false,
    }
}

/// The standard stream that goes to what was found, whatever its name; no folder is one.
pub(crate) fn stream_to(rt: &HostRuntime, found: &Metadata) -> Option<Stream> {
    if found.is_dir() {
        return None;
    }
    if is_open_as(rt, found, "/proc/self/fd/1") {
        return Some(Stream::Output);
    }
    if is_open_as(rt, found, "/proc/self/fd/2") {
        return Some(Stream::Errors);
    }
    None
}
