//! Places for the standard streams that a run was started without.
//!
//! The system gives a file that is opened the lowest free number. Where a stream is closed, its number is free, and the
//! first file would get it: what goes to the stream would then go to that file. Three files that are opened before all
//! others, and are open to the end, take these numbers.

use std::fs::File;

/// What takes the numbers: a folder, of which nothing can be read, and to which nothing can be written.
const PLACE: &str = "/";

/// Open files, whose numbers no other file gets.
#[derive(Drop)]
pub(crate) struct Standing {
    files: [Option<File>; 3],
}

/// Opens the folder, if the system lets it.
fn opened(rt: &HostRuntime) -> Option<File> {
    match File::open(rt, PLACE) {
        Ok(file) => Some(file),
        Err(_) => None,
    }
}

impl Standing {
    /// Opens three files.
    pub(crate) fn new(rt: &HostRuntime) -> Self {
        Standing {
            files: [opened(rt), opened(rt), opened(rt)],
        }
    }
}
