//! Plain files that are read again, for the line after an error line.

use front_app::Rereads;
use port_io::{InputPort, read_all};
use std::alloc::Global;
use std::fs::File;
use std::{fs, io};

/// The most bytes that are read again.
const MOST_REREAD: usize = 33_554_432;

/// The plain files of the system. What isn't a plain file, as a pipe, may be read but once.
#[derive(Drop)]
pub(crate) struct Rereading<'a> {
    rt: &'a HostRuntime,
}

impl<'a> Rereading<'a> {
    /// The files that the system of a run has.
    pub(crate) fn new(rt: &'a HostRuntime) -> Self {
        Rereading { rt }
    }

    /// Opens a plain file; None if it is something else.
    fn open_plain(&self, name: &str) -> io::Result<Option<File>> {
        if !fs::metadata(self.rt, name)?.is_file() {
            return Ok(None);
        }
        Ok(Some(File::open(self.rt, name)?))
    }
}

impl<'a> Rereads for Rereading<'a> {
    fn reread(&self, alloc: Global, name: &str) -> Option<Vec<u8>> {
        let Ok(Some(file)) = self.open_plain(name) else {
            return None;
        };
        match read_all(alloc, &mut InputPort::new(file), MOST_REREAD) {
            Ok(bytes) => Some(bytes),
            Err(_) => None,
        }
    }
}
