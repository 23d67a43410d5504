//! What a draft is written to.

use std::fs::File;
use std::io;
use std::io::{IsTerminal, Stderr, Stdout, Write};

/// A file that was opened or created, or a standard stream itself: that shares its place in a file with whoever
/// started the program, where a file that is opened by its name would be written from a place of its own.
#[derive(Drop)]
pub enum Target {
    /// A file.
    File(File),
    /// The standard output.
    Output(Stdout),
    /// The standard error.
    Errors(Stderr),
}

impl Target {
    /// Whether it is a terminal, on which people see the progress too.
    pub(crate) fn is_screen(&self) -> bool {
        match self {
            Target::File(file) => file.is_terminal(),
            Target::Output(stream) => stream.is_terminal(),
            Target::Errors(stream) => stream.is_terminal(),
        }
    }
}

impl Write for Target {
    fn write(&mut self, piece: &[u8]) -> io::Result<usize> {
        match self {
            Target::File(file) => file.write(piece),
            Target::Output(stream) => stream.write(piece),
            Target::Errors(stream) => stream.write(piece),
        }
    }

    fn flush(&mut self) -> io::Result<()> {
        match self {
            Target::File(file) => file.flush(),
            Target::Output(stream) => stream.flush(),
            Target::Errors(stream) => stream.flush(),
        }
    }
}
