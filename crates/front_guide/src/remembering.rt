//! A source and a sink that remember what went through them. Contracts see them as those that they wrap.

use port_io::{Failed, Sink, Source};
use std::alloc::{AllocError, Global};

/// The most bytes of a source that are remembered.
const MOST_REMEMBERED: usize = 33_554_432;

/// A source that remembers what was read.
pub trait Recalls: Source {
    /// What was read, from the start, as far as it is remembered.
    fn seen(&self) -> &[u8];

    /// Whether all that was read is remembered.
    fn is_whole(&self) -> bool;
}

/// A sink that remembers the last line that was written.
pub trait Retells: Sink {
    /// The last line, without its LF.
    fn last_line(&self) -> &[u8];
}

/// A source, with what was read of it.
#[derive(Drop)]
pub struct Remembering<S> {
    source: S,
    seen: Vec<u8>,
    is_whole: bool,
}

impl<S: Source> Remembering<S> {
    /// The source, of which nothing was read.
    pub fn new(alloc: Global, source: S) -> Self {
        Remembering {
            source,
            seen: Vec::new(alloc),
            is_whole: true,
        }
    }
}

/// Appends a piece, if that isn't too much, and returns whether it was appended.
fn remember(seen: &mut Vec<u8>, piece: &[u8]) -> bool {
    seen.len().saturating_add(piece.len()) <= MOST_REMEMBERED
        && seen.extend_from_slice(piece).is_ok()
}

impl<S: Source> Source for Remembering<S> {
    ghost left = { λ r. S.left r.source };

    ghost faults = { λ r. S.faults r.source };

    fn read(&mut self, buf: &mut [u8]) -> Result<usize, Failed> {
        match self.source.read(buf) {
            Ok(count) => {
                let is_kept = remember(&mut self.seen, &buf[..count]);
                self.is_whole = self.is_whole && is_kept;
                Ok(count)
            }
            Err(Failed) => Err(Failed),
        }
    }
}

impl<S: Source> Recalls for Remembering<S> {
    fn seen(&self) -> &[u8] {
        &self.seen
    }

    fn is_whole(&self) -> bool {
        self.is_whole
    }
}

/// A sink, with the last line that was written to it.
#[derive(Drop)]
pub struct Retelling<N> {
    sink: N,
    line: Vec<u8>,
    is_ended: bool,
}

impl<N: Sink> Retelling<N> {
    /// The sink, to which nothing was written.
    pub fn new(alloc: Global, sink: N) -> Self {
        Retelling {
            sink,
            line: Vec::new(alloc),
            is_ended: false,
        }
    }
}

/// The bytes of a text after the last LF before its last byte, and whether there is such an LF.
fn last_part(text: &[u8]) -> (&[u8], bool) {
    let mut left = text;
    let mut is_cut = false;
    for _ in 0..text.len() {
        let Some((line, _, rest)) = text_core::next_line(left) else {
            break;
        };
        if rest.is_empty() {
            break;
        }
        let _ = line;
        left = rest;
        is_cut = true;
    }
    (left, is_cut)
}

/// Whether a text ends with LF.
fn is_ended(text: &[u8]) -> bool {
    match text.split_last() {
        Some((last, _)) => *last == b'\n',
        None => false,
    }
}

/// Appends what was written to the last line, or begins the next one.
fn note_line(line: &mut Vec<u8>, was_ended: bool, piece: &[u8]) -> Result<(), AllocError> {
    let (part, is_cut) = last_part(piece);
    if was_ended || is_cut {
        line.clear();
    }
    line.extend_from_slice(part)
}

impl<N: Sink> Sink for Retelling<N> {
    ghost written = { λ r. N.written r.sink };

    ghost faults = { λ r. N.faults r.sink };

    fn write(&mut self, piece: &[u8]) -> Result<usize, Failed> {
        match self.sink.write(piece) {
            Ok(count) => {
                let (part, _) = piece.split_at(count);
                if !part.is_empty() {
                    let _ = note_line(&mut self.line, self.is_ended, part);
                    self.is_ended = is_ended(part);
                }
                Ok(count)
            }
            Err(Failed) => Err(Failed),
        }
    }
}

/// A line without the LF at its end.
fn without_end(line: &[u8]) -> &[u8] {
    match line.split_last() {
        Some((last, rest)) => { if *last == b'\n' { rest } else { line } }
        None => line,
    }
}

impl<N: Sink> Retells for Retelling<N> {
    fn last_line(&self) -> &[u8] {
        without_end(&self.line)
    }
}
