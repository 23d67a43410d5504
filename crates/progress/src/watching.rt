//! A source and a sink that tell of the bytes that go through them.
ghost use Rattle.std.specs.Prelude.{◌≡◌};

use crate::telling::{Progress, Tell, Written};
use port_io::{Failed, Sink, Source};

/// A source that tells how much was read of it.
#[derive(Drop)]
pub struct WatchedSource<'a, S, T> {
    source: S,
    tell: &'a T,
    bytes: u64,
}

impl<'a, S: Source, T: Tell> WatchedSource<'a, S, T> {
    /// The source, of which nothing was read.
    pub fn new(source: S, tell: &'a T) -> Self
        ensures { result.source ≡ source }
    {
        WatchedSource {
            source,
            tell,
            bytes: 0,
        }
    }
}

impl<'a, S: Source, T: Tell> Source for WatchedSource<'a, S, T> {
    ghost left = { λ w. S.left w.source };

    ghost faults = { λ w. S.faults w.source };

    fn read(&mut self, buf: &mut [u8]) -> Result<usize, Failed> {
        match self.source.read(buf) {
            Ok(count) => {
                self.bytes = self.bytes.saturating_add(count as u64);
                self.tell.tell(Progress::Read(self.bytes));
                Ok(count)
            }
            Err(Failed) => Err(Failed),
        }
    }
}

/// Tells that text comes on the screen, if it does.
fn tell_before<T: Tell>(tell: &T, is_screen: bool) {
    if is_screen {
        tell.tell(Progress::Text);
    }
}

/// Tells what was written, if that isn't on the screen.
fn tell_after<T: Tell>(tell: &T, is_screen: bool, written: Written) {
    if !is_screen {
        tell.tell(Progress::Written(written));
    }
}

/// A sink that tells how much was written to it; or, if it is a screen on which people see the progress, that text
/// comes.
#[derive(Drop)]
pub struct WatchedSink<'a, S, T> {
    sink: S,
    tell: &'a T,
    written: Written,
    is_screen: bool,
}

impl<'a, S: Sink, T: Tell> WatchedSink<'a, S, T> {
    /// The sink, to which nothing was written, and whether it is a screen on which people see the progress.
    pub fn new(sink: S, tell: &'a T, is_screen: bool) -> Self
        ensures { result.sink ≡ sink }
    {
        WatchedSink {
            sink,
            tell,
            written: Written::nothing(),
            is_screen,
        }
    }
}

impl<'a, S: Sink, T: Tell> Sink for WatchedSink<'a, S, T> {
    ghost written = { λ w. S.written w.sink };

    ghost faults = { λ w. S.faults w.sink };

    fn write(&mut self, piece: &[u8]) -> Result<usize, Failed> {
        tell_before(self.tell, self.is_screen);
        match self.sink.write(piece) {
            Ok(count) => {
                let (part, _) = piece.split_at(count);
                self.written = self.written.and(part);
                tell_after(self.tell, self.is_screen, self.written);
                Ok(count)
            }
            Err(Failed) => Err(Failed),
        }
    }
}
