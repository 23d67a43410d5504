//! What is told of the bytes that go through watched ports.

use port_io::{MemorySink, MemorySource, Sink, read_all, write_all};
use progress::{Progress, Tell, WatchedSink, WatchedSource};
use std::alloc::AllocError;
use std::cell::Cell;

/// Somebody who remembers what was told last.
#[derive(Drop)]
struct Heard {
    read: Cell<u64>,
    written: Cell<u64>,
    size: Cell<u32>,
    texts: Cell<u32>,
}

impl Tell for Heard {
    fn tell(&self, progress: Progress) {
        match progress {
            Progress::Read(bytes) => self.read.set(bytes),
            Progress::Written(written) => {
                self.written.set(written.bytes);
                self.size.set(written.size.unwrap_or(0));
            }
            Progress::Gates(_) => {}
            Progress::Subproblem { .. } | Progress::Logged(_) => {}
            Progress::Compared { .. } => {}
            Progress::Round | Progress::Root { .. } => {}
            Progress::Text => self.texts.set(self.texts.get().saturating_add(1)),
        }
    }
}

/// Somebody who has heard nothing.
fn nothing() -> Heard {
    Heard {
        read: Cell::new(0),
        written: Cell::new(0),
        size: Cell::new(0),
        texts: Cell::new(0),
    }
}

/// Writes two pieces, of which one begins a section.
fn write_section<S: Sink>(sink: &mut S) -> bool {
    write_all(sink, b"size 7\nrefuted\n").is_ok() && write_all(sink, b"done\n").is_ok()
}

#[test]
fn sources_tell_of_their_bytes(rt: HostRuntime) -> Result<(), AllocError> {
    let heard = nothing();
    let bytes = Vec::from_slice(rt.alloc(), b"a text")?;
    let mut source = WatchedSource::new(MemorySource::new(bytes, Vec::new(rt.alloc())), &heard);
    let is_read = read_all(rt.alloc(), &mut source, 9).is_ok();
    assert!(rt; is_read && heard.read.get() == 6);
    Ok(())
}

#[test]
fn sinks_tell_of_their_bytes_or_of_text(rt: HostRuntime) -> Result<(), AllocError> {
    let heard = nothing();
    let mut out = WatchedSink::new(
        MemorySink::new(rt.alloc(), Vec::new(rt.alloc())),
        &heard,
        false,
    );
    let is_written = write_section(&mut out);
    assert!(rt;
        is_written && heard.written.get() == 20 && heard.size.get() == 7 && heard.texts.get() == 0
    );
    let mut screen = WatchedSink::new(
        MemorySink::new(rt.alloc(), Vec::new(rt.alloc())),
        &heard,
        true,
    );
    let is_shown = write_section(&mut screen);
    assert!(rt; is_shown && heard.written.get() == 20 && heard.texts.get() == 2);
    Ok(())
}
