//! Errors in mid-stream and limits, for each kind of source and sink of bytes.
use port_io::{
    InputPort, MemorySink, MemorySource, OutputPort, ReadError, SteadySource, read_all, write_all,
};
use std::alloc::{AllocError, Global};
use std::io;
use std::io::{ErrorKind, Read, Write};

/// The byte of a source at the index `place`.
fn byte_at(place: usize) -> u8 {
    (place % 251) as u8
}

fn bytes_of(alloc: Global, length: usize) -> Result<Vec<u8>, AllocError> {
    let mut bytes = Vec::new(alloc);
    for place in 0..length {
        bytes.push(byte_at(place))?;
    }
    Ok(bytes)
}

/// Whether `bytes` are exactly the bytes of a source of `length` bytes.
fn are_all(bytes: &[u8], length: usize) -> bool {
    for (place, byte) in bytes.iter().enumerate() {
        if *byte != byte_at(place) {
            return false;
        }
    }
    bytes.len() == length
}

/// Whether the result `read` is `error`, or, if that is None, the bytes of a source of `length` bytes.
fn came_to(read: &Result<Vec<u8>, ReadError>, length: usize, error: Option<ReadError>) -> bool {
    match read {
        Ok(bytes) => error.is_none() && are_all(bytes, length),
        Err(reported) => error == Some(*reported),
    }
}

/// A source of `length` bytes that fails at the call `failing`.
fn source(alloc: Global, length: usize, failing: u64) -> Result<MemorySource, AllocError> {
    let bytes = bytes_of(alloc, length)?;
    Ok(MemorySource::new(bytes, vec![in alloc; failing]?))
}

/// Whether reading a source of `length` bytes that fails at the call `failing` gives `error` or all
/// bytes, and counts `faults` failed calls.
fn is_read(
    alloc: Global,
    length: usize,
    failing: u64,
    limit: usize,
    error: Option<ReadError>,
    faults: u64,
) -> bool {
    let Ok(mut source) = source(alloc, length, failing) else {
        return false;
    };
    came_to(&read_all(alloc, &mut source, limit), length, error) && source.faults() == faults
}

/// Whether a source that never fails is read to its end, if the limit allows it, without a failed
/// call.
fn is_read_steadily(alloc: Global, length: usize, limit: usize) -> bool {
    let Ok(bytes) = bytes_of(alloc, length) else {
        return false;
    };
    let mut steady = SteadySource::new(bytes);
    read_all(alloc, &mut steady, limit).is_ok() == (length <= limit) && steady.faults() == 0
}

/// The length of a source, the number of the call that fails, the limit, the error, and the number
/// of failed calls.
const READ: &[(usize, u64, usize, Option<ReadError>, u64)] = &[
    (0, 0, 0, None, 0),
    (3, 0, 3, None, 0),
    (3, 0, 2, Some(ReadError::TooLong), 0),
    (3, 0, usize::MAX, None, 0),
    (3, 1, 3, Some(ReadError::ReadFault), 1),
    (3, 2, 3, Some(ReadError::ReadFault), 1),
    (3, 3, 3, None, 0),
    (5000, 0, 5000, None, 0),
    (5000, 0, 4999, Some(ReadError::TooLong), 0),
    (5000, 2, 5000, Some(ReadError::ReadFault), 1),
];

#[test]
fn memory_is_read_up_to_a_limit_or_a_fault(rt: HostRuntime) {
    for &(length, failing, limit, error, faults) in READ {
        let reported = is_read(rt.alloc(), length, failing, limit, error, faults);
        let steady = is_read_steadily(rt.alloc(), length, limit);
        assert!(rt; reported && steady, "{length} {failing} {limit}");
    }
}

/// Whether the first or the second write fails, exactly as `failing` says.
fn is_reported(sink: &mut MemorySink, failing: u64) -> bool {
    let first = write_all(sink, b"abc").is_err();
    let second = write_all(sink, b"def").is_err();
    first == (failing == 1) && second == (failing == 2)
}

/// Whether a sink that fails at the call `failing` has `text` and `faults` failed calls after two
/// calls.
fn is_written(alloc: Global, failing: u64, text: &[u8], faults: u64) -> bool {
    let Ok(calls) = Vec::from_slice(alloc, &[failing]) else {
        return false;
    };
    let mut sink = MemorySink::new(alloc, calls);
    let reported = is_reported(&mut sink, failing);
    reported && sink.written() == text && sink.faults() == faults
}

/// The number of the call that fails, the text after two calls, and the number of failed calls.
const WRITTEN: &[(u64, &[u8], u64)] = &[
    (0, b"abcdef", 0),
    (1, b"def", 1),
    (2, b"abc", 1),
    (3, b"abcdef", 0),
];

#[test]
fn memory_has_what_was_written_before_a_fault(rt: HostRuntime) {
    for &(failing, text, faults) in WRITTEN {
        assert!(rt;
            is_written(rt.alloc(), failing, text, faults),
            "call {failing} fails"
        );
    }
}

/// A source that gives two bytes a call, and fails at one call.
#[derive(Drop)]
struct Dripping<'a> {
    rest: &'a [u8],
    calls: u8,
    failing: u8,
}

impl<'a> Read for Dripping<'a> {
    fn read(&mut self, buf: &mut [u8]) -> io::Result<usize> {
        self.calls = self.calls.saturating_add(1);
        if self.calls == self.failing {
            return Err(io::Error::from(ErrorKind::Other));
        }
        let count = buf.len().min(self.rest.len()).min(2);
        let (piece, rest) = self.rest.split_at(count);
        let (prefix, _) = buf.split_at_mut(count);
        prefix.copy_from_slice(piece);
        self.rest = rest;
        Ok(count)
    }
}

/// Whether what was read is `text`.
fn is_text(read: Result<Vec<u8>, ReadError>, text: &[u8]) -> bool {
    match read {
        Ok(bytes) => bytes.as_slice() == text,
        Err(_) => false,
    }
}

/// Whether reading a port fails once, and the next call reads it to its end.
fn is_read_after_a_fault(alloc: Global) -> bool {
    let mut port = InputPort::new(Dripping {
        rest: b"abcde",
        calls: 0,
        failing: 3,
    });
    let failed = read_all(alloc, &mut port, 5).err() == Some(ReadError::ReadFault);
    let once = port.faults() == 1;
    let read = is_text(read_all(alloc, &mut port, 5), b"e");
    failed && once && read && port.faults() == 1
}

#[test]
fn a_port_is_read_on_after_a_fault(rt: HostRuntime) {
    assert!(rt; is_read_after_a_fault(rt.alloc()));
}

/// A sink that takes some bytes a call, and fails at one call.
#[derive(Drop)]
struct Taking {
    bytes: Vec<u8>,
    most: usize,
    calls: u8,
    failing: u8,
}

impl Write for Taking {
    fn write(&mut self, buf: &[u8]) -> io::Result<usize> {
        self.calls = self.calls.saturating_add(1);
        if self.calls == self.failing {
            return Err(io::Error::from(ErrorKind::Other));
        }
        let count = buf.len().min(self.most);
        let (piece, _) = buf.split_at(count);
        self.bytes.extend_from_slice(piece)?;
        Ok(count)
    }

    fn flush(&mut self) -> io::Result<()> {
        Ok(())
    }
}

/// Whether a port that takes `most` bytes a call and fails at the call `failing` has `text` and
/// `faults` failed calls in the end.
fn is_taken(alloc: Global, most: usize, failing: u8, text: &[u8], faults: u64) -> bool {
    let mut writer = Taking {
        bytes: Vec::new(alloc),
        most,
        calls: 0,
        failing,
    };
    let mut port = OutputPort::new(&mut writer);
    let failed = write_all(&mut port, b"abcde").is_err() == (faults > 0);
    let reported = port.faults() == faults;
    failed && reported && writer.bytes.as_slice() == text
}

/// How many bytes a port takes a call, the number of the call that fails, the text in the end, and
/// the number of failed calls.
const TAKEN: &[(&str, usize, u8, &[u8], u64)] = &[
    ("two bytes a call", 2, 0, b"abcde", 0),
    ("the third call fails", 2, 3, b"abcd", 1),
    ("no byte a call", 0, 0, b"", 1),
];

#[test]
fn a_port_is_written_in_pieces_up_to_a_fault(rt: HostRuntime) {
    for &(name, most, failing, text, faults) in TAKEN {
        assert!(rt; is_taken(rt.alloc(), most, failing, text, faults), "{name}");
    }
}
