//! The standard library's readers and writers as sources and sinks. Contracts don't know their bytes.
ghost use Rattle.std.specs.Io.KnownBytes.{ReadConsumes, WriteAppends};
ghost use Rattle.std.specs.Prelude.{◌≡◌, ◌<◌, ◌≤◌, None, IfOk, OnErr, is_ok, if◌then◌else◌, length, take};
ghost use Rattle.port_io.specs.Bytes.{Appends, Consumes};
ghost use Rattle.port_io.specs.Faults.{Rose, next_count};
ghost use Rattle.port_io.specs.Ports.{reader_of, input_faults, writer_of, output_faults};

use crate::outside::{Failed, Sink, Source};
use std::io::{Read, Write};

/// A reader as a source.
#[derive(Drop)]
pub struct InputPort<R> {
    reader: R,
    faults: u64,
}

impl<R: Read> InputPort<R> {
    /// The reader, with no fault yet.
    pub fn new(reader: R) -> Self
        ensures reader { reader_of result ≡ reader }
        ensures faults { input_faults result ≡ 0 }
    {
        InputPort { reader, faults: 0 }
    }

    /// How many reads have failed. The count saturates at 2^64 - 1.
    pub fn faults(&self) -> u64
        ensures { result ≡ input_faults self.now }
    {
        self.faults
    }
}

impl<R: Read> Source for InputPort<R> {
    ghost left = { λ _. None };

    ghost faults = { input_faults };

    #[tactic(auto, unfolding(crate::specs::Bytes::prepended))]
    fn read(&mut self, buf: &mut [u8]) -> Result<usize, Failed>
        // The result is the reader's. The count rises if and only if the reader fails.
        ensures answer { ReadConsumes (R.remaining (reader_of self.old)) (R.remaining (reader_of self.new))
            result buf.new }
        ensures counted { input_faults self.new ≡
            (if is_ok result then input_faults self.old else next_count (input_faults self.old)) }

        ensures within { IfOk result (λ count. count ≤ length buf.new) }
        ensures taken { IfOk result (λ count. Consumes None None (take count buf.new)) }
        ensures only_if_rose { OnErr result (Rose (input_faults self.old) (input_faults self.new)) }
        ensures never_falls { input_faults self.old ≤ input_faults self.new }
    {
        match self.reader.read(buf) {
            Ok(count) => Ok(count),
            Err(_) => {
                self.faults = self.faults.saturating_add(1);
                Err(Failed)
            }
        }
    }
}

/// A writer as a sink.
#[derive(Drop)]
pub struct OutputPort<W> {
    writer: W,
    faults: u64,
}

impl<W: Write> OutputPort<W> {
    /// The writer, with no fault yet.
    pub fn new(writer: W) -> Self
        ensures writer { writer_of result ≡ writer }
        ensures faults { output_faults result ≡ 0 }
    {
        OutputPort { writer, faults: 0 }
    }

    /// How many writes have failed, or have written nothing of a piece that isn't empty. The count saturates
    /// at 2^64 - 1.
    pub fn faults(&self) -> u64
        ensures { result ≡ output_faults self.now }
    {
        self.faults
    }
}

impl<W: Write> Sink for OutputPort<W> {
    ghost written = { λ _. None };

    ghost faults = { output_faults };

    #[tactic(auto, unfolding(crate::specs::Bytes::appended))]
    fn write(&mut self, piece: &[u8]) -> Result<usize, Failed>
        // The result is the writer's, except that writing nothing of a piece that isn't empty is a fault.
        ensures answer { WriteAppends (W.contents (writer_of self.old)) (W.contents (writer_of self.new))
            result piece.now }
        ensures counted { output_faults self.new ≡
            (if is_ok result then output_faults self.old else next_count (output_faults self.old)) }

        ensures within { IfOk result (λ count. count ≤ length piece.now) }
        ensures some { IfOk result (λ count. 0 < length piece.now → 0 < count) }
        ensures gone { IfOk result (λ count. Appends None None (take count piece.now)) }
        ensures only_if_rose { OnErr result (Rose (output_faults self.old) (output_faults self.new)) }
        ensures never_falls { output_faults self.old ≤ output_faults self.new }
    {
        match self.writer.write(piece) {
            Ok(count) if count > 0 || piece.is_empty() => Ok(count),
            _ => {
                self.faults = self.faults.saturating_add(1);
                Err(Failed)
            }
        }
    }
}
