//! A command whose text is written in pieces.
ghost use Rattle.std.specs.Prelude.{◌≡◌, IfOk};
ghost use Rattle.frame_core.specs.Outside.{port_state};
ghost use Rattle.frame_tests.specs.Small.{line_of as line_text, lines_task, WritesLines};

use frame_core::{RunEnd, Job, Status};
use port_io::{Sink, WriteFault, write_all};
use std::alloc::{AllocError, Global};

/// A command that writes each byte of its input, at most three, on a line of its own. At a `!` it pretends that
/// memory ran out.
pub struct Lines;

/// The line of a byte; out of memory for `!`.
fn line_of(alloc: Global, byte: u8) -> Result<Vec<u8>, AllocError>
    ensures { IfOk result (λ line. line.items ≡ line_text byte) }
{
    if byte == b'!' {
        return Err(AllocError);
    }
    Vec::from_slice(alloc, &[byte, b'\n'])
}

/// Writes each byte on a line.
#[tactic(auto, using(frame_core::specs::PiecesLaws::texts_left))]
fn write_lines<O: Sink>(alloc: Global, bytes: &[u8], out: &mut O) -> RunEnd
    ensures { WritesLines bytes.now result (port_state O.written O.faults out.old)
        (port_state O.written O.faults out.new) }
{
    let mut left = bytes;
    while let Some((byte, rest)) = left.split_first() {
        let Ok(line) = line_of(alloc, *byte) else {
            return RunEnd::OutOfMemoryMidway;
        };
        if let Err(WriteFault::WriteFault) = write_all(out, &line) {
            return RunEnd::Truncated;
        }
        left = rest;
    }
    RunEnd::Answered(Status::Done)
}

impl Job for Lines {
    ghost task = { λ _. lines_task };

    ghost ready = { λ _. Unit {0} };

    fn reads(&self) -> Option<usize> {
        Some(3)
    }

    #[tactic(auto, using(crate::proofs::Smalls::lines_answered))]
    fn answer<O: Sink, N: Sink>(
        &self,
        alloc: Global,
        bytes: &[u8],
        out: &mut O,
        note: &mut N,
    ) -> RunEnd {
        let _untouched = note;
        write_lines(alloc, bytes, out)
    }
}
