//! Commands, and the function that runs one.
ghost use Rattle.std.specs.Prelude.{◌≡◌};
ghost use Rattle.frame_core.specs.Task.{Task, IsWithin};
ghost use Rattle.frame_core.specs.Run.{before_after};
ghost use Rattle.frame_core.specs.Performing.{Answers, Performs};
ghost use Rattle.frame_core.specs.Performed.{IsPerformed};

use crate::replies::RunEnd;
use crate::reporting::report_end;
use crate::status::Status;
use crate::streaming::{Collecting, StreamJob, read_pieces};
use port_io::{ReadError, Sink, Source};
use std::alloc::Global;

/// A command.
pub trait Job {
    /// Its specification: the task.
    ghost task: { Self → Task };

    /// The precondition on its arguments.
    ghost ready: { Self → Type 0 };

    /// The most bytes that it reads; None if it never calls its source.
    fn reads(&self) -> Option<usize>
        ensures { result ≡ (task self.now).reads };

    /// Answers an input of at most `reads` bytes: writes the answer's text to `out`, at once or in pieces, and
    /// its report to `note`; or has no answer, and then writes nothing.
    fn answer<O: Sink, N: Sink>(
        &self,
        alloc: Global,
        bytes: &[u8],
        out: &mut O,
        note: &mut N,
    ) -> RunEnd
        requires within { IsWithin (task self.now).reads bytes.now }
        requires ready { ready self.now }
        ensures { Answers (task self.now) bytes.now result
            (before_after O.written O.faults out.old out.new)
            (before_after N.written N.faults note.old note.new) };
}

/// Runs a command up to the error line: reads `source` if the command reads, and answers the input.
fn attempt<J: StreamJob, S: Source, O: Sink, N: Sink>(
    alloc: Global,
    job: &J,
    source: &mut S,
    out: &mut O,
    note: &mut N,
) -> RunEnd
    requires { J.ready job.now }
    ensures { Performs (J.task job.now) result
        (before_after S.left S.faults source.old source.new)
        (before_after O.written O.faults out.old out.new)
        (before_after N.written N.faults note.old note.new) }
{
    let Some(most) = job.reads() else {
        let kept = job.begin(alloc);
        return job.answer(alloc, kept, out, note);
    };
    let kept = match read_pieces(alloc, job, source, most) {
        Ok(kept) => kept,
        Err(ReadError::ReadFault) => return RunEnd::ReadFault,
        Err(ReadError::TooLong) => return RunEnd::TooLong,
        Err(ReadError::Memory) => return RunEnd::Memory,
    };
    job.answer(alloc, kept, out, note)
}

/// Runs a command that takes its input in pieces, and writes the error line if it has no answer. The run has an
/// outcome, whatever the arguments were, and keeps what every command promises.
pub fn perform_stream<J: StreamJob, S: Source, O: Sink, N: Sink>(
    alloc: Global,
    job: &J,
    source: &mut S,
    out: &mut O,
    note: &mut N,
) -> Status
    requires { J.ready job.now }
    ensures { IsPerformed (J.task job.now)
        (before_after S.left S.faults source.old source.new)
        (before_after O.written O.faults out.old out.new)
        (before_after N.written N.faults note.old note.new)
        result }
{
    let ended = attempt(alloc, job, source, out, note);
    report_end(note, &ended);
    ended.status()
}

/// Runs a command: reads `source` if the command reads, writes its answer to `out` and its report to `note`, and
/// one error line to `note` if there is no answer. The run has an outcome, whatever the arguments were, and
/// keeps what every command promises.
pub fn perform<J: Job, S: Source, O: Sink, N: Sink>(
    alloc: Global,
    job: &J,
    source: &mut S,
    out: &mut O,
    note: &mut N,
) -> Status
    requires { J.ready job.now }
    ensures { IsPerformed (J.task job.now)
        (before_after S.left S.faults source.old source.new)
        (before_after O.written O.faults out.old out.new)
        (before_after N.written N.faults note.old note.new)
        result }
{
    perform_stream(alloc, &Collecting(job), source, out, note)
}
