//! Writing the reply of a command.
ghost use Rattle.frame_core.specs.Run.{before_after};
ghost use Rattle.frame_core.specs.Performing.{Sent, Finishes};
ghost use Rattle.frame_core.specs.Views.{reply_value};

use crate::replies::{RunEnd, Reply, Stop};
use crate::reporting::write_report;
use port_io::{Sink, WriteFault, write_all};

/// Writes a reply: its text, and then its report if it has one.
fn send<O: Sink, N: Sink>(out: &mut O, note: &mut N, reply: &Reply) -> RunEnd
    ensures { Sent (reply_value reply.now) result
        (before_after O.written O.faults out.old out.new)
        (before_after N.written N.faults note.old note.new) }
{
    if let Err(WriteFault::WriteFault) = write_all(out, &reply.text) {
        return RunEnd::Truncated;
    }
    let Some(report) = &reply.report else {
        return RunEnd::Answered(reply.status);
    };
    match write_report(note, report) {
        Ok(()) => RunEnd::Answered(reply.status),
        Err(WriteFault::WriteFault) => RunEnd::ReportTruncated,
    }
}

/// Ends a command with its reply: writes it, or writes nothing if there is none.
pub fn finish<O: Sink, N: Sink>(reported: Result<Reply, Stop>, out: &mut O, note: &mut N) -> RunEnd
    ensures { Finishes reported result
        (before_after O.written O.faults out.old out.new)
        (before_after N.written N.faults note.old note.new) }
{
    match reported {
        Ok(reply) => send(out, note, &reply),
        Err(Stop::NoMemory) => RunEnd::Memory,
        Err(Stop::NoAnswer(refusal)) => RunEnd::NoAnswer(refusal),
    }
}
