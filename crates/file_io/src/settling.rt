//! The end of a named output.
ghost use Rattle.std.specs.Prelude.{◌≡◌};
ghost use Rattle.frame_core.specs.Outside.{port_state};
ghost use Rattle.frame_core.specs.Run.{before_after};
ghost use Rattle.file_io.specs.Files.{files_before_after};
ghost use Rattle.file_io.specs.Settling.{Settles, is_answer_status};

use crate::calls::Call;
use crate::outside::Outside;
use crate::reporting::report_fault;
use frame_core::Status;
use port_io::Sink;
use std::alloc::Global;

/// Whether answers have this status.
pub fn is_answer(status: Status) -> bool
    ensures { result ≡ is_answer_status status }
{
    match status {
        Status::Done | Status::Undecided | Status::Refused => true,
        Status::Usage | Status::Malformed | Status::Limit => false,
        Status::ReadFault | Status::WriteFault | Status::Memory => false,
    }
}

/// Ends the draft of a named output, after the work that wrote it has ended with a status: an answer takes the
/// name's place, and what is none is discarded. Returns the status of the run, which is `WriteFault` if the draft
/// of an answer can't be kept.
#[tactic(auto, using(crate::proofs::Ends::ends))]
pub fn settle<W: Outside, N: Sink>(
    alloc: Global,
    outside: &mut W,
    name: &str,
    draft: W::Draft,
    status: Status,
    note: &mut N,
) -> Status
    ensures { Settles name.now status (port_state W.Draft.written W.Draft.faults draft).bytes
        (files_before_after W.holds W.faults outside.old outside.new)
        (before_after N.written N.faults note.old note.new) result }
{
    if !is_answer(status) {
        outside.discard(draft);
        return status;
    }
    let is_begun = W::is_begun(&draft);
    if !is_begun {
        outside.discard(draft);
        return status;
    }
    match outside.keep(alloc, name, draft) {
        Ok(()) => status,
        Err(reason) => report_fault(note, Call::Keep, name, &reason),
    }
}
