//! Answers with a log that goes to a file of its own.
ghost use Rattle.std.specs.Prelude.{◌≡◌, Some};
ghost use Rattle.frame_core.specs.Outside.{port_state, Writes};
ghost use Rattle.frame_core.specs.Run.{before_after};
ghost use Rattle.file_io.specs.Files.{files_before_after};
ghost use Rattle.front_formula.specs.LogEnds.{EndsLog, IsTold, is_done as is_done_of};
ghost use Rattle.front_formula.specs.Logged.{IsAfter, IsLogged};

use file_io::{Call, Outside, Work, report_fault};
use frame_core::Status;
use port_io::{Sink, Source, write_all};
use std::alloc::Global;

/// Does the second part of some work, if the first is done.
#[tactic(auto, using(crate::proofs::Drafts::after))]
pub(crate) fn log_after<L: Work, W: Outside, S: Source, O: Sink, N: Sink>(
    alloc: Global,
    logs: &L,
    ended: Status,
    outside: &mut W,
    source: &mut S,
    out: &mut O,
    note: &mut N,
) -> Status
    requires { L.ready logs.now }
    ensures { IsAfter ended (L.does logs.now)
        (files_before_after W.holds W.faults outside.old outside.new)
        (before_after S.left S.faults source.old source.new)
        (before_after O.written O.faults out.old out.new)
        (before_after N.written N.faults note.old note.new)
        result }
{
    match ended {
        Status::Done => logs.work(alloc, outside, source, out, note),
        other => other,
    }
}

/// Whether work was done.
fn is_done(status: Status) -> bool
    ensures { result ≡ is_done_of status }
{
    match status {
        Status::Done => true,
        Status::Undecided | Status::Refused => false,
        Status::Usage | Status::Malformed | Status::Limit => false,
        Status::ReadFault | Status::WriteFault | Status::Memory => false,
    }
}

/// Writes a note. If that fails, it is ignored: the status of the run is already decided.
fn write_note<N: Sink>(note: &mut N, text: &[u8])
    ensures { Writes (port_state N.written N.faults note.old) (port_state N.written N.faults note.new) text.now }
{
    let _ = write_all(note, text);
}

/// Writes a note if the log has no bytes.
#[tactic(auto, unfolding(crate::specs::LogEnds::no_log_line), using(crate::proofs::LogEnds::telling))]
fn tell_log<N: Sink>(note: &mut N, has_bytes: bool)
    ensures { IsTold has_bytes (before_after N.written N.faults note.old note.new) }
{
    if has_bytes {
        return;
    }
    write_note(note, b"note: this part has no log: its file is empty\n");
}

/// Ends the draft of a log, after the work that wrote it has ended with a status: a log, which may be empty, takes the
/// name's place, and where there is none the draft is discarded.
#[tactic(auto, using(crate::proofs::LogEnds::log_ends))]
fn settle_log<W: Outside, N: Sink>(
    alloc: Global,
    outside: &mut W,
    name: &str,
    draft: W::Draft,
    ended: Status,
    note: &mut N,
) -> Status
    ensures { EndsLog name.now ended (port_state W.Draft.written W.Draft.faults draft).bytes
        (files_before_after W.holds W.faults outside.old outside.new)
        (before_after N.written N.faults note.old note.new)
        result }
{
    if !is_done(ended) {
        outside.discard(draft);
        return ended;
    }
    let has_bytes = W::is_begun(&draft);
    match outside.keep(alloc, name, draft) {
        Ok(()) => {
            tell_log(note, has_bytes);
            ended
        }
        Err(reason) => report_fault(note, Call::Keep, name, &reason),
    }
}

/// Writes an answer, and then its log to a file, whose draft is created before.
#[tactic(auto, using(crate::proofs::Drafts::logging))]
fn log_to<A: Work, L: Work, W: Outside, S: Source, O: Sink, N: Sink>(
    alloc: Global,
    answers: &A,
    logs: &L,
    name: &str,
    outside: &mut W,
    source: &mut S,
    out: &mut O,
    note: &mut N,
) -> Status
    requires answers { A.ready answers.now }
    requires logs { L.ready logs.now }
    ensures { IsLogged (Some name.now) (A.does answers.now) (L.does logs.now)
        (files_before_after W.holds W.faults outside.old outside.new)
        (before_after S.left S.faults source.old source.new)
        (before_after O.written O.faults out.old out.new)
        (before_after N.written N.faults note.old note.new)
        result }
{
    let mut draft = match outside.create(alloc, name) {
        Ok(draft) => draft,
        Err(reason) => return report_fault(note, Call::Create, name, &reason),
    };
    let first = answers.work(alloc, outside, source, out, note);
    let ended = log_after(alloc, logs, first, outside, source, &mut draft, note);
    settle_log(alloc, outside, name, draft, ended, note)
}

/// An answer whose log may go to a file, as work.
#[derive(Drop)]
pub(crate) struct Logging<'a, A, L> {
    pub(crate) log: Option<&'a str>,
    pub(crate) answers: &'a A,
    pub(crate) logs: &'a L,
}

impl<'a, A: Work, L: Work> Work for Logging<'a, A, L> {
    ghost use Rattle.file_io.specs.Texts.{text_in};
    ghost use Rattle.front_formula.specs.Logged.{IsLogged};

    ghost does = { λ w. IsLogged (text_in w.log) (A.does w.answers.now) (L.does w.logs.now) };

    ghost ready = { λ w. A.ready w.answers.now × L.ready w.logs.now };

    fn work<W: Outside, S: Source, O: Sink, N: Sink>(
        &self,
        alloc: Global,
        outside: &mut W,
        source: &mut S,
        out: &mut O,
        note: &mut N,
    ) -> Status {
        match self.log {
            None => self.answers.work(alloc, outside, source, out, note),
            Some(name) => log_to(
                alloc,
                self.answers,
                self.logs,
                name,
                outside,
                source,
                out,
                note,
            ),
        }
    }
}
