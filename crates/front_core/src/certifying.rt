//! Answers whose certificate goes to a file, while their own lines go to the output.
ghost use Rattle.std.specs.Prelude.{◌≡◌};
ghost use Rattle.frame_core.specs.Run.{before_after};
ghost use Rattle.file_io.specs.Files.{files_before_after};
ghost use Rattle.front_core.specs.Certified.{status_after as status_after_of, ShowsLines, IsShown, IsCertifiedBy};

use file_io::{Call, Outside, Work, is_answer, report_fault, settle};
use frame_core::{Status, perform_stream};
use port_io::{Sink, Source};
use shown_lines::ShowLines;
use std::alloc::Global;

/// The status after the lines of an answer were shown.
fn status_after(shown: Status, ended: Status) -> Status
    ensures { result ≡ status_after_of shown ended }
{
    match shown {
        Status::Done => ended,
        other => other,
    }
}

/// Shows the lines of an answer.
#[tactic(auto, using(crate::proofs::Certificates::showing))]
fn show_lines<I: Source, O: Sink, N: Sink>(
    alloc: Global,
    answer: &mut I,
    out: &mut O,
    note: &mut N,
) -> Status
    ensures { ShowsLines
        (before_after I.left I.faults answer.old answer.new)
        (before_after O.written O.faults out.old out.new)
        (before_after N.written N.faults note.old note.new)
        result }
{
    perform_stream(alloc, &ShowLines, answer, out, note)
}

/// Shows the lines of an answer that was written to a draft, if there is one. Returns the status for the draft: that
/// of the work, or that of a failure.
#[tactic(auto, using(crate::proofs::Certificates::showing))]
fn show<W: Outside, O: Sink, N: Sink>(
    alloc: Global,
    name: &str,
    draft: &W::Draft,
    ended: Status,
    outside: &mut W,
    out: &mut O,
    note: &mut N,
) -> Status
    ensures { IsShown name.now ended (W.Draft.written draft.now)
        (files_before_after W.holds W.faults outside.old outside.new)
        (before_after O.written O.faults out.old out.new)
        (before_after N.written N.faults note.old note.new)
        result }
{
    if !is_answer(ended) {
        return ended;
    }
    let is_begun = W::is_begun(draft);
    if !is_begun {
        return ended;
    }
    let mut answer = match outside.reopen(alloc, draft) {
        Ok(answer) => answer,
        Err(reason) => return report_fault(note, Call::Open, name, &reason),
    };
    let shown = show_lines(alloc, &mut answer, out, note);
    status_after(shown, ended)
}

/// Does work whose answer is written to a file, and whose own lines go to `out`.
#[tactic(auto, using(crate::proofs::Certificates::certifying))]
fn certify<K: Work, W: Outside, S: Source, O: Sink, N: Sink>(
    alloc: Global,
    work: &K,
    name: &str,
    outside: &mut W,
    source: &mut S,
    out: &mut O,
    note: &mut N,
) -> Status
    requires { K.ready work.now }
    ensures { IsCertifiedBy name.now (K.does work.now)
        (files_before_after W.holds W.faults outside.old outside.new)
        (before_after S.left S.faults source.old source.new)
        (before_after O.written O.faults out.old out.new)
        (before_after N.written N.faults note.old note.new)
        result }
{
    let mut draft = match outside.create(alloc, name) {
        Ok(draft) => draft,
        Err(reason) => return report_fault(note, Call::Create, name, &reason),
    };
    let ended = work.work(alloc, outside, source, &mut draft, note);
    let after = show::<W, O, N>(alloc, name, &draft, ended, outside, out, note);
    settle(alloc, outside, name, draft, after, note)
}

/// Work whose certificate may go to a file, as work.
#[derive(Drop)]
pub(crate) struct Certifying<'a, K> {
    pub(crate) certificate: Option<&'a str>,
    pub(crate) work: &'a K,
}

impl<'a, K: Work> Work for Certifying<'a, K> {
    ghost use Rattle.file_io.specs.Texts.{text_in};
    ghost use Rattle.front_core.specs.Certified.{IsCertified};

    ghost does = { λ w. IsCertified (text_in w.certificate) (K.does w.work.now) };

    ghost ready = { λ w. K.ready w.work.now };

    fn work<W: Outside, S: Source, O: Sink, N: Sink>(
        &self,
        alloc: Global,
        outside: &mut W,
        source: &mut S,
        out: &mut O,
        note: &mut N,
    ) -> Status {
        match self.certificate {
            None => self.work.work(alloc, outside, source, out, note),
            Some(name) => certify(alloc, self.work, name, outside, source, out, note),
        }
    }
}
