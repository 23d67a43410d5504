//! Answers that come with a file, which is written before them.
ghost use Rattle.std.specs.Prelude.{Some};
ghost use Rattle.frame_core.specs.Run.{before_after};
ghost use Rattle.file_io.specs.Files.{files_before_after};
ghost use Rattle.front_formula.specs.Accompanied.{IsAccompanied};

use crate::logging::log_after;
use file_io::{Call, Outside, Work, report_fault, settle};
use frame_core::Status;
use port_io::{Sink, Source};
use std::alloc::Global;

/// Writes a text to a file, whose draft is created before, and then, if that is done, an answer to the output.
#[tactic(auto, using(crate::proofs::Drafts::accompanying))]
fn write_both<T: Work, A: Work, W: Outside, S: Source, O: Sink, N: Sink>(
    alloc: Global,
    texts: &T,
    answers: &A,
    name: &str,
    outside: &mut W,
    source: &mut S,
    out: &mut O,
    note: &mut N,
) -> Status
    requires texts { T.ready texts.now }
    requires answers { A.ready answers.now }
    ensures { IsAccompanied (Some name.now) (T.does texts.now) (A.does answers.now)
        (files_before_after W.holds W.faults outside.old outside.new)
        (before_after S.left S.faults source.old source.new)
        (before_after O.written O.faults out.old out.new)
        (before_after N.written N.faults note.old note.new)
        result }
{
    let mut draft = match outside.create(alloc, name) {
        Ok(draft) => draft,
        Err(reason) => return report_fault(note, Call::Create, name, &reason),
    };
    let first = texts.work(alloc, outside, source, &mut draft, note);
    let ended = log_after(alloc, answers, first, outside, source, out, note);
    settle(alloc, outside, name, draft, ended, note)
}

/// An answer that may come with a file, as work.
#[derive(Drop)]
pub(crate) struct Accompanying<'a, T, A> {
    pub(crate) file: Option<&'a str>,
    pub(crate) texts: &'a T,
    pub(crate) answers: &'a A,
}

impl<'a, T: Work, A: Work> Work for Accompanying<'a, T, A> {
    ghost use Rattle.file_io.specs.Texts.{text_in};
    ghost use Rattle.front_formula.specs.Accompanied.{IsAccompanied};

    ghost does = { λ w. IsAccompanied (text_in w.file) (T.does w.texts.now) (A.does w.answers.now) };

    ghost ready = { λ w. T.ready w.texts.now × A.ready w.answers.now };

    fn work<W: Outside, S: Source, O: Sink, N: Sink>(
        &self,
        alloc: Global,
        outside: &mut W,
        source: &mut S,
        out: &mut O,
        note: &mut N,
    ) -> Status {
        match self.file {
            None => self.answers.work(alloc, outside, source, out, note),
            Some(name) => {
                write_both(
                    alloc,
                    self.texts,
                    self.answers,
                    name,
                    outside,
                    source,
                    out,
                    note,
                )
            }
        }
    }
}
