//! Work over inputs and outputs that are named.
ghost use Rattle.std.specs.Prelude.{◌⊎◌};
ghost use Rattle.frame_core.specs.Run.{before_after};
ghost use Rattle.file_io.specs.Files.{files_before_after};
ghost use Rattle.file_io.specs.Served.{Does, IsWritten, IsDelivered, IsUnread, IsOpened, IsRead};
ghost use Rattle.file_io.specs.Texts.{text_in};

use crate::calls::Call;
use crate::outside::Outside;
use crate::reporting::report_fault;
use crate::settling::settle;
use frame_core::Status;
use port_io::{Sink, Source};
use std::alloc::Global;

/// What is done with files, a source, an output and the notes, whichever they are.
pub trait Work {
    /// What it does with them, from before to after, and its status.
    ghost does: { Self → Does };

    /// The precondition on its arguments.
    ghost ready: { Self → Type 0 };

    /// Does it.
    fn work<W: Outside, S: Source, O: Sink, N: Sink>(
        &self,
        alloc: Global,
        outside: &mut W,
        source: &mut S,
        out: &mut O,
        note: &mut N,
    ) -> Status
        requires { ready self.now }
        ensures { does self.now
            (files_before_after W.holds W.faults outside.old outside.new)
            (before_after S.left S.faults source.old source.new)
            (before_after O.written O.faults out.old out.new)
            (before_after N.written N.faults note.old note.new)
            result };
}

// ---- outputs

/// Does work whose output is a file: a draft is created before, and kept or discarded at the end.
#[tactic(auto, using(crate::proofs::Serves::writing))]
fn write_file<K: Work, W: Outside, S: Source, N: Sink>(
    alloc: Global,
    work: &K,
    name: &str,
    outside: &mut W,
    source: &mut S,
    note: &mut N,
) -> Status
    requires { K.ready work.now }
    ensures { IsWritten name.now (K.does work.now)
        (files_before_after W.holds W.faults outside.old outside.new)
        (before_after S.left S.faults source.old source.new)
        (before_after N.written N.faults note.old note.new)
        result }
{
    let mut draft = match outside.create(alloc, name) {
        Ok(draft) => draft,
        Err(reason) => return report_fault(note, Call::Create, name, &reason),
    };
    let ended = work.work(alloc, outside, source, &mut draft, note);
    settle(alloc, outside, name, draft, ended, note)
}

/// Does work whose output is a file or, without a name, `out`. A file is created before the work begins.
pub fn write_output<K: Work, W: Outside, S: Source, O: Sink, N: Sink>(
    alloc: Global,
    work: &K,
    output: Option<&str>,
    outside: &mut W,
    source: &mut S,
    out: &mut O,
    note: &mut N,
) -> Status
    requires { K.ready work.now }
    ensures { IsDelivered (text_in output.entry) (K.does work.now)
        (files_before_after W.holds W.faults outside.old outside.new)
        (before_after S.left S.faults source.old source.new)
        (before_after O.written O.faults out.old out.new)
        (before_after N.written N.faults note.old note.new)
        result }
{
    match output {
        None => work.work(alloc, outside, source, out, note),
        Some(name) => write_file(alloc, work, name, outside, source, note),
    }
}

// ---- inputs

/// Does work whose input is a file.
#[tactic(auto, using(crate::proofs::Serves::opening))]
fn read_file<K: Work, W: Outside, O: Sink, N: Sink>(
    alloc: Global,
    work: &K,
    name: &str,
    outside: &mut W,
    out: &mut O,
    note: &mut N,
) -> Status
    requires { K.ready work.now }
    ensures { IsUnread name.now
        (files_before_after W.holds W.faults outside.old outside.new)
        (before_after O.written O.faults out.old out.new)
        (before_after N.written N.faults note.old note.new)
        result ⊎
        IsOpened name.now (K.does work.now)
        (files_before_after W.holds W.faults outside.old outside.new)
        (before_after O.written O.faults out.old out.new)
        (before_after N.written N.faults note.old note.new)
        result }
{
    let mut input = match outside.open(alloc, name) {
        Ok(input) => input,
        Err(reason) => return report_fault(note, Call::Open, name, &reason),
    };
    work.work(alloc, outside, &mut input, out, note)
}

/// Does work whose input is a file or, without a name, `source`.
pub fn read_input<K: Work, W: Outside, S: Source, O: Sink, N: Sink>(
    alloc: Global,
    work: &K,
    input: Option<&str>,
    outside: &mut W,
    source: &mut S,
    out: &mut O,
    note: &mut N,
) -> Status
    requires { K.ready work.now }
    ensures { IsRead (text_in input.entry) (K.does work.now)
        (files_before_after W.holds W.faults outside.old outside.new)
        (before_after S.left S.faults source.old source.new)
        (before_after O.written O.faults out.old out.new)
        (before_after N.written N.faults note.old note.new)
        result }
{
    match input {
        None => work.work(alloc, outside, source, out, note),
        Some(name) => read_file(alloc, work, name, outside, out, note),
    }
}

/// Work over an input that may be named, as work.
#[derive(Drop)]
pub struct Reading<'a, K> {
    /// The name of its input; None for the source.
    pub input: Option<&'a str>,
    /// The work.
    pub work: &'a K,
}

impl<'a, K: Work> Work for Reading<'a, K> {
    ghost use Rattle.file_io.specs.Served.{IsRead};
    ghost use Rattle.file_io.specs.Texts.{text_in};

    ghost does = { λ r. IsRead (text_in r.input) (K.does r.work.now) };

    ghost ready = { λ r. K.ready r.work.now };

    fn work<W: Outside, S: Source, O: Sink, N: Sink>(
        &self,
        alloc: Global,
        outside: &mut W,
        source: &mut S,
        out: &mut O,
        note: &mut N,
    ) -> Status {
        read_input(alloc, self.work, self.input, outside, source, out, note)
    }
}
