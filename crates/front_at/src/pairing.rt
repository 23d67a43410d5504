//! Work over two texts, each from an input of its own.
ghost use Rattle.std.specs.Prelude.{◌≡◌, ◌≤◌, length};
ghost use Rattle.net_theory.specs.Limits.{most_of_netlist};
ghost use Rattle.frame_core.specs.Outside.{port_state, Writes};
ghost use Rattle.frame_core.specs.Reported.{error_line};
ghost use Rattle.frame_core.specs.Run.{before_after};
ghost use Rattle.frame_core.specs.Views.{line_value};
ghost use Rattle.file_io.specs.Files.{files_before_after};
ghost use Rattle.file_io.specs.Texts.{text_in};
ghost use Rattle.front_core.specs.Paired.{Compares, first_line, first_status};
ghost use Rattle.front_core.specs.Paired.{IsFirstDone, IsFirstStandard, IsNamedPair};

use file_io::{Call, Outside, Work, read_input, report_fault};
use frame_core::{ErrorLine, Field, Status, report_error};
use net_theory::MOST_OF_NETLIST;
use port_io::{ReadError, Sink, Source, read_all};
use std::alloc::Global;

/// What is done with a text and that of a source.
pub trait OverText {
    /// What it does, by the text.
    ghost does: { Self → Compares };

    /// The precondition on its arguments.
    ghost ready: { Self → Type 0 };

    /// Does it.
    fn over<S: Source, O: Sink, N: Sink>(
        &self,
        alloc: Global,
        text: &[u8],
        source: &mut S,
        out: &mut O,
        note: &mut N,
    ) -> Status
        requires ready { ready self.now }
        requires within { length text.now ≤ most_of_netlist }
        ensures { does self.now text.now
            (before_after S.left S.faults source.old source.new)
            (before_after O.written O.faults out.old out.new)
            (before_after N.written N.faults note.old note.new)
            result };
}

/// What is done with a text that was read, as work.
#[derive(Drop)]
struct WithText<'a, K> {
    text: &'a Vec<u8>,
    work: &'a K,
}

impl<'a, K: OverText> Work for WithText<'a, K> {
    ghost use Rattle.file_io.specs.Served.{IsApart};

    ghost does = { λ w. IsApart (K.does w.work.now w.text.now.items) };

    ghost ready = { λ w. K.ready w.work.now × (length w.text.now.items ≤ most_of_netlist) };

    #[tactic(auto, using(crate::proofs::Pairs::apart_runs))]
    fn work<W: Outside, S: Source, O: Sink, N: Sink>(
        &self,
        alloc: Global,
        _outside: &mut W,
        source: &mut S,
        out: &mut O,
        note: &mut N,
    ) -> Status {
        self.work.over(alloc, self.text, source, out, note)
    }
}

/// The line of a failed read of the first text.
#[tactic(auto, unfolding(frame_core::specs::Views::shown, front_core::specs::Paired::first_line, // for the prover
frame_core::specs::Reported::memory))]
fn line_of(error: ReadError) -> ErrorLine
    ensures { line_value result ≡ first_line error }
{
    match error {
        ReadError::ReadFault => {
            ErrorLine::led(
                Field::Known(b"First"),
                b"ReadFault",
                Field::Nothing,
                Field::Nothing,
            )
        }
        ReadError::TooLong => {
            ErrorLine::led(
                Field::Known(b"First"),
                b"TooLong",
                Field::Nothing,
                Field::Nothing,
            )
        }
        ReadError::Memory => ErrorLine::plain(b"Memory"),
    }
}

/// Reports a failed read of the first text.
fn report_first<N: Sink>(note: &mut N, error: ReadError) -> Status
    ensures line { Writes (port_state N.written N.faults note.old) (port_state N.written N.faults note.new)
        (error_line (first_line error)) }
    ensures status { result ≡ first_status error }
{
    report_error(note, &line_of(error));
    match error {
        ReadError::ReadFault => Status::ReadFault,
        ReadError::TooLong => Status::Limit,
        ReadError::Memory => Status::Memory,
    }
}

/// Does work with the text of `source` and a second one.
#[tactic(auto, using(crate::proofs::Pairs::standard))]
fn pair_standard<K: OverText, W: Outside, S: Source, O: Sink, N: Sink>(
    alloc: Global,
    work: &K,
    second: Option<&str>,
    outside: &mut W,
    source: &mut S,
    out: &mut O,
    note: &mut N,
) -> Status
    requires { K.ready work.now }
    ensures { IsFirstStandard (text_in second.entry) (K.does work.now)
        (files_before_after W.holds W.faults outside.old outside.new)
        (before_after S.left S.faults source.old source.new)
        (before_after O.written O.faults out.old out.new)
        (before_after N.written N.faults note.old note.new)
        result }
{
    let text = match read_all(alloc, source, MOST_OF_NETLIST) {
        Ok(text) => text,
        Err(error) => return report_first(note, error),
    };
    let with_text = WithText { text: &text, work };
    read_input(alloc, &with_text, second, outside, source, out, note)
}

/// Does work with the text of an input that was opened and a second one.
#[tactic(auto, using(crate::proofs::Pairs::reading))]
fn pair_input<K: OverText, W: Outside, I: Source, S: Source, O: Sink, N: Sink>(
    alloc: Global,
    work: &K,
    second: Option<&str>,
    outside: &mut W,
    input: &mut I,
    source: &mut S,
    out: &mut O,
    note: &mut N,
) -> Status
    requires { K.ready work.now }
    ensures { IsFirstDone (text_in second.entry) (K.does work.now)
        (files_before_after W.holds W.faults outside.old outside.new)
        (before_after I.left I.faults input.old input.new)
        (before_after S.left S.faults source.old source.new)
        (before_after O.written O.faults out.old out.new)
        (before_after N.written N.faults note.old note.new)
        result }
{
    let text = match read_all(alloc, input, MOST_OF_NETLIST) {
        Ok(text) => text,
        Err(error) => return report_first(note, error),
    };
    let with_text = WithText { text: &text, work };
    read_input(alloc, &with_text, second, outside, source, out, note)
}

/// Does work with the text of a file and a second one.
#[tactic(auto, using(crate::proofs::Pairs::named))]
fn pair_named<K: OverText, W: Outside, S: Source, O: Sink, N: Sink>(
    alloc: Global,
    work: &K,
    name: &str,
    second: Option<&str>,
    outside: &mut W,
    source: &mut S,
    out: &mut O,
    note: &mut N,
) -> Status
    requires { K.ready work.now }
    ensures { IsNamedPair name.now (text_in second.entry) (K.does work.now)
        (files_before_after W.holds W.faults outside.old outside.new)
        (before_after S.left S.faults source.old source.new)
        (before_after O.written O.faults out.old out.new)
        (before_after N.written N.faults note.old note.new)
        result }
{
    let mut input = match outside.open(alloc, name) {
        Ok(input) => input,
        Err(reason) => return report_fault(note, Call::Open, name, &reason),
    };
    pair_input::<K, W, W::Input, S, O, N>(
        alloc, work, second, outside, &mut input, source, out, note,
    )
}

/// What is done with the texts of two inputs, which are never joined, as work: those of the files that are named, or
/// that of the source.
#[derive(Drop)]
pub struct Pairing<'a, K> {
    /// The file of the first text; None for the source.
    pub first: Option<&'a str>,
    /// The file of the second text; None for the source.
    pub second: Option<&'a str>,
    /// What is done with them.
    pub work: &'a K,
}

impl<'a, K: OverText> Work for Pairing<'a, K> {
    ghost use Rattle.file_io.specs.Texts.{text_in};
    ghost use Rattle.front_core.specs.Paired.{IsPaired};

    ghost does = { λ w. IsPaired (text_in w.first) (text_in w.second) (K.does w.work.now) };

    ghost ready = { λ w. K.ready w.work.now };

    fn work<W: Outside, S: Source, O: Sink, N: Sink>(
        &self,
        alloc: Global,
        outside: &mut W,
        source: &mut S,
        out: &mut O,
        note: &mut N,
    ) -> Status {
        match self.first {
            None => {
                pair_standard::<K, W, S, O, N>(
                    alloc,
                    self.work,
                    self.second,
                    outside,
                    source,
                    out,
                    note,
                )
            }
            Some(name) => {
                pair_named::<K, W, S, O, N>(
                    alloc,
                    self.work,
                    name,
                    self.second,
                    outside,
                    source,
                    out,
                    note,
                )
            }
        }
    }
}
