//! The comparison of two texts, each from an input of its own.
ghost use Rattle.std.specs.Prelude.{◌≡◌, ◌≤◌, length};
ghost use Rattle.net_theory.specs.Limits.{most_of_netlist};
ghost use Rattle.command_line.specs.CommandLine.{IsBudget};
ghost use Rattle.frame_core.specs.Outside.{port_state, Writes};
ghost use Rattle.frame_core.specs.Reported.{error_line};
ghost use Rattle.frame_core.specs.Run.{before_after};
ghost use Rattle.frame_core.specs.Views.{line_value};
ghost use Rattle.file_io.specs.Files.{files_before_after};
ghost use Rattle.file_io.specs.Texts.{text_in};
ghost use Rattle.front_core.specs.Paired.{first_line, first_status};
ghost use Rattle.front_core.specs.Paired.{IsFirstDone, IsFirstStandard, IsNamedPair};

use crate::program::Program;
use file_io::{Call, Outside, Work, read_input, report_fault};
use frame_core::{ErrorLine, Field, Status, report_error};
use net_theory::MOST_OF_NETLIST;
use port_io::{ReadError, Sink, Source, read_all};
use std::alloc::Global;

/// The comparison of a text with that of the source, as work.
#[derive(Drop)]
struct Comparing<'a, P> {
    text: &'a Vec<u8>,
    budget: u32,
    program: &'a P,
}

impl<'a, P: Program> Work for Comparing<'a, P> {
    ghost use Rattle.file_io.specs.Served.{IsApart};

    ghost does = { λ w. IsApart (P.compares w.budget w.text.now.items) };

    ghost ready = { λ w. IsBudget w.budget × (length w.text.now.items ≤ most_of_netlist) };

    #[tactic(auto, using(crate::proofs::Pairs::apart_runs))]
    fn work<W: Outside, S: Source, O: Sink, N: Sink>(
        &self,
        alloc: Global,
        _outside: &mut W,
        source: &mut S,
        out: &mut O,
        note: &mut N,
    ) -> Status {
        self.program
            .compare(alloc, self.budget, self.text, source, out, note)
    }
}

/// The line of a failed read of the first text.
#[tactic(auto, unfolding(frame_core::specs::Views::shown, crate::specs::Paired::first_line, // for the prover
frame_core::specs::Reported::memory))]
fn line_of(error: ReadError) -> ErrorLine
    ensures { line_value result ≡ first_line error }
{
    match error {
        ReadError::ReadFault => {
            ErrorLine::led(
                Field::Known(b"First"),
                b"ReadFault",
                Field::Nothing,
                Field::Nothing,
            )
        }
        ReadError::TooLong => {
            ErrorLine::led(
                Field::Known(b"First"),
                b"TooLong",
                Field::Nothing,
                Field::Nothing,
            )
        }
        ReadError::Memory => ErrorLine::plain(b"Memory"),
    }
}

/// Reports a failed read of the first text.
fn report_first<N: Sink>(note: &mut N, error: ReadError) -> Status
    ensures line { Writes (port_state N.written N.faults note.old) (port_state N.written N.faults note.new)
        (error_line (first_line error)) }
    ensures status { result ≡ first_status error }
{
    report_error(note, &line_of(error));
    match error {
        ReadError::ReadFault => Status::ReadFault,
        ReadError::TooLong => Status::Limit,
        ReadError::Memory => Status::Memory,
    }
}

/// Compares the text of `source` with a second one.
#[tactic(auto, using(crate::proofs::Pairs::standard))]
fn pair_standard<P: Program, W: Outside, S: Source, O: Sink, N: Sink>(
    alloc: Global,
    program: &P,
    budget: u32,
    second: Option<&str>,
    outside: &mut W,
    source: &mut S,
    out: &mut O,
    note: &mut N,
) -> Status
    requires { IsBudget budget }
    ensures { IsFirstStandard (text_in second.entry) (P.compares budget)
        (files_before_after W.holds W.faults outside.old outside.new)
        (before_after S.left S.faults source.old source.new)
        (before_after O.written O.faults out.old out.new)
        (before_after N.written N.faults note.old note.new)
        result }
{
    let text = match read_all(alloc, source, MOST_OF_NETLIST) {
        Ok(text) => text,
        Err(error) => return report_first(note, error),
    };
    let comparing = Comparing {
        text: &text,
        budget,
        program,
    };
    read_input(alloc, &comparing, second, outside, source, out, note)
}

/// Compares the text of an input that was opened with a second one.
#[tactic(auto, using(crate::proofs::Pairs::reading))]
fn pair_input<P: Program, W: Outside, I: Source, S: Source, O: Sink, N: Sink>(
    alloc: Global,
    program: &P,
    budget: u32,
    second: Option<&str>,
    outside: &mut W,
    input: &mut I,
    source: &mut S,
    out: &mut O,
    note: &mut N,
) -> Status
    requires { IsBudget budget }
    ensures { IsFirstDone (text_in second.entry) (P.compares budget)
        (files_before_after W.holds W.faults outside.old outside.new)
        (before_after I.left I.faults input.old input.new)
        (before_after S.left S.faults source.old source.new)
        (before_after O.written O.faults out.old out.new)
        (before_after N.written N.faults note.old note.new)
        result }
{
    let text = match read_all(alloc, input, MOST_OF_NETLIST) {
        Ok(text) => text,
        Err(error) => return report_first(note, error),
    };
    let comparing = Comparing {
        text: &text,
        budget,
        program,
    };
    read_input(alloc, &comparing, second, outside, source, out, note)
}

/// Compares the text of a file with a second one.
#[tactic(auto, using(crate::proofs::Pairs::named))]
fn pair_named<P: Program, W: Outside, S: Source, O: Sink, N: Sink>(
    alloc: Global,
    program: &P,
    budget: u32,
    name: &str,
    second: Option<&str>,
    outside: &mut W,
    source: &mut S,
    out: &mut O,
    note: &mut N,
) -> Status
    requires { IsBudget budget }
    ensures { IsNamedPair name.now (text_in second.entry) (P.compares budget)
        (files_before_after W.holds W.faults outside.old outside.new)
        (before_after S.left S.faults source.old source.new)
        (before_after O.written O.faults out.old out.new)
        (before_after N.written N.faults note.old note.new)
        result }
{
    let mut input = match outside.open(alloc, name) {
        Ok(input) => input,
        Err(reason) => return report_fault(note, Call::Open, name, &reason),
    };
    pair_input::<P, W, W::Input, S, O, N>(
        alloc, program, budget, second, outside, &mut input, source, out, note,
    )
}

/// The comparison of the texts of two inputs, which are never joined, as work: those of the files that are named, or
/// that of the source.
#[derive(Drop)]
pub struct Pairing<'a, P> {
    /// The file of the first text; None for the source.
    pub first: Option<&'a str>,
    /// The file of the second text; None for the source.
    pub second: Option<&'a str>,
    /// The budget of conflicts, 1 to 10,000,000.
    pub budget: u32,
    /// The program that compares.
    pub program: &'a P,
}

impl<'a, P: Program> Work for Pairing<'a, P> {
    ghost use Rattle.file_io.specs.Texts.{text_in};
    ghost use Rattle.front_core.specs.Paired.{IsPaired};

    ghost does = { λ w. IsPaired (text_in w.first) (text_in w.second) (P.compares w.budget) };

    ghost ready = { λ w. IsBudget w.budget };

    fn work<W: Outside, S: Source, O: Sink, N: Sink>(
        &self,
        alloc: Global,
        outside: &mut W,
        source: &mut S,
        out: &mut O,
        note: &mut N,
    ) -> Status {
        match self.first {
            None => {
                pair_standard::<P, W, S, O, N>(
                    alloc,
                    self.program,
                    self.budget,
                    self.second,
                    outside,
                    source,
                    out,
                    note,
                )
            }
            Some(name) => {
                pair_named::<P, W, S, O, N>(
                    alloc,
                    self.program,
                    self.budget,
                    name,
                    self.second,
                    outside,
                    source,
                    out,
                    note,
                )
            }
        }
    }
}
