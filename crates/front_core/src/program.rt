//! A program over one source and two sinks, and its run as work.
ghost use Rattle.std.specs.Prelude.{ℕ, ◌≤◌, length};
ghost use Rattle.net_theory.specs.Limits.{most_of_netlist};
ghost use Rattle.command_line.specs.CommandLine.{spelled, IsBudget};
ghost use Rattle.frame_core.specs.Run.{Run, before_after, run_of};
ghost use Rattle.front_core.specs.Paired.{Compares};

use file_io::{Outside, Work};
use frame_core::Status;
use port_io::{Sink, Source};
use std::alloc::Global;

/// A program that reads one source, and writes an answer to one sink and notes to another.
pub trait Program {
    /// What it promises of each run.
    ghost keeps: { Run → Type 0 };

    /// What it promises of each run over a file that is named.
    ghost keeps_named: { Run → Type 0 };

    /// What it promises of each comparison of a text with that of a source, within a budget of conflicts.
    ghost compares: { ℕ → Compares };

    /// Runs it.
    fn run<S: Source, O: Sink, N: Sink>(
        &self,
        alloc: Global,
        words: &Vec<String>,
        source: &mut S,
        out: &mut O,
        note: &mut N,
    ) -> Status
        ensures { keeps (run_of (spelled words.now)
            (before_after S.left S.faults source.old source.new)
            (before_after O.written O.faults out.old out.new)
            (before_after N.written N.faults note.old note.new)
            result) };

    /// Runs it over the source of a file that is named.
    fn run_named<S: Source, O: Sink, N: Sink>(
        &self,
        alloc: Global,
        words: &Vec<String>,
        source: &mut S,
        out: &mut O,
        note: &mut N,
    ) -> Status
        ensures { keeps_named (run_of (spelled words.now)
            (before_after S.left S.faults source.old source.new)
            (before_after O.written O.faults out.old out.new)
            (before_after N.written N.faults note.old note.new)
            result) };

    /// Compares a netlist with that of the source: `equiv` of two texts, which are never joined.
    fn compare<S: Source, O: Sink, N: Sink>(
        &self,
        alloc: Global,
        budget: u32,
        text: &[u8],
        source: &mut S,
        out: &mut O,
        note: &mut N,
    ) -> Status
        requires budget { IsBudget budget }
        requires within { length text.now ≤ most_of_netlist }
        ensures { compares budget text.now
            (before_after S.left S.faults source.old source.new)
            (before_after O.written O.faults out.old out.new)
            (before_after N.written N.faults note.old note.new)
            result };
}

/// A run of a program over words, and over the file that is named, as work.
#[derive(Drop)]
pub(crate) struct Running<'a, P> {
    pub(crate) words: &'a Vec<String>,
    pub(crate) input: Option<&'a str>,
    pub(crate) program: &'a P,
}

impl<'a, P: Program> Work for Running<'a, P> {
    ghost use Rattle.file_io.specs.Served.{IsApart};
    ghost use Rattle.file_io.specs.Texts.{text_in};
    ghost use Rattle.front_core.specs.Front.{over, runs};

    ghost does = { λ w. IsApart (runs (over P.keeps P.keeps_named (text_in w.input)) (spelled w.words.now)) };

    ghost ready = { λ w. Unit {0} };

    #[tactic(auto, using(crate::proofs::Pairs::apart_runs))]
    fn work<W: Outside, S: Source, O: Sink, N: Sink>(
        &self,
        alloc: Global,
        _outside: &mut W,
        source: &mut S,
        out: &mut O,
        note: &mut N,
    ) -> Status {
        match self.input {
            None => self.program.run(alloc, self.words, source, out, note),
            Some(_) => self.program.run_named(alloc, self.words, source, out, note),
        }
    }
}
