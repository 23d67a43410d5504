//! The two commands over two netlists, as programs that compare: the miter, and the log of the comparison.
use cdcl_core::Cdcl;
use cmd_miter::{WriteMiter, WriteMiterLog};
use frame_core::{AtOnce, Status, perform};
use front_core::{Program, report_usage};
use port_io::{Sink, Source};
use std::alloc::Global;
use std::marker::PhantomData;

/// Writes the miter of two netlists. It has no commands of its own.
#[derive(Drop)]
pub(crate) struct Miter;

impl Program for Miter {
    ghost use Rattle.front_formula.specs.MiterRuns.{WritesMiter};

    ghost keeps = { λ r. Unit {0} };

    ghost keeps_named = { λ r. Unit {0} };

    ghost compares = { λ budget text source out note status. WritesMiter text source out note status };

    fn run<S: Source, O: Sink, N: Sink>(
        &self,
        _alloc: Global,
        _words: &Vec<String>,
        _source: &mut S,
        _out: &mut O,
        note: &mut N,
    ) -> Status {
        report_usage(note)
    }

    fn run_named<S: Source, O: Sink, N: Sink>(
        &self,
        _alloc: Global,
        _words: &Vec<String>,
        _source: &mut S,
        _out: &mut O,
        note: &mut N,
    ) -> Status {
        report_usage(note)
    }

    #[tactic(auto, using(crate::proofs::Pairs::comparing))]
    fn compare<S: Source, O: Sink, N: Sink>(
        &self,
        alloc: Global,
        _budget: u32,
        text: &[u8],
        source: &mut S,
        out: &mut O,
        note: &mut N,
    ) -> Status {
        let job = AtOnce(WriteMiter {
            first: text,
            solver: PhantomData::<Cdcl>,
        });
        perform(alloc, &job, source, out, note)
    }
}

/// Writes the log of the comparison of two netlists. It has no commands of its own.
#[derive(Drop)]
pub(crate) struct MiterLog;

impl Program for MiterLog {
    ghost use Rattle.front_formula.specs.MiterRuns.{WritesMiterLog};

    ghost keeps = { λ r. Unit {0} };

    ghost keeps_named = { λ r. Unit {0} };

    ghost compares = { λ budget text source out note status. WritesMiterLog budget text source out note status };

    fn run<S: Source, O: Sink, N: Sink>(
        &self,
        _alloc: Global,
        _words: &Vec<String>,
        _source: &mut S,
        _out: &mut O,
        note: &mut N,
    ) -> Status {
        report_usage(note)
    }

    fn run_named<S: Source, O: Sink, N: Sink>(
        &self,
        _alloc: Global,
        _words: &Vec<String>,
        _source: &mut S,
        _out: &mut O,
        note: &mut N,
    ) -> Status {
        report_usage(note)
    }

    #[tactic(auto, using(crate::proofs::Pairs::comparing))]
    fn compare<S: Source, O: Sink, N: Sink>(
        &self,
        alloc: Global,
        budget: u32,
        text: &[u8],
        source: &mut S,
        out: &mut O,
        note: &mut N,
    ) -> Status {
        let job = AtOnce(WriteMiterLog {
            first: text,
            budget,
            solver: PhantomData::<Cdcl>,
        });
        perform(alloc, &job, source, out, note)
    }
}
