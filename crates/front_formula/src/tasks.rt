//! The two commands of `formula`, as work.

use cmd_formula::{PartAsked, WriteFormula, WriteLog};
use file_io::{Outside, Work};
use frame_core::{AtOnce, Status, perform};
use port_io::{Sink, Source};
use std::alloc::Global;

/// Writes the formula of a part.
#[derive(Drop)]
pub(crate) struct Formula(pub(crate) PartAsked);

impl Work for Formula {
    ghost use Rattle.file_io.specs.Served.{IsApart};
    ghost use Rattle.cmd_formula.specs.FormulaReport.{formula_task};
    ghost use Rattle.front_formula.specs.FormulaRuns.{Performs};

    ghost does = { λ w. IsApart (Performs (formula_task w.0.size w.0.part)) };

    ghost ready = { λ w. Unit {0} };

    #[tactic(auto, using(crate::proofs::Performing::performing))]
    fn work<W: Outside, S: Source, O: Sink, N: Sink>(
        &self,
        alloc: Global,
        _outside: &mut W,
        source: &mut S,
        out: &mut O,
        note: &mut N,
    ) -> Status {
        perform(alloc, &AtOnce(WriteFormula(self.0)), source, out, note)
    }
}

/// Writes the log of a part.
#[derive(Drop)]
pub(crate) struct Log(pub(crate) PartAsked);

impl Work for Log {
    ghost use Rattle.file_io.specs.Served.{IsApart};
    ghost use Rattle.cmd_formula.specs.FormulaReport.{log_task};
    ghost use Rattle.front_formula.specs.FormulaRuns.{Performs};

    ghost does = { λ w. IsApart (Performs (log_task w.0.size w.0.part)) };

    ghost ready = { λ w. Unit {0} };

    #[tactic(auto, using(crate::proofs::Performing::performing))]
    fn work<W: Outside, S: Source, O: Sink, N: Sink>(
        &self,
        alloc: Global,
        _outside: &mut W,
        source: &mut S,
        out: &mut O,
        note: &mut N,
    ) -> Status {
        perform(alloc, &AtOnce(WriteLog(self.0)), source, out, note)
    }
}
