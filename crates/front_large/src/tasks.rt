//! The answer of a large question, as work.

use crate::large::Large;
use cdcl_core::Cdcl;
use cmd_part::WritePart;
use cmd_recheck::{LongLevels, LongSteps, Recheck};
use file_io::{Outside, Work};
use frame_core::{AtOnce, Status, perform, perform_stream};
use port_io::{Sink, Source};
use std::alloc::Global;
use std::marker::PhantomData;

/// Answers a large question.
#[derive(Drop)]
pub(crate) struct Answering(pub(crate) Large);

impl Work for Answering {
    ghost use Rattle.file_io.specs.Served.{IsApart};
    ghost use Rattle.front_formula.specs.FormulaRuns.{Performs};
    ghost use Rattle.front_large.specs.LargeRuns.{task_of};
    ghost use Rattle.front_large.specs.LargeWords.{IsReady};

    ghost does = { λ w. IsApart (Performs (task_of w.0)) };

    ghost ready = { λ w. IsReady w.0 };

    #[tactic(auto, using(crate::proofs::Performing::performing))]
    fn work<W: Outside, S: Source, O: Sink, N: Sink>(
        &self,
        alloc: Global,
        _outside: &mut W,
        source: &mut S,
        out: &mut O,
        note: &mut N,
    ) -> Status {
        match &self.0 {
            Large::Part(part) => {
                let job = AtOnce(WritePart {
                    part: *part,
                    solver: PhantomData::<Cdcl>,
                });
                perform(alloc, &job, source, out, note)
            }
            Large::Steps(most) => {
                let job = Recheck(LongSteps { most: *most });
                perform_stream(alloc, &job, source, out, note)
            }
            Large::Levels(most) => {
                let job = Recheck(LongLevels { most: *most });
                perform_stream(alloc, &job, source, out, note)
            }
        }
    }
}
