//! The command over one source, as work.

use cdcl_core::Cdcl;
use cmd_wishes::ImproveWished;
use file_io::{Outside, Work};
use format_names::NetFormat;
use frame_core::{AtOnce, Status, perform};
use port_io::{Sink, Source};
use progress::Tell;
use settings::ImproveSettings;
use std::alloc::Global;
use std::marker::PhantomData;
use wish_names::Wishes;

/// Improves the netlist of the source by wishes.
#[derive(Drop)]
pub(crate) struct Wishing<'a, T> {
    pub(crate) format: NetFormat,
    pub(crate) settings: ImproveSettings,
    pub(crate) wishes: Wishes,
    pub(crate) tell: &'a T,
}

impl<'a, T: Tell> Work for Wishing<'a, T> {
    ghost use Rattle.file_io.specs.Served.{IsApart};
    ghost use Rattle.front_formula.specs.FormulaRuns.{Performs};
    ghost use Rattle.cmd_wishes.specs.WishReport.{wished_task};
    ghost use Rattle.front_wish.specs.AskedWishes.{IsReady};

    ghost does = { λ w. IsApart (Performs (wished_task w.format w.settings w.wishes)) };

    ghost ready = { λ w. IsReady w.format w.settings };

    #[tactic(auto, using(crate::proofs::Runs::performing))]
    fn work<W: Outside, S: Source, O: Sink, N: Sink>(
        &self,
        alloc: Global,
        _outside: &mut W,
        source: &mut S,
        out: &mut O,
        note: &mut N,
    ) -> Status {
        let job = AtOnce(ImproveWished {
            format: self.format,
            settings: self.settings,
            wishes: self.wishes,
            solver: PhantomData::<Cdcl>,
            tell: self.tell,
        });
        perform(alloc, &job, source, out, note)
    }
}
