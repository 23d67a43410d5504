//! The command `improve` for the netlist of a file that is named: an empty text isn't a netlist, since it is what a
//! command that failed leaves behind. Every other text is that of `improve`.
ghost use Rattle.std.specs.Prelude.{◌≡◌};
ghost use Rattle.command_line.specs.CommandLine.{IsAsked};
ghost use Rattle.frame_core.specs.Views.{refusal_value};
ghost use Rattle.cmd_improve.specs.NamedReport.{named_task, empty_refusal};

use crate::improve::reply_to;
use command_line::Format;
use equiv_run::is_bare;
use frame_core::{ErrorLine, Refusal, Replier, Reply, Status, Stop};
use net_theory::MOST_OF_NETLIST;
use progress::Tell;
use sat_solve::Solver;
use settings::ImproveSettings;
use std::alloc::Global;
use std::marker::PhantomData;

/// The refusal of a text without a directive, by this name.
#[tactic(auto, unfolding(crate::specs::NamedReport::empty_refusal))]
pub fn empty(name: &'static [u8]) -> Refusal
    ensures { refusal_value result ≡ empty_refusal name.now }
{
    Refusal {
        status: Status::Malformed,
        line: ErrorLine::plain(name),
    }
}

/// The command over a file that is named, whose text has to have a directive.
#[derive(Drop)]
pub struct ImproveNamed<'a, S, T> {
    /// The format of the netlist.
    pub format: Format,
    /// The settings of the passes over the netlist.
    pub settings: ImproveSettings,
    /// The solver.
    pub solver: PhantomData<S>,
    /// Who is told of the progress.
    pub tell: &'a T,
}

impl<'a, S: Solver, T: Tell> Replier for ImproveNamed<'a, S, T> {
    ghost task = { λ job. named_task job.format job.settings };

    ghost ready = { λ job. IsAsked job.format job.settings };

    fn reads(&self) -> Option<usize> {
        Some(MOST_OF_NETLIST)
    }

    #[tactic(auto, using(crate::proofs::Naming::naming))]
    fn reply(&self, alloc: Global, bytes: &[u8]) -> Result<Reply, Stop> {
        let says_nothing = is_bare(bytes);
        if says_nothing {
            return Err(Stop::NoAnswer(empty(b"Empty")));
        }
        reply_to::<S, T>(alloc, self.format, bytes, &self.settings, self.tell)
    }
}
