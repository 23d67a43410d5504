//! The two commands: the miter of two netlists, and the log of their comparison.
ghost use Rattle.std.specs.Prelude.{◌≡◌, ◌≤◌, None, length};
ghost use Rattle.command_line.specs.CommandLine.{IsBudget};
ghost use Rattle.net_theory.specs.Limits.{most_of_netlist};
ghost use Rattle.frame_core.specs.declared.status.Status.TheVariants.{Done};
ghost use Rattle.frame_core.specs.Views.{reply_value};
ghost use Rattle.cmd_miter.specs.MiterReport.{miter_task, miter_log_task, formula_reply};

use crate::pairs::{miter_log, miter_text};
use cmd_equiv::{empty, refusal_of, reply_of};
use equiv_run::{CompareError, is_bare};
use frame_core::{Replier, Reply, Status, Stop};
use net_theory::MOST_OF_NETLIST;
use sat_solve::Solver;
use std::alloc::Global;
use std::marker::PhantomData;

/// A formula as a reply.
fn formula_of(text: Vec<u8>) -> Reply
    ensures { reply_value result ≡ formula_reply text.items }
{
    Reply {
        text,
        report: None,
        status: Status::Done,
    }
}

/// The command that writes the miter of a netlist and that of the source, in DIMACS. The solver `S` answers no more
/// than whether the two have one interface.
#[derive(Drop)]
pub struct WriteMiter<'a, S> {
    /// The text of the first netlist, of at most 16 MiB.
    pub first: &'a [u8],
    /// The solver.
    pub solver: PhantomData<S>,
}

impl<'a, S: Solver> Replier for WriteMiter<'a, S> {
    ghost task = { λ job. miter_task job.first.now };

    ghost ready = { λ job. length job.first.now ≤ most_of_netlist };

    fn reads(&self) -> Option<usize> {
        Some(MOST_OF_NETLIST)
    }

    #[tactic(auto, using(crate::proofs::Replying::writing))]
    fn reply(&self, alloc: Global, bytes: &[u8]) -> Result<Reply, Stop> {
        let first_says_nothing = is_bare(self.first);
        if first_says_nothing {
            return Err(Stop::NoAnswer(empty(b"First")));
        }
        let second_says_nothing = is_bare(bytes);
        if second_says_nothing {
            return Err(Stop::NoAnswer(empty(b"Second")));
        }
        match miter_text::<S>(alloc, self.first, bytes) {
            Ok(text) => Ok(formula_of(text)),
            Err(CompareError::Memory) => Err(Stop::NoMemory),
            Err(error) => Err(Stop::NoAnswer(refusal_of(error))),
        }
    }
}

/// The command that compares a netlist with that of the source by the solver `S`, and writes the log as plain LRAT over
/// the numbers of `WriteMiter`: nothing where the two differ. The status is that of `equiv`.
#[derive(Drop)]
pub struct WriteMiterLog<'a, S> {
    /// The text of the first netlist, of at most 16 MiB.
    pub first: &'a [u8],
    /// The budget of conflicts, as of `equiv`.
    pub budget: u32,
    /// The solver.
    pub solver: PhantomData<S>,
}

impl<'a, S: Solver> Replier for WriteMiterLog<'a, S> {
    ghost task = { λ job. miter_log_task job.budget job.first.now };

    ghost ready = { λ job. IsBudget job.budget × (length job.first.now ≤ most_of_netlist) };

    fn reads(&self) -> Option<usize> {
        Some(MOST_OF_NETLIST)
    }

    #[tactic(auto, using(crate::proofs::Replying::logging))]
    fn reply(&self, alloc: Global, bytes: &[u8]) -> Result<Reply, Stop> {
        let first_says_nothing = is_bare(self.first);
        if first_says_nothing {
            return Err(Stop::NoAnswer(empty(b"First")));
        }
        let second_says_nothing = is_bare(bytes);
        if second_says_nothing {
            return Err(Stop::NoAnswer(empty(b"Second")));
        }
        match miter_log::<S>(alloc, self.first, bytes, self.budget) {
            Ok(compared) => Ok(reply_of(compared)),
            Err(CompareError::Memory) => Err(Stop::NoMemory),
            Err(error) => Err(Stop::NoAnswer(refusal_of(error))),
        }
    }
}
