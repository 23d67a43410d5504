//! The comparison of two netlists by names, each a text of its own in a format of its own.
ghost use Rattle.std.specs.Prelude.{◌≤◌, length};
ghost use Rattle.command_line.specs.CommandLine.{IsBudget};
ghost use Rattle.net_theory.specs.Limits.{most_of_netlist};
ghost use Rattle.cmd_match.specs.MatchReport.{match_task};

use crate::refusing::{lacking, refusal_of};
use cmd_equiv::empty;
use cmd_formats::reply_of_named;
use equiv_match::{CompareError, FormatPair, MatchError, compare_matched};
use equiv_run::is_bare;
use frame_core::{Replier, Reply, Stop};
use net_theory::MOST_OF_NETLIST;
use progress::Tell;
use sat_solve::Solver;
use std::alloc::{AllocError, Global};
use std::marker::PhantomData;

/// The comparison of a netlist with that of the source by the names of inputs, outputs and latches: whether the two
/// have the same outputs and next states, decided with the solver `S`. A difference is told by names on the notes.
#[derive(Drop)]
pub struct EquivMatched<'a, S, T> {
    /// The formats of the two netlists.
    pub formats: FormatPair,
    /// The text of the first netlist, of at most 16 MiB.
    pub first: &'a [u8],
    /// The budget of conflicts, as of `Equiv`.
    pub budget: u32,
    /// The solver.
    pub solver: PhantomData<S>,
    /// Who is told of the progress.
    pub tell: &'a T,
}

impl<'a, S: Solver, T: Tell> Replier for EquivMatched<'a, S, T> {
    ghost task = { λ job. match_task job.formats job.budget job.first.now };

    ghost ready = { λ job. IsBudget job.budget × (length job.first.now ≤ most_of_netlist) };

    fn reads(&self) -> Option<usize> {
        Some(MOST_OF_NETLIST)
    }

    #[tactic(auto, using(crate::proofs::Comparisons::comparing))]
    fn reply(&self, alloc: Global, bytes: &[u8]) -> Result<Reply, Stop> {
        let first_says_nothing = is_bare(self.first);
        if first_says_nothing {
            return Err(Stop::NoAnswer(empty(b"First")));
        }
        let second_says_nothing = is_bare(bytes);
        if second_says_nothing {
            return Err(Stop::NoAnswer(empty(b"Second")));
        }
        match compare_matched::<S, T>(
            alloc,
            self.formats,
            self.first,
            bytes,
            self.budget,
            self.tell,
        ) {
            Ok(two) => match reply_of_named(alloc, two) {
                Ok(reply) => Ok(reply),
                Err(AllocError) => Err(Stop::NoMemory),
            },
            Err(error) => match error {
                MatchError::Lacks(lack) => Err(Stop::NoAnswer(lacking(lack))),
                MatchError::Refused(fault) => match fault {
                    CompareError::Memory => Err(Stop::NoMemory),
                    other => Err(Stop::NoAnswer(refusal_of(other))),
                },
            },
        }
    }
}
