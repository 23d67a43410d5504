//! The comparison of two netlists that each stand in a text of its own, which are never joined.
ghost use Rattle.std.specs.Prelude.{◌≡◌, ◌≤◌, length, IfOk};
ghost use Rattle.std.specs.Option.{option_map};
ghost use Rattle.command_line.specs.CommandLine.{IsBudget};
ghost use Rattle.net_theory.specs.Limits.{most_of_netlist};
ghost use Rattle.frame_core.specs.Views.{report_text, reply_value, refusal_value};
ghost use Rattle.cmd_equiv.specs.WithReport.{with_report, with_reply, with_task, empty_refusal};

use crate::equiv::{refusal_of, reply_of};
use equiv_run::{CompareError, ComparedTwo, compare_two, is_bare};
use frame_core::{ErrorLine, Field, Refusal, Replier, Reply, Report, Status, Stop};
use net_theory::MOST_OF_NETLIST;
use progress::Tell;
use sat_solve::Solver;
use std::alloc::{AllocError, Global};
use std::marker::PhantomData;

/// The refusal of a text that says nothing.
#[tactic(auto, unfolding(frame_core::specs::Views::shown, crate::specs::WithReport::empty_refusal))]
pub fn empty(netlist: &'static [u8]) -> Refusal
    ensures { refusal_value result ≡ empty_refusal netlist.now }
{
    Refusal {
        status: Status::Malformed,
        line: ErrorLine::led(
            Field::Known(netlist),
            b"Empty",
            Field::Nothing,
            Field::Nothing,
        ),
    }
}

/// The report of a comparison: a line, if neither netlist has an output or a latch.
#[tactic(auto, unfolding(crate::specs::WithReport::no_sink_line))]
fn report_of(alloc: Global, no_sink: bool) -> Result<Option<Report>, AllocError>
    ensures { IfOk result (λ report. option_map report_text report ≡ with_report no_sink) }
{
    if !no_sink {
        return Ok(None);
    }
    let mut line = Vec::new(alloc);
    line.extend_from_slice(
        b"note: neither netlist has an output or latch: nothing was compared\n",
    )?;
    Ok(Some(Report::whole(line)))
}

/// The reply of a comparison of two texts.
pub fn reply_of_two(alloc: Global, two: ComparedTwo) -> Result<Reply, AllocError>
    ensures { IfOk result (λ reply. reply_value reply ≡ with_reply (record {
      compared = record { text = two.compared.text.items; outcome = two.compared.outcome };
      no_sink = two.no_sink;
    })) }
{
    let report = report_of(alloc, two.no_sink)?;
    let reply = reply_of(two.compared);
    Ok(Reply { report, ..reply })
}

/// The comparison of a netlist with that of the source: whether the two have the same outputs and next states,
/// decided with the solver `S`.
#[derive(Drop)]
pub struct EquivWith<'a, S, T> {
    /// The text of the first netlist, of at most 16 MiB.
    pub first: &'a [u8],
    /// The budget of conflicts, as of `Equiv`.
    pub budget: u32,
    /// The solver.
    pub solver: PhantomData<S>,
    /// Who is told of the progress.
    pub tell: &'a T,
}

impl<'a, S: Solver, T: Tell> Replier for EquivWith<'a, S, T> {
    ghost task = { λ job. with_task job.budget job.first.now };

    ghost ready = { λ job. IsBudget job.budget × (length job.first.now ≤ most_of_netlist) };

    fn reads(&self) -> Option<usize> {
        Some(MOST_OF_NETLIST)
    }

    #[tactic(auto, using(crate::proofs::Comparing::comparing))]
    fn reply(&self, alloc: Global, bytes: &[u8]) -> Result<Reply, Stop> {
        let first_says_nothing = is_bare(self.first);
        if first_says_nothing {
            return Err(Stop::NoAnswer(empty(b"First")));
        }
        let second_says_nothing = is_bare(bytes);
        if second_says_nothing {
            return Err(Stop::NoAnswer(empty(b"Second")));
        }
        match compare_two::<S, T>(alloc, self.first, bytes, self.budget, self.tell) {
            Ok(two) => match reply_of_two(alloc, two) {
                Ok(reply) => Ok(reply),
                Err(AllocError) => Err(Stop::NoMemory),
            },
            Err(CompareError::Memory) => Err(Stop::NoMemory),
            Err(error) => Err(Stop::NoAnswer(refusal_of(error))),
        }
    }
}
