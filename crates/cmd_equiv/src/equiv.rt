//! The command `equiv`: whether two netlists have the same outputs and next states.
ghost use Rattle.std.specs.Prelude.{◌≡◌, ◌∷◌};
ghost use Rattle.command_line.specs.CommandLine.{IsBudget};
ghost use Rattle.frame_core.specs.Reported.{Word, plain};
ghost use Rattle.frame_core.specs.Views.{reply_value, refusal_value};
ghost use Rattle.cmd_lines.specs.NetLines.{net_status as net_status_of, named_net};
ghost use Rattle.cmd_equiv.specs.EquivReport.{standing_status as standing_status_of, equiv_reply, equiv_refusal};
ghost use Rattle.cmd_equiv.specs.EquivReport.{equiv_task};

use cmd_lines::{name_net, net_status};
use equiv_run::{CompareError, Compared, EquivOutcome, compare_texts};
use frame_core::{ErrorLine, Field, Refusal, Replier, Reply, Status, Stop};
use net_core::NetError;
use net_theory::MOST_OF_TWO;
use progress::Tell;
use sat_solve::Solver;
use std::alloc::Global;
use std::marker::PhantomData;

/// The status of the result of a comparison.
fn standing_status(outcome: EquivOutcome) -> Status
    ensures { result ≡ standing_status_of outcome }
{
    match outcome {
        EquivOutcome::Equal => Status::Done,
        EquivOutcome::Differ => Status::Refused,
        EquivOutcome::Undecided => Status::Undecided,
    }
}

/// The reply of a comparison.
pub fn reply_of(compared: Compared) -> Reply
    ensures { reply_value result ≡ equiv_reply (record { text = compared.text.items; outcome = compared.outcome }) }
{
    Reply {
        text: compared.text,
        report: None,
        status: standing_status(compared.outcome),
    }
}

/// The refusal of a fault of one of the two netlists.
#[tactic(auto, unfolding(frame_core::specs::Views::shown))]
fn fault_of(netlist: &'static [u8], error: NetError) -> Refusal
    ensures { refusal_value result ≡ record {
      status = net_status_of error;
      named = Word netlist.now ∷ named_net error;
    } }
{
    let status = net_status(&error);
    Refusal {
        status,
        line: name_net(Field::Known(netlist), error),
    }
}

/// A refusal without fields.
fn plainly(status: Status, name: &'static [u8]) -> Refusal
    ensures { refusal_value result ≡ record { status = status; named = plain name.now } }
{
    Refusal {
        status,
        line: ErrorLine::plain(name),
    }
}

/// The refusal if two netlists can't be compared.
#[tactic(auto, unfolding(crate::specs::EquivReport::named_pair, frame_core::specs::Reported::memory))]
pub fn refusal_of(error: CompareError) -> Refusal
    ensures { refusal_value result ≡ equiv_refusal error }
{
    match error {
        CompareError::NoSecond => plainly(Status::Malformed, b"NoSecond"),
        CompareError::First(error) => fault_of(b"First", error),
        CompareError::Second(error) => fault_of(b"Second", error),
        CompareError::DifferentInterface => plainly(Status::Refused, b"DifferentInterface"),
        CompareError::Memory => plainly(Status::Memory, b"Memory"),
    }
}

/// The command: whether two netlists have the same outputs and next states, decided with the solver `S`.
#[derive(Drop)]
pub struct Equiv<'a, S, T> {
    /// The budget of conflicts, after which the two stay undecided. Each pair or output that is given up costs
    /// its limit, and the last search costs the clauses that it learns.
    pub budget: u32,
    /// The solver.
    pub solver: PhantomData<S>,
    /// Who is told of the progress.
    pub tell: &'a T,
}

impl<'a, S: Solver, T: Tell> Replier for Equiv<'a, S, T> {
    ghost task = { λ job. equiv_task job.budget };

    ghost ready = { λ job. IsBudget job.budget };

    fn reads(&self) -> Option<usize> {
        Some(MOST_OF_TWO)
    }

    #[tactic(auto, using(crate::proofs::Equating::reporting))]
    fn reply(&self, alloc: Global, bytes: &[u8]) -> Result<Reply, Stop> {
        match compare_texts::<S, T>(alloc, bytes, self.budget, self.tell) {
            Ok(compared) => Ok(reply_of(compared)),
            Err(CompareError::Memory) => Err(Stop::NoMemory),
            Err(error) => Err(Stop::NoAnswer(refusal_of(error))),
        }
    }
}
