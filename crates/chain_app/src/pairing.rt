//! Two texts compared, of which the second one is the source: the words are those of `equiv`.
ghost use Rattle.std.specs.Prelude.{◌≡◌};
ghost use Rattle.command_line.specs.CommandLine.{spelled};
ghost use Rattle.frame_core.specs.Run.{run_of, before_after};
ghost use Rattle.frame_core.specs.Views.{line_value};
ghost use Rattle.chain_app.specs.Pair as spec;

use cdcl_core::Cdcl;
use cmd_equiv::EquivWith;
use command_line::{Command, read_words};
use frame_core::{AtOnce, ErrorLine, Field, Status, perform, report_error};
use net_theory::MOST_OF_NETLIST;
use port_io::{Sink, Source};
use progress::Silent;
use std::alloc::Global;
use std::marker::PhantomData;

/// The budget of a comparison.
fn budget_in(command: &Command) -> Option<u32>
    ensures { result ≡ spec.budget_in command.now }
{
    match command {
        Command::Equiv(budget) => Some(*budget),
        Command::Agree | Command::Recheck | Command::RecheckDepth => None,
        Command::Synth(_) | Command::LeastDepth(_) => None,
        Command::Improve { .. } | Command::Gen { .. } => None,
    }
}

/// The budget of the comparison that words ask for; None if they ask for none.
#[tactic(auto, using(crate::proofs::Pairs::budgets))]
fn comparison_budget(words: &Vec<String>) -> Option<u32>
    ensures { spec.IsBudgetOf (spelled words.now) result }
{
    let Ok(command) = read_words(words) else {
        return None;
    };
    budget_in(&command)
}

/// The line of a first text that is too long.
#[tactic(auto, unfolding(frame_core::specs::Views::shown, crate::specs::Pair::first_too_long))]
fn first_too_long() -> ErrorLine
    ensures { line_value result ≡ spec.first_too_long.named }
{
    ErrorLine::led(
        Field::Known(b"First"),
        b"TooLong",
        Field::Nothing,
        Field::Nothing,
    )
}

/// Compares the first text with that of `source`, if the words are those of `equiv`, and writes the answer to `out`,
/// and to `note` a line where there is nothing to compare, or one error line if there is no answer.
pub fn run_pair<S: Source, O: Sink, N: Sink>(
    alloc: Global,
    words: &Vec<String>,
    first: &[u8],
    source: &mut S,
    out: &mut O,
    note: &mut N,
) -> Status
    ensures { spec.KeepsPair first.now
        (run_of (spelled words.now)
        (before_after S.left S.faults source.old source.new)
        (before_after O.written O.faults out.old out.new)
        (before_after N.written N.faults note.old note.new)
        result) }
{
    let Some(budget) = comparison_budget(words) else {
        report_error(note, &ErrorLine::plain(b"Usage"));
        return Status::Usage;
    };
    if first.len() > MOST_OF_NETLIST {
        report_error(note, &first_too_long());
        return Status::Limit;
    }
    let job = AtOnce(EquivWith {
        first,
        budget,
        solver: PhantomData::<Cdcl>,
        tell: &Silent,
    });
    perform(alloc, &job, source, out, note)
}
