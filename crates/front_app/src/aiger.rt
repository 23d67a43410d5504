//! `improve` over a netlist in AIGER, by words that ask for `improve` of a BLIF netlist.
ghost use Rattle.std.specs.Prelude.{◌≡◌};
ghost use Rattle.command_line.specs.CommandLine.{spelled};
ghost use Rattle.frame_core.specs.Run.{run_of, before_after};
ghost use Rattle.front_app.specs.Aiger as spec;

use cdcl_core::Cdcl;
use cmd_formats::{ImproveAiger, has_and_gates};
use command_line::{Command, Format, read_words};
use frame_core::{AtOnce, Status, perform};
use front_core::report_usage;
use port_io::{Sink, Source};
use progress::Tell;
use settings::ImproveSettings;
use std::alloc::Global;
use std::marker::PhantomData;

/// The settings of `improve` of BLIF; None if it is another command.
fn settings_in(command: &Command) -> Option<ImproveSettings>
    ensures { result ≡ spec.settings_in command.now }
{
    match command {
        Command::Improve {
            format: Format::Blif,
            settings,
        } => Some(*settings),
        Command::Improve {
            format: Format::Bench,
            settings: _,
        } => None,
        Command::Agree | Command::Recheck | Command::RecheckDepth => None,
        Command::Synth(_) | Command::LeastDepth(_) => None,
        Command::Equiv(_) | Command::Gen { .. } => None,
    }
}

/// What words ask of `improve` over AIGER; None if they ask for another command, or for operators that AIGER can't
/// express.
#[tactic(auto, using(crate::proofs::AigerWords::asking))]
fn asked_aiger(words: &Vec<String>) -> Option<ImproveSettings>
    ensures { spec.IsAigerOf (spelled words.now) result }
{
    let Ok(command) = read_words(words) else {
        return None;
    };
    let Some(settings) = settings_in(&command) else {
        return None;
    };
    if !has_and_gates(settings.basis) {
        return None;
    }
    Some(settings)
}

/// Improves the AIGER file of the source by the settings of the words.
#[tactic(auto, using(crate::proofs::AigerWords::running))]
pub(crate) fn run_aiger<S: Source, O: Sink, N: Sink, T: Tell>(
    alloc: Global,
    words: &Vec<String>,
    source: &mut S,
    out: &mut O,
    note: &mut N,
    tell: &T,
) -> Status
    ensures { spec.KeepsAiger (run_of (spelled words.now)
        (before_after S.left S.faults source.old source.new)
        (before_after O.written O.faults out.old out.new)
        (before_after N.written N.faults note.old note.new)
        result) }
{
    let Some(settings) = asked_aiger(words) else {
        return report_usage(note);
    };
    let job = AtOnce(ImproveAiger {
        settings,
        solver: PhantomData::<Cdcl>,
        tell,
    });
    perform(alloc, &job, source, out, note)
}
