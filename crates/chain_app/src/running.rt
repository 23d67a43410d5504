//! The top-level function.
ghost use Rattle.std.specs.Prelude.{ℕ, List};
ghost use Rattle.command_line.specs.CommandLine.{spelled, IsAskable};
ghost use Rattle.frame_core.specs.Run.{Outcome, IsRun, run_of, before_after};
ghost use Rattle.chain_app.specs.Tasks.{task_of};
ghost use Rattle.chain_app.specs.KeepsPromises.{KeepsPromises};

use cdcl_core::Cdcl;
use cmd_agree::Agree;
use cmd_equiv::Equiv;
use cmd_gen::Gen;
use cmd_improve::Improve;
use cmd_recheck::{Levels, Recheck, Steps};
use cmd_synth::{LeastDepth, Synth};
use command_line::{Command, read_words};
use frame_core::{AtOnce, ErrorLine, Status, perform, perform_stream, report_error};
use port_io::{Sink, Source};
use progress::{Silent, Tell};
use std::alloc::Global;
use std::marker::PhantomData;

/// Dispatches a command to its crate.
fn dispatch<S: Source, O: Sink, N: Sink, T: Tell>(
    alloc: Global,
    command: Command,
    source: &mut S,
    out: &mut O,
    note: &mut N,
    tell: &T,
) -> Status
    requires { IsAskable command }
    ensures { (words : List (List ℕ)) → (outcome : Outcome) × IsRun (task_of command)
        (run_of words
        (before_after S.left S.faults source.old source.new)
        (before_after O.written O.faults out.old out.new)
        (before_after N.written N.faults note.old note.new)
        result) outcome }
{
    let solver = PhantomData::<Cdcl>;
    match command {
        Command::Agree => perform(alloc, &AtOnce(Agree), source, out, note),
        Command::Recheck => perform_stream(alloc, &Recheck(Steps), source, out, note),
        Command::RecheckDepth => perform_stream(alloc, &Recheck(Levels), source, out, note),
        Command::Synth(settings) => {
            let job = Synth {
                settings,
                solver,
                tell,
            };
            perform(alloc, &job, source, out, note)
        }
        Command::LeastDepth(settings) => {
            let job = AtOnce(LeastDepth {
                settings,
                solver,
                tell,
            });
            perform(alloc, &job, source, out, note)
        }
        Command::Improve { format, settings } => {
            let job = AtOnce(Improve {
                format,
                settings,
                solver,
                tell,
            });
            perform(alloc, &job, source, out, note)
        }
        Command::Equiv(budget) => {
            let job = AtOnce(Equiv {
                budget,
                solver,
                tell,
            });
            perform(alloc, &job, source, out, note)
        }
        Command::Gen { blocks, action } => {
            let job = AtOnce(Gen {
                blocks,
                action,
                solver,
            });
            perform(alloc, &job, source, out, note)
        }
    }
}

/// Runs the command that the arguments ask for: reads `source`, writes the answer to `out`, and to `note` a
/// report if the command makes one, and one error line if there is no answer. `tell` hears of the progress of `synth`,
/// `improve` and `equiv`.
pub fn run_telling<S: Source, O: Sink, N: Sink, T: Tell>(
    alloc: Global,
    words: &Vec<String>,
    source: &mut S,
    out: &mut O,
    note: &mut N,
    tell: &T,
) -> Status
    ensures { KeepsPromises
        (run_of (spelled words.now)
        (before_after S.left S.faults source.old source.new)
        (before_after O.written O.faults out.old out.new)
        (before_after N.written N.faults note.old note.new)
        result) }
{
    let Ok(command) = read_words(words) else {
        report_error(note, &ErrorLine::plain(b"Usage"));
        return Status::Usage;
    };
    dispatch(alloc, command, source, out, note, tell)
}

/// The same, and nobody is told of the progress.
pub fn run<S: Source, O: Sink, N: Sink>(
    alloc: Global,
    words: &Vec<String>,
    source: &mut S,
    out: &mut O,
    note: &mut N,
) -> Status
    ensures { KeepsPromises
        (run_of (spelled words.now)
        (before_after S.left S.faults source.old source.new)
        (before_after O.written O.faults out.old out.new)
        (before_after N.written N.faults note.old note.new)
        result) }
{
    run_telling(alloc, words, source, out, note, &Silent)
}
