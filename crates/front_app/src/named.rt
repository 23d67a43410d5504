//! The program over a file that is named: there `improve` refuses a text without a directive, and `synth` takes the
//! method `auto` where the words name none.
ghost use Rattle.std.specs.Prelude.{◌≡◌};
ghost use Rattle.command_line.specs.CommandLine.{spelled};
ghost use Rattle.frame_core.specs.Run.{run_of, before_after};
ghost use Rattle.front_app.specs.Named as spec;

use cdcl_core::Cdcl;
use cmd_improve::ImproveNamed;
use cmd_synth::Synth;
use command_line::{Command, Format, read_words};
use file_words::is_same;
use frame_core::{AtOnce, Status, perform};
use port_io::{Sink, Source};
use progress::Tell;
use settings::{ImproveSettings, MethodChoice, SynthSettings};
use std::alloc::Global;
use std::marker::PhantomData;

/// What is asked for where a named file makes a difference.
#[derive(Clone, Copy)]
pub(crate) enum Asked {
    /// `improve`, which refuses a text without a directive.
    Improve {
        format: Format,
        settings: ImproveSettings,
    },
    /// `synth`, which has another default.
    Synth {
        settings: SynthSettings,
    },
}

/// What a command asks for where a named file makes a difference; None if it is another command.
fn asked_in(command: &Command) -> Option<Asked>
    ensures { result ≡ spec.asked_in command.now }
{
    match command {
        Command::Improve { format, settings } => {
            Some(Asked::Improve {
                format: *format,
                settings: *settings,
            })
        }
        Command::Synth(settings) => {
            Some(Asked::Synth {
                settings: *settings,
            })
        }
        Command::Agree | Command::Recheck | Command::RecheckDepth => None,
        Command::LeastDepth(_) | Command::Equiv(_) | Command::Gen { .. } => None,
    }
}

/// What words ask for where a named file makes a difference; None if they ask for another command or for none.
#[tactic(auto, using(crate::proofs::Naming::asking))]
fn asked_by(words: &Vec<String>) -> Option<Asked>
    ensures { spec.IsAskedBy (spelled words.now) result }
{
    let Ok(command) = read_words(words) else {
        return None;
    };
    asked_in(&command)
}

/// Whether words name a method.
#[tactic(auto, unfolding(crate::specs::Named::names_method))]
fn names_method(words: &Vec<String>) -> bool
    ensures { result ≡ spec.names_method (spelled words.now) }
{
    let mut left = words.as_slice();
    while let Some((word, rest)) = left.split_first() {
        if is_same(word.as_str(), "--method") {
            return true;
        }
        left = rest;
    }
    false
}

/// The settings by the method that words name, and otherwise by `auto`.
fn with_method(words: &Vec<String>, settings: SynthSettings) -> SynthSettings
    ensures { result ≡ spec.with_method (spelled words.now) settings }
{
    if names_method(words) {
        return settings;
    }
    SynthSettings {
        basis: settings.basis,
        method: MethodChoice::Auto,
        max: settings.max,
        conflicts: settings.conflicts,
        effort: settings.effort,
    }
}

/// Runs the command that the words ask for over the source of a file that is named.
#[tactic(auto, using(crate::proofs::Naming::running))]
pub(crate) fn run_named<S: Source, O: Sink, N: Sink, T: Tell>(
    alloc: Global,
    words: &Vec<String>,
    source: &mut S,
    out: &mut O,
    note: &mut N,
    tell: &T,
) -> Status
    ensures { spec.KeepsNamed (run_of (spelled words.now)
        (before_after S.left S.faults source.old source.new)
        (before_after O.written O.faults out.old out.new)
        (before_after N.written N.faults note.old note.new)
        result) }
{
    let Some(asked) = asked_by(words) else {
        return chain_app::run_telling(alloc, words, source, out, note, tell);
    };
    let solver = PhantomData::<Cdcl>;
    match asked {
        Asked::Improve { format, settings } => {
            let job = AtOnce(ImproveNamed {
                format,
                settings,
                solver,
                tell,
            });
            perform(alloc, &job, source, out, note)
        }
        Asked::Synth { settings } => {
            let job = Synth {
                settings: with_method(words, settings),
                solver,
                tell,
            };
            perform(alloc, &job, source, out, note)
        }
    }
}
