//! The command that words ask for.
ghost use Rattle.std.specs.Prelude.{◌≡◌, map, IfOk};
ghost use Rattle.std.specs.String.{string_bytes};
ghost use Rattle.command_line.specs.CommandLine as spec;

use crate::command::{Command, Format, WordsError};
use crate::pairs::are_options;
use crate::table::{
    OptionKind, given_basis, given_basis_for, given_blocks, given_cap, given_choice,
    given_conflicts, given_deed, given_depth, given_effort, given_format, given_least_depth,
    given_max, given_method, given_observe, given_rounds, given_seed, given_synth_effort,
    kind_named,
};
use settings::{ImproveSettings, Method, MethodChoice, SynthSettings};

/// The settings of `synth`.
fn asked_in(words: &[String]) -> Option<SynthSettings>
    ensures { result ≡ spec.asked_in (map string_bytes words.now) }
{
    let basis = given_basis(words)?;
    let method = given_choice(words)?;
    let max = given_max(words)?;
    let conflicts = given_conflicts(words)?;
    let effort = given_synth_effort(words)?;
    Some(SynthSettings {
        basis,
        method,
        max,
        conflicts,
        effort,
    })
}

/// The search for the fewest levels, whose method is always `fence`.
fn least_depth_by(method: Method, asked: SynthSettings) -> Option<Command>
    ensures { result ≡ spec.least_depth_by method asked }
{
    match method {
        Method::Fence => Some(Command::LeastDepth(asked)),
        Method::Plain | Method::Ssv | Method::Select | Method::Strong | Method::StrongFence => None,
    }
}

/// The same for a choice of the method.
fn least_depth_for(asked: SynthSettings) -> Option<Command>
    ensures { result ≡ spec.least_depth_for asked.method asked }
{
    match asked.method {
        MethodChoice::Named(method) => least_depth_by(method, asked),
        MethodChoice::Auto => None,
    }
}

/// `synth` with the values of its options.
fn synth_in(words: &[String]) -> Option<Command>
    ensures { result ≡ spec.synth_in (map string_bytes words.now) }
{
    match (asked_in(words), given_least_depth(words)) {
        (Some(asked), Some(false)) => Some(Command::Synth(asked)),
        (Some(asked), Some(true)) => least_depth_for(asked),
        _ => None,
    }
}

/// `recheck` with the value of its option.
fn recheck_in(words: &[String]) -> Option<Command>
    ensures { result ≡ spec.recheck_in (map string_bytes words.now) }
{
    match given_depth(words) {
        Some(false) => Some(Command::Recheck),
        Some(true) => Some(Command::RecheckDepth),
        None => None,
    }
}

/// The settings of `improve` for a format.
fn settings_for(format: Format, words: &[String]) -> Option<ImproveSettings>
    ensures { result ≡ spec.settings_for format (map string_bytes words.now) }
{
    let basis = given_basis_for(format, words)?;
    let method = given_method(words)?;
    let cap = given_cap(words)?;
    let rounds = given_rounds(words)?;
    let conflicts = given_conflicts(words)?;
    let observe = given_observe(words)?;
    let effort = given_effort(words)?;
    let seed = given_seed(words)?;
    Some(ImproveSettings {
        basis,
        method,
        cap,
        rounds,
        conflicts,
        observe,
        effort,
        seed,
    })
}

/// `improve` with the values of its options.
fn improve_in(words: &[String]) -> Option<Command>
    ensures { result ≡ spec.improve_in (map string_bytes words.now) }
{
    let format = given_format(words)?;
    let settings = settings_for(format, words)?;
    Some(Command::Improve { format, settings })
}

/// `equiv` with the value of its option.
fn equiv_in(words: &[String]) -> Option<Command>
    ensures { result ≡ spec.equiv_in (map string_bytes words.now) }
{
    match given_conflicts(words) {
        Some(conflicts) => Some(Command::Equiv(conflicts)),
        None => None,
    }
}

/// `gen` with the values of its options.
fn gen_in(words: &[String]) -> Option<Command>
    ensures { result ≡ spec.gen_in (map string_bytes words.now) }
{
    match (given_blocks(words), given_deed(words)) {
        (Some(blocks), Some(action)) => Some(Command::Gen { blocks, action }),
        _ => None,
    }
}

/// A command with the values of its options.
fn command_with(kind: OptionKind, words: &[String]) -> Option<Command>
    ensures { result ≡ spec.command_with kind (map string_bytes words.now) }
{
    match kind {
        OptionKind::Agree => Some(Command::Agree),
        OptionKind::Recheck => recheck_in(words),
        OptionKind::Synth => synth_in(words),
        OptionKind::Improve => improve_in(words),
        OptionKind::Equiv => equiv_in(words),
        OptionKind::Gen => gen_in(words),
    }
}

/// The command that words ask for; None if they ask for none.
#[tactic(auto, unfolding(crate::specs::CommandLine::command_of))]
fn command_of(words: &[String]) -> Option<Command>
    ensures { result ≡ spec.command_of (map string_bytes words.now) }
{
    let Some((name, options)) = words.split_first() else {
        return None;
    };
    let Some(kind) = kind_named(name.as_bytes()) else {
        return None;
    };
    if !are_options(kind, options) {
        return None;
    }
    command_with(kind, options)
}

/// The command that the words after the program's name ask for: `agree`, `recheck`, `synth`, `improve`, `equiv` or
/// `gen`, each with its options. Any other list of words, also the empty one, is the error `Usage`.
#[tactic(auto, using(crate::proofs::Ranges::reading))]
pub fn read_words(words: &Vec<String>) -> Result<Command, WordsError>
    ensures exact { result ≡ spec.read (spec.spelled words.now) }
    ensures range { IfOk result spec.IsAskable }
{
    match command_of(words.as_slice()) {
        Some(command) => Ok(command),
        None => Err(WordsError::Usage),
    }
}
