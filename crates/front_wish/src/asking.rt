//! What words ask for that wish something.
ghost use Rattle.std.specs.Prelude.{◌≡◌, IfOk, IfSome, true};
ghost use Rattle.std.specs.Option.{option_map};
ghost use Rattle.command_line.specs.CommandLine.{spelled, command_of};
ghost use Rattle.file_words.specs.Lines.{line_value};
ghost use Rattle.wish_words.specs.WishWords.{wished_in};
ghost use Rattle.front_wish.specs.AskedWishes as spec;

use cmd_formats::has_and_gates;
use command_line::{Command, Format, read_words};
use file_words::{FileLine, read_line};
use format_names::NetFormat;
use front_core::fits;
use settings::ImproveSettings;
use std::alloc::{AllocError, Global};
use wish_names::Wishes;
use wish_words::{WishedWords, read_wishes};

/// A netlist of a format, and the settings for it.
#[derive(Clone, Copy)]
pub struct NetAsked {
    pub format: NetFormat,
    pub settings: ImproveSettings,
}

/// A line whose words wish something.
#[derive(Drop)]
pub struct WishLine {
    /// The line without the words of the wishes.
    pub line: FileLine,
    /// The format of the netlist.
    pub format: NetFormat,
    /// The settings of the passes over the netlist.
    pub settings: ImproveSettings,
    /// The wishes.
    pub wishes: Wishes,
}

/// `improve` of AIGER; None if AIGER can't express an operator.
fn aiger_asked(settings: ImproveSettings) -> Option<NetAsked>
    ensures { result ≡ spec.format_asked Format.Blif true settings }
{
    if !has_and_gates(settings.basis) {
        return None;
    }
    Some(NetAsked {
        format: NetFormat::Aiger,
        settings,
    })
}

/// `improve` of a netlist whose words name this format, or name none where it is in AIGER.
fn format_asked(format: Format, aiger: bool, settings: ImproveSettings) -> Option<NetAsked>
    ensures { result ≡ spec.format_asked format aiger settings }
{
    match format {
        Format::Blif => {
            if aiger {
                return aiger_asked(settings);
            }
            Some(NetAsked {
                format: NetFormat::Blif,
                settings,
            })
        }
        Format::Bench => {
            if aiger {
                return None;
            }
            Some(NetAsked {
                format: NetFormat::Bench,
                settings,
            })
        }
    }
}

/// The netlist that a command asks to improve; None if it is another command, or AIGER can't express an operator.
fn asked_in(command: &Command, aiger: bool) -> Option<NetAsked>
    ensures { result ≡ spec.asked_in command.now aiger }
{
    match command {
        Command::Improve { format, settings } => format_asked(*format, aiger, *settings),
        Command::Agree | Command::Recheck | Command::RecheckDepth => None,
        Command::Synth(_) | Command::LeastDepth(_) => None,
        Command::Equiv(_) | Command::Gen { .. } => None,
    }
}

/// What a line without wishes asks for, with these wishes.
#[tactic(auto, using(crate::proofs::Questions::asking))]
fn with_command(line: FileLine, wishes: Wishes, aiger: bool) -> Option<WishLine>
    ensures value { option_map spec.wish_value result ≡
        spec.wish_by (line_value line) wishes aiger (command_of (line_value line).words) }
    ensures ready { IfSome result (λ w. spec.IsReady w.format w.settings) }
{
    let Ok(command) = read_words(&line.words) else {
        return None;
    };
    if !fits(&command, &line) {
        return None;
    }
    let Some(asked) = asked_in(&command, aiger) else {
        return None;
    };
    Some(WishLine {
        line,
        format: asked.format,
        settings: asked.settings,
        wishes,
    })
}

/// A line with other words of its own.
fn with_words(line: FileLine, words: Vec<String>) -> FileLine
    ensures { line_value result ≡ spec.with_words (line_value line) (spelled words) }
{
    let FileLine {
        words: _,
        operands,
        output,
        certificate,
        next,
    } = line;
    FileLine {
        words,
        operands,
        output,
        certificate,
        next,
    }
}

/// What a line wishes.
#[tactic(auto, using(crate::proofs::Questions::lines))]
fn wish_in(alloc: Global, line: FileLine) -> Result<Option<WishLine>, AllocError>
    ensures value { IfOk result (λ found. option_map spec.wish_value found ≡
        spec.wish_as (line_value line) (wished_in (line_value line))) }
    ensures ready { IfOk result (λ found. IfSome found (λ w. spec.IsReady w.format w.settings)) }
{
    let Some(wished) = read_wishes(alloc, &line)? else {
        return Ok(None);
    };
    let WishedWords {
        wishes,
        aiger,
        words,
    } = wished;
    let plain = with_words(line, words);
    let found = with_command(plain, wishes, aiger);
    Ok(found)
}

/// What words wish; None if they wish nothing, or aren't words of `improve` with the values of their options.
#[tactic(auto, unfolding(crate::specs::AskedWishes::wish_of), using(crate::proofs::Questions::words_of))]
pub fn wish_line(alloc: Global, words: &Vec<String>) -> Result<Option<WishLine>, AllocError>
    ensures value { IfOk result (λ found. option_map spec.wish_value found ≡ spec.wish_of (spelled words.now)) }
    ensures ready { IfOk result (λ found. IfSome found (λ w. spec.IsReady w.format w.settings)) }
{
    let Some(line) = read_line(alloc, words)? else {
        return Ok(None);
    };
    let found = wish_in(alloc, line)?;
    Ok(found)
}
