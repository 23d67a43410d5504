//! Latch lines (`.latch`).

ghost use Rattle.std.specs.Prelude.{◌≡◌, IfOk};
ghost use Rattle.blif_text.specs.Reading.{Gives};
ghost use Rattle.blif_text.specs.Words.{words_of};
ghost use Rattle.blif_text.specs.Latches.{trigger_in as trigger_in_of, init_in as init_in_of};
ghost use Rattle.blif_text.specs.Latches.{with_control, tail_in as tail_in_of, latch_of};
ghost use Rattle.blif_text.specs.Found.{control_found, tail_found};

use crate::words::{is_word, next_word};
use net_document::{Latch, LatchLine, Name, NetError, Trigger, is_name};
use std::alloc::{AllocError, Global};

/// The trigger that a word names.
#[tactic(auto, unfolding(crate::specs::Latches::trigger_in))]
fn trigger_in(word: &[u8]) -> Option<Trigger>
    ensures { result ≡ trigger_in_of word.now }
{
    if is_word(word, b"fe") {
        Some(Trigger::Fe)
    } else if is_word(word, b"re") {
        Some(Trigger::Re)
    } else if is_word(word, b"ah") {
        Some(Trigger::Ah)
    } else if is_word(word, b"al") {
        Some(Trigger::Al)
    } else if is_word(word, b"as") {
        Some(Trigger::As)
    } else {
        None
    }
}

/// The initial value that a word spells, 0 to 3.
#[tactic(auto, unfolding(crate::specs::Latches::init_in))]
fn init_in(word: &[u8]) -> Option<u8>
    ensures { result ≡ init_in_of word.now }
{
    let [byte] = word else {
        return None;
    };
    if *byte >= b'0' && *byte <= b'3' {
        Some(*byte - b'0')
    } else {
        None
    }
}

/// A control: its trigger and its name.
fn control_in<'a>(trigger: &[u8], name: &'a [u8]) -> Option<(Trigger, &'a [u8])>
    ensures { control_found result ≡ with_control (trigger_in_of trigger.now) name.now }
{
    let trigger = trigger_in(trigger)?;
    if is_name(name) {
        Some((trigger, name))
    } else {
        None
    }
}

/// The end of a latch line, after its two names: a control, an initial value, both, or nothing.
#[tactic(auto, unfolding(crate::specs::Latches::tail_in))]
fn tail_in(text: &[u8]) -> Option<(Option<(Trigger, &[u8])>, Option<u8>)>
    ensures { tail_found result ≡ tail_in_of (words_of text.now) }
{
    let Some((first, rest)) = next_word(text) else {
        return Some((None, None));
    };
    let Some((second, rest)) = next_word(rest) else {
        return Some((None, Some(init_in(first)?)));
    };
    let control = control_in(first, second)?;
    let Some((third, rest)) = next_word(rest) else {
        return Some((Some(control), None));
    };
    if next_word(rest).is_some() {
        return None;
    }
    Some((Some(control), Some(init_in(third)?)))
}

/// A control with an owned copy of its name.
fn owned_control(
    alloc: Global,
    control: Option<(Trigger, &[u8])>,
) -> Result<Option<(Trigger, Name)>, AllocError>
    ensures { IfOk result (λ c. c ≡ control_found control.entry) }
{
    match control {
        Some((trigger, name)) => Ok(Some((trigger, Name::of(alloc, name)?))),
        None => Ok(None),
    }
}

/// The latch of a latch line.
#[tactic(auto, unfolding(crate::specs::Latches::latch_of))]
pub fn latch_of(alloc: Global, line: u32, text: &[u8]) -> Result<LatchLine, NetError>
    ensures { Gives (λ l. l) result (latch_of line (words_of text.now)) }
{
    let Some((input, rest)) = next_word(text) else {
        return Err(NetError::Syntax(line));
    };
    let Some((output, rest)) = next_word(rest) else {
        return Err(NetError::Syntax(line));
    };
    let Some((control, init)) = tail_in(rest) else {
        return Err(NetError::Syntax(line));
    };
    if !is_name(input) || !is_name(output) {
        return Err(NetError::Syntax(line));
    }
    Ok(LatchLine {
        input: Name::of(alloc, input)?,
        latch: Latch {
            output: Name::of(alloc, output)?,
            control: owned_control(alloc, control)?,
            init,
        },
    })
}
