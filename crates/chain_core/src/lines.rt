//! The lines of a chain block, one by one. A line is checked in three layers, each equal to the
//! definition of its name: the text of an item, the step or out that the items spell, and whether
//! this step or out may come here.

ghost use Rattle.std.specs.Prelude.{◌≡◌, ◌+◌, ◌-◌, ◌<◌, ◌≤◌, ◌^◌, IfSome, IfOk};
ghost use Rattle.std.specs.Option.{option_map};
ghost use Rattle.text_core.specs.Items.{items_of};
ghost use Rattle.chain_theory.specs.Chain.{IsStepAt, NamesPlace};
ghost use Rattle.chain_core.specs.Steps.{step_of};
ghost use Rattle.chain_core.specs.Block as block;
ghost use Rattle.chain_core.specs.Reading.{Gives};
ghost use Rattle.chain_theory.specs.Limits.{most_steps};

use crate::error::ChainError;
use crate::frame::Frame;
use crate::step::Step;
use chain_theory::{MOST_STEPS, Out};
use op_basis::read_operator;
use text_core::{MOST_NUMBER, after, next_item, number_up_to};

/// The place that an item names, as in `x12`; None where it names none.
#[tactic(auto, unfolding(crate::specs::Block::place_in))]
fn place_in(item: &[u8]) -> Option<u32>
    ensures { result ≡ block.place_in item.now }
{
    number_up_to(MOST_NUMBER, after(b"x", item)?)
}

/// The place at the beginning of a step's line, and the step; None where the line isn't of the form of a step.
#[tactic(auto, unfolding(crate::specs::Block::step_in))]
fn step_in(text: &[u8]) -> Option<(u32, Step)>
    ensures line { option_map (λ x. (x.0, step_of x.1)) result ≡ block.step_in (items_of text.now) }
    ensures below { IfSome result (λ x. x.1.op < 16) }
{
    let (place, Some(text)) = next_item(text) else {
        return None;
    };
    let (j, Some(text)) = next_item(text) else {
        return None;
    };
    let (k, Some(text)) = next_item(text) else {
        return None;
    };
    let (op, None) = next_item(text) else {
        return None;
    };
    let place = place_in(place)?;
    let step = Step {
        j: place_in(j)?,
        k: place_in(k)?,
        op: read_operator(op)?,
    };
    Some((place, step))
}

/// The out of an output's line; None where the line isn't of the form of an output.
#[tactic(auto, unfolding(crate::specs::Block::out_in, crate::specs::Block::named_in))]
fn out_in(text: &[u8]) -> Option<Out>
    ensures { result ≡ block.out_in text.now }
{
    match after(b"out ", text)? {
        [b'0'] => Some(Out::Zero),
        [b'1'] => Some(Out::One),
        item => Some(Out::Place(place_in(item)?)),
    }
}

/// The number of steps in the first line of a block, `text` without its LF. `ended` tells whether it
/// has one, and `first_line` is its number in errors.
#[tactic(auto, unfolding(crate::specs::Block::count_at))]
pub fn count_at(first_line: u32, text: &[u8], ended: bool) -> Result<u32, ChainError>
    ensures exact { Gives (λ r. r) result (block.count_at first_line (record { text = text.now; ended = ended })) }
    ensures few { IfOk result (λ r. r ≤ most_steps) }
{
    if !ended {
        return Err(ChainError::BadCount(first_line));
    }
    let Some(digits) = after(b"chain ", text) else {
        return Err(ChainError::BadCount(first_line));
    };
    match number_up_to(MOST_NUMBER, digits) {
        Some(steps) if steps <= MOST_STEPS => Ok(steps),
        Some(_) => Err(ChainError::TooManySteps(first_line)),
        None => Err(ChainError::BadCount(first_line)),
    }
}

/// The step of a line, `text` without its LF, after `done` other steps. `ended` tells whether the line
/// has an LF.
#[tactic(auto, unfolding(crate::specs::Block::step_at))]
pub fn step_at(frame: &Frame, done: u32, text: &[u8], ended: bool) -> Result<Step, ChainError>
    requires place { frame.now.n + 1 + done < 2 ^ 32 }
    requires line { frame.now.first_line + 1 + done < 2 ^ 32 }
    ensures exact { Gives step_of result (block.step_at frame.now done (record { text = text.now; ended = ended })) }
    ensures stands { IfOk result (λ s. IsStepAt (frame.now.n + 1 + done) (step_of s)) }
{
    let line = frame.first_line + 1 + done;
    if !ended {
        return Err(ChainError::BadStep(line));
    }
    let Some((place, step)) = step_in(text) else {
        return Err(ChainError::BadStep(line));
    };
    let next = frame.n + 1 + done;
    if place != next || step.j == 0 || step.k == 0 {
        return Err(ChainError::BadStep(line));
    }
    if step.j >= next || step.k >= next {
        return Err(ChainError::ForwardPlace(line));
    }
    Ok(step)
}

/// The out of a line, `text` without its LF, after `done` other outs. `ended` tells whether the line
/// has an LF.
#[tactic(auto, unfolding(crate::specs::Block::out_at))]
pub fn out_at(frame: &Frame, done: u32, text: &[u8], ended: bool) -> Result<Out, ChainError>
    requires place { frame.now.n + frame.now.steps < 2 ^ 32 }
    requires line { frame.now.first_line + 1 + frame.now.steps + done < 2 ^ 32 }
    ensures exact { Gives (λ o. o) result (block.out_at frame.now done (record { text = text.now; ended = ended })) }
    ensures named { IfOk result (NamesPlace (frame.now.n + frame.now.steps)) }
{
    let line = frame.first_line + 1 + frame.steps + done;
    if !ended {
        return Err(ChainError::BadOut(line));
    }
    let Some(out) = out_in(text) else {
        return Err(ChainError::BadOut(line));
    };
    if let Out::Place(place) = out {
        if place == 0 || place > frame.n + frame.steps {
            return Err(ChainError::BadOut(line));
        }
    }
    Ok(out)
}
