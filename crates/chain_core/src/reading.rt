//! Chain blocks, line by line. The invariant of each loop is an equation: the grammar of the lines
//! that are left, given what was read, is the grammar of the whole block. So each refusal is the
//! first error of the grammar.

ghost use Rattle.std.specs.Prelude.{◌≡◌, ℕ, ◌+◌, ◌^◌, ◌<◌, ◌≤◌, [], ◌∷◌, ◌++◌, length, drop, All, OnOk, OnErr, IfOk};
ghost use Rattle.text_core.specs.Lines.{lines_of};
ghost use Rattle.text_core.specs.Rest.{IsRest};
ghost use Rattle.chain_theory.specs.Chain.{AreSteps, IsStepAt, NamesPlace};
ghost use Rattle.chain_core.specs.Steps.{step_of, steps_of, IsSmallChain};
ghost use Rattle.chain_core.specs.Block.{steps_from, outs_from, body_from, chain_of};
ghost use Rattle.chain_core.specs.Reading.{Gives};
ghost use Rattle.chain_theory.specs.Limits.{most_steps, most_inputs, most_outputs};

use crate::chain::Chain;
use crate::error::ChainError;
use crate::frame::Frame;
use crate::lines::{count_at, out_at, step_at};
use crate::step::Step;
use chain_theory::Out;
use std::alloc::{AllocError, Global};
use text_core::next_line;

/// Appends a step, at the next place. An error means that memory ran out; then nothing is appended.
#[tactic(auto, using(crate::specs::BlockLaws::more_steps))]
pub fn add_step(steps: &mut Vec<Step>, step: Step) -> Result<(), AllocError>
    ensures added { OnOk result (steps.new.items ≡ steps.old.items ++ step ∷ []) }
    ensures steps { (n : ℕ) → AreSteps n (steps_of steps.old.items) →
        IsStepAt (n + 1 + length steps.old.items) (step_of step) →
        OnOk result (AreSteps n (steps_of steps.new.items)) }
    ensures unchanged { OnErr result (steps.new.items ≡ steps.old.items) }
{
    steps.push(step)?;
    Ok(())
}

/// The steps of the next lines, as many as the first line names, and the text after them.
#[tactic(auto, using(crate::specs::BlockLaws::steps_loop), unfolding(crate::specs::Block::steps_from))]
fn steps_from<'a>(
    alloc: Global,
    frame: &Frame,
    bytes: &'a [u8],
) -> Result<(Vec<Step>, &'a [u8]), ChainError>
    requires first_line { frame.now.first_line < 2 ^ 31 }
    requires few { frame.now.steps ≤ most_steps }
    requires small { frame.now.n ≤ most_inputs }
    ensures exact { Gives (λ x. (steps_of x.0.items, lines_of x.1.now)) result
        (steps_from frame.now [] (lines_of bytes.now)) }
    ensures steps { IfOk result (λ x. AreSteps frame.now.n (steps_of x.0.items)) }
    ensures count { IfOk result (λ x. length x.0.items ≡ frame.now.steps) }
    ensures rest { IfOk result (λ x. IsRest bytes.now x.1.now) }
{
    let mut steps = Vec::new(alloc);
    let mut left = bytes;
    while steps.len() < frame.steps as usize {
        let Some((text, ended, rest)) = next_line(left) else {
            return Err(ChainError::BadStep(frame.first_line + 1 + steps.len() as u32));
        };
        let step = step_at(frame, steps.len() as u32, text, ended)?;
        add_step(&mut steps, step)?;
        left = rest;
    }
    Ok((steps, left))
}

/// The outs of the next lines, one for each output, and the text after them.
#[tactic(auto, using(crate::specs::BlockLaws::outs_loop), unfolding(crate::specs::Block::outs_from))]
fn outs_from<'a>(
    alloc: Global,
    frame: &Frame,
    bytes: &'a [u8],
) -> Result<(Vec<Out>, &'a [u8]), ChainError>
    requires first_line { frame.now.first_line < 2 ^ 31 }
    requires few { frame.now.steps ≤ most_steps }
    requires small { frame.now.n ≤ most_inputs }
    requires outputs { frame.now.outputs ≤ most_outputs }
    ensures exact { Gives (λ x. (x.0.items, lines_of x.1.now)) result (outs_from frame.now [] (lines_of bytes.now)) }
    ensures named { IfOk result (λ x. All (NamesPlace (frame.now.n + frame.now.steps)) x.0.items) }
    ensures count { IfOk result (λ x. length x.0.items ≡ frame.now.outputs) }
    ensures rest { IfOk result (λ x. IsRest bytes.now x.1.now) }
{
    let mut outs = Vec::new(alloc);
    let mut left = bytes;
    while outs.len() < frame.outputs as usize {
        let Some((text, ended, rest)) = next_line(left) else {
            return Err(ChainError::BadOut(frame.first_line + 1 + frame.steps + outs.len() as u32));
        };
        let out = out_at(frame, outs.len() as u32, text, ended)?;
        outs.push(out)?;
        left = rest;
    }
    Ok((outs, left))
}

/// The chain of the lines after the first, and the text after them.
#[tactic(auto, using(crate::specs::BlockLaws::resting), unfolding(crate::specs::Block::body_from))]
fn body_from<'a>(
    alloc: Global,
    frame: &Frame,
    bytes: &'a [u8],
) -> Result<(Chain, &'a [u8]), ChainError>
    requires first_line { frame.now.first_line < 2 ^ 31 }
    requires few { frame.now.steps ≤ most_steps }
    requires small { frame.now.n ≤ most_inputs }
    requires outputs { frame.now.outputs ≤ most_outputs }
    ensures exact { Gives (λ x. record { chain = x.0; rest = lines_of x.1.now }) result
        (body_from frame.now (lines_of bytes.now)) }
    ensures rest { IfOk result (λ x. IsRest bytes.now x.1.now) }
    ensures chain { IfOk result (λ x. IsSmallChain x.0) }
    ensures n { IfOk result (λ x. x.0.n ≡ frame.now.n) }
    ensures outputs { IfOk result (λ x. length x.0.outs ≡ frame.now.outputs) }
{
    let (steps, rest) = steps_from(alloc, frame, bytes)?;
    let (outs, rest) = outs_from(alloc, frame, rest)?;
    Ok((Chain::new(frame.n, steps, outs), rest))
}

/// Reads a chain block from the start of a text: the chain of `n` inputs and `outputs` outputs, and
/// how many bytes its lines have. The text after them isn't checked. `first_line` is the number of
/// the block's first line in the whole text.
///
/// Lines are checked in order, and the first error is reported with its line.
#[tactic(auto, using(crate::specs::BlockLaws::resting), unfolding(crate::specs::Block::chain_of))]
pub fn read_chain(
    alloc: Global,
    bytes: &[u8],
    first_line: u32,
    n: u32,
    outputs: u32,
) -> Result<(Chain, usize), ChainError>
    requires length { length bytes.now < 2 ^ 31 }
    requires first_line { first_line < 2 ^ 31 }
    requires inputs { n ≤ most_inputs }
    requires outputs { outputs ≤ most_outputs }
    ensures exact { Gives (λ x. record { chain = x.0; rest = lines_of (drop x.1 bytes.now) }) result
        (chain_of first_line n outputs (lines_of bytes.now)) }
    ensures used { IfOk result (λ x. x.1 ≤ length bytes.now) }
    ensures chain { IfOk result (λ x. IsSmallChain x.0) }
    ensures inputs { IfOk result (λ x. x.0.n ≡ n) }
    ensures outputs { IfOk result (λ x. length x.0.outs ≡ outputs) }
{
    let Some((text, ended, rest)) = next_line(bytes) else {
        return Err(ChainError::BadCount(first_line));
    };
    let frame = Frame {
        first_line,
        n,
        outputs,
        steps: count_at(first_line, text, ended)?,
    };
    let (chain, rest) = body_from(alloc, &frame, rest)?;
    Ok((chain, bytes.len() - rest.len()))
}
