//! Chain blocks are written into a buffer of their own, which is appended at the end, so that the
//! text is unchanged if memory runs out.

ghost use Rattle.std.specs.Prelude.{◌≡◌, ◌+◌, ◌^◌, ◌<◌, ◌++◌, length, map, OnOk, OnErr};
ghost use Rattle.std.specs.List.{flat_map};
ghost use Rattle.text_core.specs.Lines.{line_bytes};
ghost use Rattle.chain_core.specs.Steps.{step_of, steps_of};
ghost use Rattle.chain_core.specs.Spelling as spelling;

use crate::chain::Chain;
use crate::step::Step;
use chain_theory::Out;
use op_basis::write_operator;
use std::alloc::AllocError;
use text_core::push_number;

/// Appends the name of a place, as in `x12`.
fn push_place(text: &mut Vec<u8>, place: u32) -> Result<(), AllocError>
    ensures { OnOk result (text.new.items ≡ text.old.items ++ spelling.place_text place) }
{
    text.extend_from_slice(b"x")?;
    push_number(text, place)
}

/// Appends the line of the step at a place.
#[tactic(auto, unfolding(crate::specs::Spelling::step_text))]
fn push_step(text: &mut Vec<u8>, place: u32, step: Step) -> Result<(), AllocError>
    ensures { OnOk result (text.new.items ≡ text.old.items ++
        line_bytes (spelling.line (spelling.step_text place (step_of step)))) }
{
    push_place(text, place)?;
    text.extend_from_slice(b" ")?;
    push_place(text, step.j)?;
    text.extend_from_slice(b" ")?;
    push_place(text, step.k)?;
    text.extend_from_slice(b" ")?;
    write_operator(step.op, text)?;
    text.extend_from_slice(b"\n")
}

/// Appends the lines of steps, the first of them at the place `first`.
#[tactic(auto, unfolding(crate::specs::Spelling::step_lines))]
fn push_steps(text: &mut Vec<u8>, first: u32, steps: &[Step]) -> Result<(), AllocError>
    requires { first + length steps.now < 2 ^ 32 }
    ensures { OnOk result (text.new.items ≡ text.old.items ++
        flat_map line_bytes (spelling.step_lines first (steps_of steps.now))) }
{
    let mut place = first;
    let mut left = steps;
    while let Some((step, rest)) = left.split_first() {
        push_step(text, place, *step)?;
        place += 1;
        left = rest;
    }
    Ok(())
}

/// Appends the line of an output.
#[tactic(auto, unfolding(crate::specs::Spelling::out_text))]
fn push_out(text: &mut Vec<u8>, out: Out) -> Result<(), AllocError>
    ensures { OnOk result (text.new.items ≡ text.old.items ++ line_bytes (spelling.out_line out)) }
{
    text.extend_from_slice(b"out ")?;
    match out {
        Out::Zero => text.extend_from_slice(b"0")?,
        Out::One => text.extend_from_slice(b"1")?,
        Out::Place(place) => push_place(text, place)?,
    }
    text.extend_from_slice(b"\n")
}

/// Appends the lines of outputs.
fn push_outs(text: &mut Vec<u8>, outs: &[Out]) -> Result<(), AllocError>
    ensures { OnOk result (text.new.items ≡ text.old.items ++ flat_map line_bytes (map spelling.out_line outs.now)) }
{
    let mut left = outs;
    while let Some((out, rest)) = left.split_first() {
        push_out(text, *out)?;
        left = rest;
    }
    Ok(())
}

/// Appends a chain's block, its one spelling; `read_chain` reads the chain back from it, whatever text
/// follows. An error means that memory ran out; then nothing is appended.
#[tactic(auto, unfolding(crate::specs::Spelling::count_text))]
pub fn write_chain(chain: &Chain, out: &mut Vec<u8>) -> Result<(), AllocError>
    ensures ok { OnOk result (out.new.items ≡ out.old.items ++ spelling.chain_text chain.now) }
    ensures err { OnErr result (out.new.items ≡ out.old.items) }
{
    let mut text = Vec::new(*out.allocator());
    text.extend_from_slice(b"chain ")?;
    push_number(&mut text, chain.steps().len() as u32)?;
    text.extend_from_slice(b"\n")?;
    push_steps(&mut text, chain.n() + 1, chain.steps())?;
    push_outs(&mut text, chain.outs())?;
    out.extend_from_slice(&text)
}
