//! Lines, one function for each kind. Each updates the file so far as defined.

ghost use Rattle.std.specs.Prelude.{◌≡◌, ◌≤◌};
ghost use Rattle.aiger_text.specs.Reading.{Gives};
ghost use Rattle.aiger_text.specs.Limits.{most_variables};
ghost use Rattle.aiger_text.specs.Statements as spec;

use crate::file::{AigFile, AigGate, AigLatch, Counts, Reset};
use crate::header::numbers_of;
use crate::symbols::symbol_of;
use net_core::NetError;
use std::alloc::Global;

/// The greatest literal.
fn most_literal(counts: Counts) -> u32
    requires { counts.variables ≤ most_variables }
    ensures { result ≡ spec.most_literal counts }
{
    counts.variables * 2 + 1
}

/// Whether a literal is that of a variable: even, and not a constant.
#[tactic(auto, unfolding(crate::specs::Statements::is_variable))]
fn is_variable(literal: u32) -> bool
    ensures { result ≡ spec.is_variable literal }
{
    literal >= 2 && literal % 2 == 0
}

/// An input: the literal of a variable.
#[tactic(auto, unfolding(crate::specs::Statements::input_of))]
fn input_of(line: u32, numbers: &[u32]) -> Result<u32, NetError>
    ensures { Gives (λ n. n) result (spec.input_of line numbers.now) }
{
    let [literal] = numbers else {
        return Err(NetError::Syntax(line));
    };
    if !is_variable(*literal) {
        return Err(NetError::Syntax(line));
    }
    Ok(*literal)
}

/// The initial value that a number means for the latch `literal`.
#[tactic(auto, unfolding(crate::specs::Statements::reset_of))]
fn reset_of(literal: u32, value: u32) -> Option<Reset>
    ensures { result ≡ spec.reset_of literal value }
{
    if value == 0 {
        Some(Reset::Zero)
    } else if value == 1 {
        Some(Reset::One)
    } else if value == literal {
        Some(Reset::Undefined)
    } else {
        None
    }
}

/// The latch with these numbers.
#[tactic(auto, unfolding(crate::specs::Statements::latch_with))]
fn latch_with(line: u32, literal: u32, next: u32, value: u32) -> Result<AigLatch, NetError>
    ensures { Gives (λ l. l) result (spec.latch_with line literal next value) }
{
    if !is_variable(literal) {
        return Err(NetError::Syntax(line));
    }
    match reset_of(literal, value) {
        Some(reset) => Ok(AigLatch {
            literal,
            next,
            reset,
        }),
        None => Err(NetError::Syntax(line)),
    }
}

/// A latch: its literal, its next state, and its initial value, which is 0 if left out.
#[tactic(auto, unfolding(crate::specs::Statements::latch_of))]
fn latch_of(line: u32, numbers: &[u32]) -> Result<AigLatch, NetError>
    ensures { Gives (λ l. l) result (spec.latch_of line numbers.now) }
{
    match numbers {
        [literal, next] => latch_with(line, *literal, *next, 0),
        [literal, next, value] => latch_with(line, *literal, *next, *value),
        _ => Err(NetError::Syntax(line)),
    }
}

/// An output: any literal.
#[tactic(auto, unfolding(crate::specs::Statements::output_of))]
fn output_of(line: u32, numbers: &[u32]) -> Result<u32, NetError>
    ensures { Gives (λ n. n) result (spec.output_of line numbers.now) }
{
    match numbers {
        [literal] => Ok(*literal),
        _ => Err(NetError::Syntax(line)),
    }
}

/// A gate: its literal, and its two fanins.
#[tactic(auto, unfolding(crate::specs::Statements::gate_of))]
fn gate_of(line: u32, numbers: &[u32]) -> Result<AigGate, NetError>
    ensures { Gives (λ g. g) result (spec.gate_of line numbers.now) }
{
    let [literal, first, second] = numbers else {
        return Err(NetError::Syntax(line));
    };
    if !is_variable(*literal) {
        return Err(NetError::Syntax(line));
    }
    Ok(AigGate {
        literal: *literal,
        first: *first,
        second: *second,
    })
}

/// Reads a line of an input.
fn take_input(
    alloc: Global,
    line: u32,
    counts: Counts,
    file: &mut AigFile,
    text: &[u8],
) -> Result<(), NetError>
    requires { counts.variables ≤ most_variables }
    ensures { Gives (λ _. file.new) result (spec.input_line line counts file.old text.now) }
{
    let numbers = numbers_of(alloc, line, most_literal(counts), text)?;
    file.inputs.push(input_of(line, &numbers)?)?;
    Ok(())
}

/// Reads a line of a latch.
fn take_latch(
    alloc: Global,
    line: u32,
    counts: Counts,
    file: &mut AigFile,
    text: &[u8],
) -> Result<(), NetError>
    requires { counts.variables ≤ most_variables }
    ensures { Gives (λ _. file.new) result (spec.latch_line line counts file.old text.now) }
{
    let numbers = numbers_of(alloc, line, most_literal(counts), text)?;
    file.latches.push(latch_of(line, &numbers)?)?;
    Ok(())
}

/// Reads a line of an output.
fn take_output(
    alloc: Global,
    line: u32,
    counts: Counts,
    file: &mut AigFile,
    text: &[u8],
) -> Result<(), NetError>
    requires { counts.variables ≤ most_variables }
    ensures { Gives (λ _. file.new) result (spec.output_line line counts file.old text.now) }
{
    let numbers = numbers_of(alloc, line, most_literal(counts), text)?;
    file.outputs.push(output_of(line, &numbers)?)?;
    Ok(())
}

/// Reads a line of a gate.
fn take_gate(
    alloc: Global,
    line: u32,
    counts: Counts,
    file: &mut AigFile,
    text: &[u8],
) -> Result<(), NetError>
    requires { counts.variables ≤ most_variables }
    ensures { Gives (λ _. file.new) result (spec.gate_line line counts file.old text.now) }
{
    let numbers = numbers_of(alloc, line, most_literal(counts), text)?;
    file.gates.push(gate_of(line, &numbers)?)?;
    Ok(())
}

/// Reads a line of a symbol.
fn take_symbol(
    alloc: Global,
    line: u32,
    counts: Counts,
    file: &mut AigFile,
    text: &[u8],
) -> Result<(), NetError>
    ensures { Gives (λ _. file.new) result (spec.symbol_line line counts file.old text.now) }
{
    file.symbols.push(symbol_of(alloc, line, counts, text)?)?;
    Ok(())
}

/// Reads a line, by what is still missing of the file.
#[tactic(auto, unfolding(crate::specs::Statements::stated))]
fn state(
    alloc: Global,
    line: u32,
    counts: Counts,
    file: &mut AigFile,
    text: &[u8],
) -> Result<(), NetError>
    requires { counts.variables ≤ most_variables }
    ensures { Gives (λ _. file.new) result (spec.stated line counts file.old text.now) }
{
    if file.inputs.len() < counts.inputs as usize {
        take_input(alloc, line, counts, file, text)
    } else if file.latches.len() < counts.latches as usize {
        take_latch(alloc, line, counts, file, text)
    } else if file.outputs.len() < counts.outputs as usize {
        take_output(alloc, line, counts, file, text)
    } else if file.gates.len() < counts.gates as usize {
        take_gate(alloc, line, counts, file, text)
    } else {
        take_symbol(alloc, line, counts, file, text)
    }
}

/// Reads the line with number `line`, without its LF; `ended` tells whether an LF follows it.
#[tactic(auto, unfolding(crate::specs::Statements::step))]
pub fn take_line(
    alloc: Global,
    line: u32,
    counts: Counts,
    file: &mut AigFile,
    text: &[u8],
    ended: bool,
) -> Result<(), NetError>
    requires { counts.variables ≤ most_variables }
    ensures { Gives (λ _. file.new) result (spec.step line counts file.old
        (record { text = text.now; ended = ended })) }
{
    if !ended {
        return Err(NetError::Syntax(line));
    }
    state(alloc, line, counts, file, text)
}
