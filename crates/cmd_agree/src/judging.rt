//! Reading the tables and the chain of an input, and comparing them.
ghost use Rattle.std.specs.Prelude.{◌≡◌, ◌+◌, ◌*◌, ◌^◌, ◌<◌, ◌≤◌, length, drop, IfOk, IfErr};
ghost use Rattle.text_core.specs.Lines.{lines_of};
ghost use Rattle.tt_core.specs.Words.{specification, IsSpec};
ghost use Rattle.tt_core.specs.Tables.{tables_of};
ghost use Rattle.chain_core.specs.Block.{chain_of};
ghost use Rattle.cmd_agree.specs.Agree.{Gives, tables_in, chain_in, end_in, chain_following, question_in, HasAnswer};
ghost use Rattle.cmd_agree.specs.Agree.{IsAnswer, IsCause};
ghost use Rattle.cmd_lines.specs.TableLines.{most_of_tables};

use crate::agree::{AgreeAnswer, AgreeError};
use chain_core::{Chain, ChainError, first_difference, read_chain};
use std::alloc::Global;
use text_core::next_line;
use tt_core::{Spec, SpecError, Tables, read_tables};

/// The tables at the start of `bytes`.
fn tables_at(alloc: Global, bytes: &[u8]) -> Result<Tables, AgreeError>
    requires { length bytes.now < 2 ^ 31 }
    ensures exact { Gives (λ x. record { words = x.spec; rest = lines_of (drop x.used bytes.now) }) result
        (tables_in (tables_of (lines_of bytes.now))) }
    ensures used { IfOk result (λ x. x.used ≤ length bytes.now) }
    ensures whole { IfOk result (λ x. IsSpec x.spec) }
{
    match read_tables(alloc, bytes) {
        Ok(tables) => Ok(tables),
        Err(SpecError::Memory) => Err(AgreeError::Memory),
        Err(error) => Err(AgreeError::Tables(error)),
    }
}

/// Checks that line `line` is `end`, and that nothing follows it.
#[tactic(auto, unfolding(crate::specs::Agree::end_in))]
fn end_at(bytes: &[u8], line: u32) -> Result<(), AgreeError>
    requires { line < 2 ^ 31 }
    ensures { Gives (λ _. tt) result (end_in line (lines_of bytes.now)) }
{
    let Some((text, ended, rest)) = next_line(bytes) else {
        return Err(AgreeError::BadEnd(line));
    };
    if !ended || text != b"end".as_slice() {
        return Err(AgreeError::BadEnd(line));
    }
    match next_line(rest) {
        None => Ok(()),
        Some(_) => Err(AgreeError::BadEnd(line + 1)),
    }
}

/// The chain block at the start of `bytes`.
fn chain_at(
    alloc: Global,
    bytes: &[u8],
    first_line: u32,
    n: u32,
    outputs: u32,
) -> Result<(Chain, usize), AgreeError>
    requires length { length bytes.now < 2 ^ 31 }
    requires first_line { first_line < 2 ^ 31 }
    requires inputs { n ≤ 6 }
    requires outputs { outputs ≤ 8 }
    ensures exact { Gives (λ x. record { chain = x.0; rest = lines_of (drop x.1 bytes.now) }) result
        (chain_in (chain_of first_line n outputs (lines_of bytes.now))) }
    ensures used { IfOk result (λ x. x.1 ≤ length bytes.now) }
    ensures inputs_as { IfOk result (λ x. x.0.n ≡ n) }
    ensures outputs_as { IfOk result (λ x. length x.0.outs ≡ outputs) }
{
    match read_chain(alloc, bytes, first_line, n, outputs) {
        Ok(found) => Ok(found),
        Err(ChainError::Memory) => Err(AgreeError::Memory),
        Err(error) => Err(AgreeError::Chained(error)),
    }
}

/// The chain block for `spec`, followed by the line `end`.
#[tactic(auto, unfolding(crate::specs::Agree::chain_following))]
fn chain_after(alloc: Global, spec: &Spec, bytes: &[u8]) -> Result<Chain, AgreeError>
    requires length { length bytes.now < 2 ^ 31 }
    requires whole { IsSpec spec.now }
    ensures exact { Gives (λ c. c) result (chain_following (record { words = spec.now; rest = lines_of bytes.now })) }
    ensures inputs_as { IfOk result (λ c. c.n ≡ spec.now.n) }
    ensures outputs_as { IfOk result (λ c. length c.outs ≡ length spec.now.on) }
{
    let outputs = spec.outputs();
    let (chain, used) = chain_at(alloc, bytes, 2 + outputs, spec.n(), outputs)?;
    let (_, rest) = bytes.split_at(used);
    let steps = chain.steps().len() as u32;
    end_at(rest, 3 + 2 * outputs + steps)?;
    Ok(chain)
}

/// The tables and the chain of an input.
#[tactic(auto, unfolding(crate::specs::Agree::question_in))]
fn question(alloc: Global, bytes: &[u8]) -> Result<(Spec, Chain), AgreeError>
    requires { length bytes.now < 2 ^ 31 }
    ensures exact { Gives (λ x. record { tables = specification x.0; chain = x.1 }) result
        (question_in (lines_of bytes.now)) }
    ensures inputs_as { IfOk result (λ x. x.1.n ≡ x.0.n) }
    ensures outputs_as { IfOk result (λ x. length x.1.outs ≡ length x.0.on) }
{
    let tables = tables_at(alloc, bytes)?;
    let (_, rest) = bytes.split_at(tables.used);
    let chain = chain_after(alloc, &tables.spec, rest)?;
    Ok((tables.spec, chain))
}

/// Whether the chain implements the tables, or the first difference.
fn compare(spec: &Spec, chain: &Chain) -> AgreeAnswer
    requires inputs { chain.now.n ≡ spec.now.n }
    requires outputs { length chain.now.outs ≡ length spec.now.on }
    ensures { IsAnswer (record { tables = specification spec.now; chain = chain.now }) result }
{
    match first_difference(chain, spec) {
        None => AgreeAnswer::Agrees,
        Some((output, row)) => AgreeAnswer::Differs { output, row },
    }
}

/// The answer to an input.
#[tactic(auto, using(crate::proofs::Agreeing::cause_of))]
pub(crate) fn judge(alloc: Global, bytes: &[u8]) -> Result<AgreeAnswer, AgreeError>
    requires { length bytes.now ≤ most_of_tables }
    ensures answer { IfOk result (HasAnswer bytes.now) }
    ensures refusal { IfErr result (IsCause bytes.now) }
{
    match question(alloc, bytes) {
        Ok((spec, chain)) => Ok(compare(&spec, &chain)),
        Err(error) => Err(error),
    }
}
