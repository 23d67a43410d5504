//! The command `agree`: whether a chain implements tables.
ghost use Rattle.std.specs.Prelude.{◌≡◌, IfOk};
ghost use Rattle.cmd_agree.specs.AgreeReport.{answer_text, answer_status, error_status};
ghost use Rattle.cmd_agree.specs.AgreeReport.{chain_status as chain_status_of, named_chain, named_error, agree_reply};
ghost use Rattle.cmd_agree.specs.AgreeReport.{agree_refusal, agree_task};
ghost use Rattle.frame_core.specs.Views.{line_value, reply_value, refusal_value};

use crate::judging::judge;
use chain_core::ChainError;
use cmd_lines::{MOST_BYTES_OF_TABLES, name_spec, spec_status};
use frame_core::{ErrorLine, Refusal, Replier, Reply, Status, Stop};
use std::alloc::{AllocError, Global};
use text_core::push_number;
use tt_core::SpecError;

/// The result of comparing a chain with tables.
#[derive(Clone, Copy, Debug)]
pub(crate) enum AgreeAnswer {
    /// The chain has the value of every specified cell.
    Agrees,
    /// The chain differs in a specified cell: the least output with a difference, from 1 on, and its least row.
    Differs { output: u32, row: u32 },
}

/// Why an input of `agree` has no answer.
#[derive(Clone, Copy)]
pub(crate) enum AgreeError {
    /// The tables have a fault. (Running out of memory is `Memory`.)
    Tables(SpecError),
    /// The chain block has a fault. (Running out of memory is `Memory`.)
    Chained(ChainError),
    /// This line should be `end` and isn't, or comes after `end`.
    BadEnd(u32),
    /// Out of memory.
    Memory,
}

impl AgreeAnswer {
    /// The status of the answer.
    pub(crate) fn status(self) -> Status
        ensures { result ≡ answer_status self }
    {
        match self {
            AgreeAnswer::Agrees => Status::Done,
            AgreeAnswer::Differs { .. } => Status::Refused,
        }
    }
}

impl AgreeError {
    /// The status of the error.
    pub(crate) fn status(self) -> Status
        ensures { result ≡ error_status self }
    {
        match self {
            AgreeError::Tables(error) => spec_status(error),
            AgreeError::Chained(error) => chain_status(error),
            AgreeError::BadEnd(_) => Status::Malformed,
            AgreeError::Memory => Status::Memory,
        }
    }
}

/// The status of a fault of a chain block.
fn chain_status(error: ChainError) -> Status
    ensures { result ≡ chain_status_of error }
{
    match error {
        ChainError::BadStep(_)
        | ChainError::ForwardPlace(_)
        | ChainError::BadOut(_)
        | ChainError::BadCount(_) => Status::Malformed,
        ChainError::TooManySteps(_) => Status::Limit,
        ChainError::Memory => Status::Memory,
    }
}

/// The error line of a fault of a chain block.
#[tactic(auto, unfolding(crate::specs::AgreeReport::named_chain, frame_core::specs::Reported::memory))]
fn name_chain(error: ChainError) -> ErrorLine
    ensures { line_value result ≡ named_chain error }
{
    match error {
        ChainError::BadStep(line) => ErrorLine::at(b"BadStep", line),
        ChainError::ForwardPlace(line) => ErrorLine::at(b"ForwardPlace", line),
        ChainError::BadOut(line) => ErrorLine::at(b"BadOut", line),
        ChainError::TooManySteps(line) => ErrorLine::at(b"TooManySteps", line),
        ChainError::BadCount(line) => ErrorLine::at(b"BadCount", line),
        ChainError::Memory => ErrorLine::plain(b"Memory"),
    }
}

/// The error line of an error.
#[tactic(auto, unfolding(crate::specs::AgreeReport::named_error, frame_core::specs::Reported::memory))]
fn name_error(error: AgreeError) -> ErrorLine
    ensures { line_value result ≡ named_error error }
{
    match error {
        AgreeError::Tables(error) => name_spec(error),
        AgreeError::Chained(error) => name_chain(error),
        AgreeError::BadEnd(line) => ErrorLine::at(b"BadEnd", line),
        AgreeError::Memory => ErrorLine::plain(b"Memory"),
    }
}

/// An error as a refusal.
fn refusal_of(error: AgreeError) -> Refusal
    ensures { refusal_value result ≡ agree_refusal error }
{
    Refusal {
        status: error.status(),
        line: name_error(error),
    }
}

/// The text of an answer.
#[tactic(auto, unfolding(crate::specs::AgreeReport::answer_text))]
fn text_of(alloc: Global, answer: AgreeAnswer) -> Result<Vec<u8>, AllocError>
    ensures { IfOk result (λ text. text.items ≡ answer_text answer) }
{
    let mut text = Vec::new(alloc);
    match answer {
        AgreeAnswer::Agrees => text.extend_from_slice(b"agrees\n")?,
        AgreeAnswer::Differs { output, row } => {
            text.extend_from_slice(b"differs ")?;
            push_number(&mut text, output)?;
            text.extend_from_slice(b" ")?;
            push_number(&mut text, row)?;
            text.extend_from_slice(b"\n")?;
        }
    }
    Ok(text)
}

/// An answer as a reply.
fn reply_of(alloc: Global, answer: AgreeAnswer) -> Result<Reply, AllocError>
    ensures { IfOk result (λ reply. reply_value reply ≡ agree_reply answer) }
{
    Ok(Reply {
        text: text_of(alloc, answer)?,
        report: None,
        status: answer.status(),
    })
}

/// The command: whether a chain implements the tables before it.
#[derive(Drop)]
pub struct Agree;

impl Replier for Agree {
    ghost task = { λ _. agree_task };

    ghost ready = { λ _. Unit {0} };

    fn reads(&self) -> Option<usize> {
        Some(MOST_BYTES_OF_TABLES)
    }

    #[tactic(auto, using(crate::proofs::Agreeing::reporting))]
    fn reply(&self, alloc: Global, bytes: &[u8]) -> Result<Reply, Stop> {
        match judge(alloc, bytes) {
            Ok(answer) => match reply_of(alloc, answer) {
                Ok(reply) => Ok(reply),
                Err(AllocError) => Err(Stop::NoMemory),
            },
            Err(AgreeError::Memory) => Err(Stop::NoMemory),
            Err(error) => Err(Stop::NoAnswer(refusal_of(error))),
        }
    }
}
