//! The names of subproblems.
ghost use Rattle.std.specs.Prelude.{◌≡◌, ◌+◌, ◌<◌, ◌^◌, List, ◌∷◌, length, drop, codes, Some, IfOk};
ghost use Rattle.text_core.specs.Lines.{Line};
ghost use Rattle.text_core.specs.Items.{items_of};
ghost use Rattle.cert_theory.specs.Judging as judging;
ghost use Rattle.line_reader.specs.TextLines.{line_of};
ghost use Rattle.cert_file.specs.Stages.{Answer, Judged, IsStage, IsRunning, IsSubproblem};
ghost use Rattle.cert_file.specs.HeaderLines.{header_in};
ghost use Rattle.cert_file.specs.Claims.{KeepsClaim};
ghost use Rattle.cert_file.specs.FenceNames.{IsFenceNamed};

use crate::lines::{TextLine, fault_at, is_line, number_after, value_of};
use crate::logs::at_begun;
use crate::stage::{Running, Stage};
use crate::trailer::not_found_in;
use cert_theory::{CertificateError, SubproblemError, fence_name};
use enc_theory::Subproblem;
use settings::MOST_STEPS;
use std::alloc::Global;
use text_core::{MOST_NUMBER, next_item, number_up_to};

/// Whether all items of a text are numbers of at most nine digits.
#[tactic(auto, unfolding(cert_theory::specs::Judging::are_numbers))]
fn are_numbers(text: &[u8]) -> bool
    ensures { result ≡ judging.are_numbers (items_of text.now) }
{
    let mut left = Some(text);
    while let Some(text) = left {
        let (item, rest) = next_item(text);
        if number_up_to(MOST_NUMBER, item).is_none() {
            return false;
        }
        left = rest;
    }
    true
}

/// Whether a text is a list of numbers, each with a blank before it.
fn is_list(text: &[u8]) -> bool
    ensures { result ≡ judging.is_list text.now }
{
    match text.split_first() {
        Some((byte, numbers)) => *byte == b' ' && are_numbers(numbers),
        None => true,
    }
}

/// Whether a line is the name of a fence, with any numbers.
#[tactic(auto, unfolding(cert_theory::specs::Judging::is_fence_name))]
pub fn is_fence_name(line: &TextLine) -> bool
    ensures { result ≡ judging.is_fence_name (line_of line.now) }
{
    match value_of(b"fence", line) {
        Some(rest) => is_list(rest),
        None => false,
    }
}

/// Whether a line begins a chain.
fn is_count(line: &TextLine) -> bool
    ensures { result ≡ judging.is_count (judging.number_after (codes "chain ") (line_of line.now)) }
{
    match number_after(b"chain ", line) {
        Some(steps) => steps <= MOST_STEPS,
        None => false,
    }
}

/// Whether a line could be right where a fence's name is due: the name of another fence, or a line that may
/// follow a section.
#[tactic(auto, unfolding(cert_theory::specs::Judging::may_follow))]
fn may_follow(line: &TextLine) -> bool
    ensures { result ≡ judging.may_follow (line_of line.now) }
{
    is_fence_name(line)
        || number_after(b"size ", line).is_some()
        || is_count(line)
        || not_found_in(line).is_some()
}

/// Reads the name of a subproblem; false if it has none. `follows` says whether the line could be right if the
/// subproblem were absent.
#[tactic(auto, unfolding(cert_theory::specs::SubproblemLines::name_in))]
fn name_in(
    alloc: Global,
    subproblem: &Subproblem,
    line: &TextLine,
    follows: bool,
) -> Result<bool, SubproblemError>
    ensures { IsFenceNamed subproblem.now follows (line_of line.now) result }
{
    let Subproblem::Levels(fence) = subproblem else {
        return Ok(false);
    };
    let name = fence_name(alloc, fence.levels())?;
    if is_line(&name, line) {
        return Ok(true);
    }
    if follows {
        return Err(SubproblemError::NotRefuted);
    }
    Err(SubproblemError::Syntax)
}

/// The current subproblem.
pub(crate) fn subproblem_in(running: &Running) -> &Subproblem
    requires { running.now.at < length running.now.subproblems.items }
    ensures { IsSubproblem running.now result.now }
{
    &running.subproblems[running.at]
}

/// The name of a subproblem, or the first line of its log if it has no name.
pub(crate) fn at_due(
    alloc: Global,
    running: Running,
    line: &TextLine,
) -> Result<Stage, CertificateError>
    requires running { IsRunning running }
    requires number { line.now.number < 2 ^ 32 }
    ensures keeps { IfOk result (λ s. IsStage s (line.now.number + 1)) }
    ensures answer { (ls : List Line) (answer : Answer) →
        answer ≡ judging.sections_of running.header line.now.number
        (judging.before running.size running.low (drop running.at running.subproblems.items))
        (line_of line.now ∷ ls) →
        Judged result (line.now.number + 1) ls answer }
    ensures keeps_claim { (ls all : List Line) → header_in all ≡ Some running.header →
        IfOk result (λ s. KeepsClaim s (line.now.number + 1) ls all) }
{
    let is_named = match name_in(alloc, subproblem_in(&running), line, may_follow(line)) {
        Ok(is_named) => is_named,
        Err(fault) => return Err(fault_at(line.number, fault)),
    };
    if is_named {
        return Ok(Stage::Begun { running });
    }
    at_begun(alloc, running, line)
}
