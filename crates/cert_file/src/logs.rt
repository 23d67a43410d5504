//! The lines of logs within a certificate. Each line goes to the reader of its subproblem; after the end of a
//! log comes the next subproblem or the next size.
ghost use Rattle.std.specs.Prelude.{◌≡◌, ℕ, ◌+◌, ◌<◌, ◌≤◌, List, ◌∷◌, Some, IfOk, length, drop};
ghost use Rattle.text_core.specs.Lines as lines;
ghost use Rattle.cert_theory.specs.Judging as judging;
ghost use Rattle.cert_theory.specs.SubproblemLines as subproblems;
ghost use Rattle.cert_theory.specs.Certificate as certificates;
ghost use Rattle.enc_theory.specs.declared.subproblem.Subproblem.{Subproblem};
ghost use Rattle.cert_file.specs.HeaderLines.{header_in};
ghost use Rattle.line_reader.specs.TextLines.{line_of};
ghost use Rattle.cert_file.specs.Stages.{Answer, Judged, AnswersLines, IsStage, IsRunning, IsSubproblem, left_of};
ghost use Rattle.cert_file.specs.Stages.{IsBegun, IsLogging};
ghost use Rattle.cert_file.specs.Claims.{KeepsClaim};

use crate::fence_names::subproblem_in;
use crate::formulas::formula_of;
use crate::lines::{TextLine, fault_at, is_line};
use crate::sections::due;
use crate::stage::{Running, Stage};
use crate::subproblem::{SubproblemReader, SubproblemStep};
use cert_theory::{CertificateError, LogEnd, stops_after};
use cnf_core::Cnf;
use std::alloc::{AllocError, Global};

/// How a log ends, by its first line.
#[tactic(auto, unfolding(cert_theory::specs::SubproblemLines::ended_in))]
pub fn ended_in(line: &TextLine) -> Option<LogEnd>
    ensures { result ≡ subproblems.ended_in (line_of line.now) }
{
    if is_line(b"refuted", line) {
        return Some(LogEnd::Refuted);
    }
    if is_line(b"open", line) {
        return Some(LogEnd::Open);
    }
    None
}

/// The formula of the current subproblem.
fn formula_in(alloc: Global, running: &Running) -> Result<Cnf, AllocError>
    requires { IsRunning running.now }
    ensures { (subproblem : Subproblem) → IsSubproblem running.now subproblem →
        IfOk result (λ cnf. cnf ≡ certificates.formula_of running.now.header running.now.size subproblem) }
{
    formula_of(alloc, &running.header, running.size, subproblem_in(running))
}

/// The first line of a log.
pub(crate) fn at_begun(
    alloc: Global,
    running: Running,
    line: &TextLine,
) -> Result<Stage, CertificateError>
    requires running { IsRunning running }
    ensures keeps { IfOk result (λ s. IsStage s (line.now.number + 1)) }
    ensures answer { (lines ls : List lines.Line) (answer : Answer) → IsBegun running line.now.number lines answer →
        lines ≡ line_of line.now ∷ ls → Judged result (line.now.number + 1) ls answer }
    ensures keeps_claim { (ls all : List lines.Line) → header_in all ≡ Some running.header →
        IfOk result (λ s. KeepsClaim s (line.now.number + 1) ls all) }
{
    let Some(end) = ended_in(line) else {
        return Err(CertificateError::Syntax(line.number));
    };
    let cnf = formula_in(alloc, &running)?;
    let reader = SubproblemReader::new(alloc, cnf, running.header.conflicts, end)?;
    Ok(Stage::Within { running, reader })
}

/// The first open size (or level), updated by the log of one more.
pub fn low_with(low: Option<u32>, end: LogEnd, next: u32) -> Option<u32>
    ensures { result ≡ judging.low_with low end next }
{
    match (low, end) {
        (None, LogEnd::Open) => Some(next),
        _ => low,
    }
}

/// The index of the next subproblem that is due after a log that ends so.
#[tactic(auto, using(crate::proofs::SectionLines::nexts))]
fn next_at(running: &Running, end: LogEnd) -> usize
    requires { IsRunning running.now }
    ensures few { result ≤ length running.now.subproblems.items }
    ensures next { drop result running.now.subproblems.items ≡ left_of running.now end }
{
    if stops_after(running.header.method, end) {
        running.subproblems.len()
    } else {
        running.at + 1
    }
}

/// The state after the log of a subproblem.
fn following(running: Running, end: LogEnd) -> Stage
    requires { IsRunning running }
    ensures keeps { (number : ℕ) → IsStage result number }
    ensures stands { (number : ℕ) (ls : List lines.Line) (answer : Answer) →
        answer ≡ judging.sections_of running.header number
        (judging.before running.size (judging.low_with running.low end running.size) (left_of running end)) ls →
        AnswersLines result number ls answer }
    ensures keeps_claim { (number : ℕ) (ls all : List lines.Line) → header_in all ≡ Some running.header →
        KeepsClaim result number ls all }
{
    let mut running = running;
    running.low = low_with(running.low, end, running.size);
    running.at = next_at(&running, end);
    due(running)
}

/// A line of a log, or its end.
pub(crate) fn at_within(
    alloc: Global,
    running: Running,
    reader: SubproblemReader,
    line: &TextLine,
) -> Result<Stage, CertificateError>
    requires { IsRunning running }
    ensures keeps { IfOk result (λ s. IsStage s (line.now.number + 1)) }
    ensures answer { (lines ls : List lines.Line) (answer : Answer) →
        IsLogging running reader line.now.number lines answer →
        lines ≡ line_of line.now ∷ ls → Judged result (line.now.number + 1) ls answer }
    ensures keeps_claim { (ls all : List lines.Line) → header_in all ≡ Some running.header →
        IfOk result (λ s. KeepsClaim s (line.now.number + 1) ls all) }
{
    let end = reader.ended();
    match reader.feed(alloc, line.text, line.ended) {
        Ok(SubproblemStep::More(reader)) => Ok(Stage::Within { running, reader }),
        Ok(SubproblemStep::Done) => Ok(following(running, end)),
        Err(fault) => Err(fault_at(line.number, fault)),
    }
}
