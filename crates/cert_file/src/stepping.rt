//! The transitions of `Stage`, one line at a time. The argument: a stage determines the result of the whole
//! text, given the lines to come; so the first fault is the text's, and at the end the stage is the result.
ghost use Rattle.std.specs.Prelude.{◌≡◌, ◌+◌, ◌^◌, ◌<◌, List, [], ◌∷◌, IfOk};
ghost use Rattle.text_core.specs.Lines.{Line};
ghost use Rattle.cert_theory.specs.Gives.{Gives};
ghost use Rattle.line_reader.specs.TextLines.{line_of};
ghost use Rattle.line_reader.specs.Splits.{IsPlace};
ghost use Rattle.cert_file.specs.Stages as stages;
ghost use Rattle.cert_file.specs.Stages.{Answer, IsStage, IsKnown, AnswersLines, Judged};
ghost use Rattle.cert_file.specs.Claims.{KeepsClaim, HasClaim};

use crate::claim::Claim;
use crate::fence_names::at_due;
use crate::header::{at_conflicts, at_inputs, at_max, at_method, at_start, at_tables};
use crate::lines::TextLine;
use crate::logs::{at_begun, at_within};
use crate::sections::at_between;
use crate::stage::Stage;
use crate::trailer::{at_done, at_end, at_found, at_outs, at_steps};
use cert_theory::{CertificateError, Verdict};
use std::alloc::Global;

/// The stage after the next line, or its fault.
pub(crate) fn take(alloc: Global, stage: Stage, line: &TextLine) -> Result<Stage, CertificateError>
    requires stage { IsStage stage line.now.number }
    requires number { line.now.number < 2 ^ 32 }
    ensures keeps { IfOk result (λ s. IsStage s (line.now.number + 1)) }
    ensures answer { (lines ls : List Line) (answer : Answer) → AnswersLines stage line.now.number lines answer →
        lines ≡ line_of line.now ∷ ls → Judged result (line.now.number + 1) ls answer }
    ensures keeps_claim { (lines ls all : List Line) → IsPlace line.now.number lines all →
        KeepsClaim stage line.now.number lines all →
        lines ≡ line_of line.now ∷ ls → IfOk result (λ s. KeepsClaim s (line.now.number + 1) ls all) }
{
    match stage {
        Stage::Start => at_start(line),
        Stage::Inputs => at_inputs(alloc, line),
        Stage::Tables { n, on, care } => at_tables(alloc, n, on, care, line),
        Stage::Methods { spec, basis } => at_method(spec, basis, line),
        Stage::Conflicts {
            spec,
            basis,
            method,
        } => at_conflicts(spec, basis, method, line),
        Stage::Sizes {
            spec,
            basis,
            method,
            conflicts,
        } => at_max(spec, basis, method, conflicts, line),
        Stage::Between { next } => at_between(alloc, next, line),
        Stage::Due { running } => at_due(alloc, running, line),
        Stage::Begun { running } => at_begun(alloc, running, line),
        Stage::Within { running, reader } => at_within(alloc, running, reader, line),
        Stage::Steps { lines } => at_steps(lines, line),
        Stage::Outs { lines } => at_outs(lines, line),
        Stage::Found { header, low, chain } => at_found(header, low, chain, line),
        Stage::End { claim } => at_end(claim, line),
        Stage::Done { claim } => at_done(claim, line),
    }
}

/// What a complete text claims; None if a line is still due.
fn claim_in(stage: Stage) -> Option<Claim>
    ensures { result ≡ stages.claim_in stage }
{
    match stage {
        Stage::Done { claim } => Some(claim),
        stage => {
            // for the prover: dropped here at once; left to the exit, each of its fields would be
            drop(stage);
            None
        }
    }
}

/// What the text claims, at its end.
pub(crate) fn claim_of(stage: Stage, number: u32) -> Result<Claim, CertificateError>
    requires { IsStage stage number }
    ensures answer { (answer : Answer) → AnswersLines stage number [] answer → Gives (λ t. t.verdict) result answer }
    ensures keeps_claim { (all : List Line) → IsPlace number [] all → KeepsClaim stage number [] all →
        IfOk result (λ t. HasClaim t all) }
    ensures known { IfOk result (λ t. IsKnown t.header) }
{
    let Some(claim) = claim_in(stage) else {
        return Err(CertificateError::Syntax(number));
    };
    Ok(claim)
}

/// The verdict, at the end of the text.
pub(crate) fn verdict_of(stage: Stage, number: u32) -> Result<Verdict, CertificateError>
    requires { IsStage stage number }
    ensures { (answer : Answer) → AnswersLines stage number [] answer → Gives (λ v. v) result answer }
{
    let claim = claim_of(stage, number)?;
    let verdict = claim.verdict;
    // for the prover: dropped here at once; left to the exit, each of its fields would be
    drop(claim);
    Ok(verdict)
}
