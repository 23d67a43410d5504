//! The trailer: the chain, the verdict, and the line `end`.
ghost use Rattle.std.specs.Prelude.{◌≡◌, ◌+◌, ◌<◌, ◌≤◌, ◌^◌, ◌==◌, ◌&&◌, nat_lt, List, ◌∷◌, length, Some, Ok, IfOk};
ghost use Rattle.text_core.specs.Lines.{Line};
ghost use Rattle.chain_theory.specs.Chain as chain;
ghost use Rattle.chain_core.specs.Block as block;
ghost use Rattle.cert_theory.specs.Gives.{Gives};
ghost use Rattle.cert_theory.specs.Coding as coding;
ghost use Rattle.cert_theory.specs.Judging as judging;
ghost use Rattle.cert_file.specs.HeaderLines.{header_in};
ghost use Rattle.cert_file.specs.Refusals.{IsRefusal};
ghost use Rattle.line_reader.specs.TextLines.{line_of};
ghost use Rattle.line_reader.specs.Splits.{IsPlace};
ghost use Rattle.cert_file.specs.Stages.{Answer, Judged, IsStage, IsKnown, AreRead, AreNamed, steps_left, outs_left};
ghost use Rattle.cert_file.specs.Claims.{IsBlock, IsHeld, HasEnded, KeepsClaim};
ghost use Rattle.chain_theory.specs.Limits.{most_steps};

use crate::claim::Claim;
use crate::fence_names::is_fence_name;
use crate::lines::{TextLine, VerdictNumbers, begins, is_line, number_after, numbered_in};
use crate::stage::{ChainLines, NextSize, Stage};
use cert_theory::{CertificateError, Header, Verdict};
use chain_core::{
    Chain, ChainError, Frame, add_step, count_at, first_difference, first_outside, out_at, step_at,
};
use settings::Method;
use std::alloc::Global;

/// An error of the chain's grammar as a fault of the certificate.
fn refusal(error: ChainError) -> CertificateError
    ensures { IsRefusal error result }
{
    match error {
        ChainError::BadStep(line) => CertificateError::Syntax(line),
        ChainError::ForwardPlace(line) => CertificateError::Syntax(line),
        ChainError::BadOut(line) => CertificateError::Syntax(line),
        ChainError::TooManySteps(line) => CertificateError::Syntax(line),
        ChainError::BadCount(line) => CertificateError::Syntax(line),
        ChainError::Memory => CertificateError::Memory,
    }
}

/// The number of steps of a chain, which must be the number of sections.
#[tactic(auto, using(crate::proofs::Refusing::refusing), unfolding(cert_theory::specs::Judging::steps_at))]
fn steps_at(header: &Header, size: u32, line: &TextLine) -> Result<u32, CertificateError>
    ensures exact { Gives (λ x. x) result (judging.steps_at header.now line.now.number size (line_of line.now)) }
    ensures few { IfOk result (λ steps. steps ≤ most_steps) }
    ensures count { IfOk result (λ steps. block.count_at line.now.number (line_of line.now) ≡ Ok steps) }
{
    let steps = match count_at(line.number, line.text, line.ended) {
        Ok(steps) => steps,
        Err(error) => return Err(refusal(error)),
    };
    if steps != size || steps > header.max {
        return Err(CertificateError::SizeOutOfOrder(line.number));
    }
    Ok(steps)
}

/// The first line of a chain.
fn at_chain(alloc: Global, next: NextSize, line: &TextLine) -> Result<Stage, CertificateError>
    requires known { IsKnown next.header }
    requires number { line.now.number < 2 ^ 32 }
    ensures keeps { IfOk result (λ s. IsStage s (line.now.number + 1)) }
    ensures answer { (ls : List Line) (answer : Answer) →
        answer ≡ judging.chain_at next.header line.now.number next.size next.low (line_of line.now) ls →
        Judged result (line.now.number + 1) ls answer }
    ensures keeps_claim { (ls all : List Line) → IsPlace line.now.number (line_of line.now ∷ ls) all →
        header_in all ≡ Some next.header → IfOk result (λ s. KeepsClaim s (line.now.number + 1) ls all) }
{
    let NextSize { header, size, low } = next;
    let steps = steps_at(&header, size, line)?;
    let frame = Frame {
        first_line: line.number,
        n: header.spec.n(),
        outputs: header.spec.outputs(),
        steps,
    };
    let lines = ChainLines {
        header,
        low,
        frame,
        steps: Vec::new(alloc),
        outs: Vec::new(alloc),
    };
    if steps == 0 {
        return Ok(Stage::Outs { lines });
    }
    Ok(Stage::Steps { lines })
}

/// A step of the chain.
pub(crate) fn at_steps(lines: ChainLines, line: &TextLine) -> Result<Stage, CertificateError>
    requires number { line.now.number < 2 ^ 32 }
    requires read { AreRead lines line.now.number }
    ensures keeps { IfOk result (λ s. IsStage s (line.now.number + 1)) }
    ensures answer { (ls : List Line) (answer : Answer) →
        answer ≡ judging.with_block lines.header lines.frame lines.low (steps_left lines (line_of line.now ∷ ls)) →
        Judged result (line.now.number + 1) ls answer }
    ensures keeps_claim { (ls all : List Line) → header_in all ≡ Some lines.header →
        IsBlock lines.frame all (steps_left lines (line_of line.now ∷ ls)) →
        IfOk result (λ s. KeepsClaim s (line.now.number + 1) ls all) }
{
    // for the prover: brings the invariant of the specification
    let _inputs = lines.header.spec.n();
    let step = match step_at(
        &lines.frame,
        lines.steps.len() as u32,
        line.text,
        line.ended,
    ) {
        Ok(step) => step,
        Err(error) => return Err(refusal(error)),
    };
    let mut lines = lines;
    add_step(&mut lines.steps, step)?;
    if lines.steps.len() < lines.frame.steps as usize {
        return Ok(Stage::Steps { lines });
    }
    Ok(Stage::Outs { lines })
}

/// Checks a chain: first that its operators are in the basis, then that it agrees with the tables on all rows.
#[tactic(auto, unfolding(cert_theory::specs::Judging::chain_judged))]
fn chain_judged(header: &Header, chain: &Chain) -> Result<(), CertificateError>
    requires inputs { chain.now.n ≡ header.now.spec.n }
    requires outputs { length chain.now.outs ≡ length header.now.spec.on }
    ensures { Gives (λ x. x) result (judging.chain_judged header.now chain.now) }
{
    if let Some(place) = first_outside(chain, header.basis) {
        return Err(CertificateError::OperatorNotInBasis(place));
    }
    if let Some((output, row)) = first_difference(chain, &header.spec) {
        return Err(CertificateError::ChainDiffers(output, row));
    }
    Ok(())
}

/// The line of an output of the chain; after the last one the chain is checked.
pub(crate) fn at_outs(lines: ChainLines, line: &TextLine) -> Result<Stage, CertificateError>
    requires number { line.now.number < 2 ^ 32 }
    requires read { AreNamed lines line.now.number }
    ensures keeps { IfOk result (λ s. IsStage s (line.now.number + 1)) }
    ensures answer { (ls : List Line) (answer : Answer) →
        answer ≡ judging.with_block lines.header lines.frame lines.low (outs_left lines (line_of line.now ∷ ls)) →
        Judged result (line.now.number + 1) ls answer }
    ensures keeps_claim { (ls all : List Line) → header_in all ≡ Some lines.header →
        IsBlock lines.frame all (outs_left lines (line_of line.now ∷ ls)) →
        IfOk result (λ s. KeepsClaim s (line.now.number + 1) ls all) }
{
    // for the prover: brings the invariant of the specification
    let _inputs = lines.header.spec.n();
    let out = match out_at(&lines.frame, lines.outs.len() as u32, line.text, line.ended) {
        Ok(out) => out,
        Err(error) => return Err(refusal(error)),
    };
    let mut lines = lines;
    lines.outs.push(out)?;
    if lines.outs.len() < lines.frame.outputs as usize {
        return Ok(Stage::Outs { lines });
    }
    let ChainLines {
        header,
        low,
        frame,
        steps,
        outs,
    } = lines;
    let chain = Chain::new(frame.n, steps, outs);
    chain_judged(&header, &chain)?;
    Ok(Stage::Found { header, low, chain })
}

/// Whether two verdicts are the same.
fn is_same(verdict: Verdict, due: Verdict) -> bool
    ensures { result ≡ judging.is_same verdict due }
{
    match (verdict, due) {
        (Verdict::Minimum(r), Verdict::Minimum(q)) => r == q,
        (Verdict::NoChain(x), Verdict::NoChain(y)) => x == y,
        (Verdict::Bounded { low, r }, Verdict::Bounded { low: least, r: q }) => {
            low == least && r == q
        }
        (Verdict::Open { low }, Verdict::Open { low: least }) => low == least,
        _ => false,
    }
}

/// The verdict on a line that follows a chain.
fn found_in(line: &TextLine) -> Option<Verdict>
    ensures { result ≡ judging.found_in (line_of line.now) }
{
    let Some(numbers) = numbered_in(b"minimum ", b"bounded ", line) else {
        return None;
    };
    match numbers {
        VerdictNumbers::One(r) => Some(Verdict::Minimum(r)),
        VerdictNumbers::Two { low, most } => Some(Verdict::Bounded { low, r: most }),
    }
}

/// The verdict on a line, where there is no chain.
#[tactic(auto, unfolding(cert_theory::specs::Judging::not_found_in))]
pub(crate) fn not_found_in(line: &TextLine) -> Option<Verdict>
    ensures { result ≡ judging.not_found_in (line_of line.now) }
{
    if begins(b"none ", line) {
        let most = number_after(b"none ", line)?;
        return Some(Verdict::NoChain(most));
    }
    let low = number_after(b"open ", line)?;
    Some(Verdict::Open { low })
}

/// The verdict after a chain.
#[tactic(auto, unfolding(cert_theory::specs::Judging::after_chain))]
pub(crate) fn at_found(
    header: Header,
    low: Option<u32>,
    chain: Chain,
    line: &TextLine,
) -> Result<Stage, CertificateError>
    requires known { IsKnown header }
    ensures keeps { IfOk result (λ s. IsStage s (line.now.number + 1)) }
    ensures answer { (ls : List Line) (answer : Answer) →
        answer ≡ judging.after_chain line.now.number (length chain.steps) low (line_of line.now ∷ ls) →
        Judged result (line.now.number + 1) ls answer }
    ensures keeps_claim { (ls all : List Line) → header_in all ≡ Some header →
        IsHeld header chain 0 line.now.number all → IfOk result (λ s. KeepsClaim s (line.now.number + 1) ls all) }
{
    let size = chain.steps().len() as u32;
    let Some(verdict) = found_in(line) else {
        return Err(CertificateError::Syntax(line.number));
    };
    if !is_same(verdict, Verdict::found(size, low)) {
        return Err(CertificateError::WrongVerdict(line.number));
    }
    Ok(Stage::End {
        claim: Claim {
            header,
            chain: Some(chain),
            verdict,
        },
    })
}

/// Whether a method names its subproblems.
fn has_fence_names(method: Method) -> bool
    ensures { result ≡ coding.has_fence_names method }
{
    match method {
        Method::Fence | Method::StrongFence => true,
        Method::Plain | Method::Ssv | Method::Select | Method::Strong => false,
    }
}

/// The verdict on a line, where there is no chain. With fences, a fence's name after the last subproblem of a
/// section is reported as `NotRefuted`.
fn verdict_at(method: Method, size: u32, line: &TextLine) -> Result<Verdict, CertificateError>
    ensures { Gives (λ v. v) result (judging.verdict_at (coding.has_fence_names method &&
        nat_lt 0 size) line.now.number (line_of line.now)) }
{
    if has_fence_names(method) && size > 0 && is_fence_name(line) {
        return Err(CertificateError::NotRefuted(line.number));
    }
    let Some(verdict) = not_found_in(line) else {
        return Err(CertificateError::Syntax(line.number));
    };
    Ok(verdict)
}

/// The verdict without a chain.
fn at_not_found(next: NextSize, line: &TextLine) -> Result<Stage, CertificateError>
    requires { IsKnown next.header }
    ensures keeps { IfOk result (λ s. IsStage s (line.now.number + 1)) }
    ensures answer { (ls : List Line) (answer : Answer) →
        answer ≡ judging.no_chain_at next.header line.now.number next.size next.low (line_of line.now) ls →
        Judged result (line.now.number + 1) ls answer }
    ensures keeps_claim { (ls all : List Line) → header_in all ≡ Some next.header →
        IfOk result (λ s. KeepsClaim s (line.now.number + 1) ls all) }
{
    let NextSize { header, size, low } = next;
    let verdict = verdict_at(header.method, size, line)?;
    if size != header.max + 1 || !is_same(verdict, Verdict::not_found(header.max, low)) {
        return Err(CertificateError::WrongVerdict(line.number));
    }
    Ok(Stage::End {
        claim: Claim {
            header,
            chain: None,
            verdict,
        },
    })
}

/// The first line of the trailer.
pub(crate) fn at_trailer(
    alloc: Global,
    next: NextSize,
    line: &TextLine,
) -> Result<Stage, CertificateError>
    requires known { IsKnown next.header }
    requires number { line.now.number < 2 ^ 32 }
    ensures keeps { IfOk result (λ s. IsStage s (line.now.number + 1)) }
    ensures answer { (ls : List Line) (answer : Answer) →
        answer ≡ judging.trailer_at next.header line.now.number next.size next.low (line_of line.now) ls →
        Judged result (line.now.number + 1) ls answer }
    ensures keeps_claim { (ls all : List Line) → IsPlace line.now.number (line_of line.now ∷ ls) all →
        header_in all ≡ Some next.header → IfOk result (λ s. KeepsClaim s (line.now.number + 1) ls all) }
{
    if begins(b"chain ", line) {
        return at_chain(alloc, next, line);
    }
    at_not_found(next, line)
}

/// The last line.
#[tactic(auto, unfolding(cert_theory::specs::Judging::end_of))]
pub(crate) fn at_end(claim: Claim, line: &TextLine) -> Result<Stage, CertificateError>
    requires known { IsKnown claim.header }
    ensures keeps { IfOk result (λ s. IsStage s (line.now.number + 1)) }
    ensures answer { (ls : List Line) (answer : Answer) →
        answer ≡ judging.end_of line.now.number claim.verdict (line_of line.now ∷ ls) →
        Judged result (line.now.number + 1) ls answer }
    ensures keeps_claim { (ls all : List Line) → header_in all ≡ Some claim.header →
        HasEnded claim.header claim.chain claim.verdict 1 line.now.number all →
        IfOk result (λ s. KeepsClaim s (line.now.number + 1) ls all) }
{
    if !is_line(b"end", line) {
        // for the prover: dropped here at once; left to the exit, each of its fields would be
        drop(claim);
        return Err(CertificateError::Syntax(line.number));
    }
    Ok(Stage::Done { claim })
}

/// A line after the last one, which is a fault.
pub(crate) fn at_done(claim: Claim, line: &TextLine) -> Result<Stage, CertificateError>
    ensures keeps { IfOk result (λ s. IsStage s (line.now.number + 1)) }
    ensures answer { (ls : List Line) (answer : Answer) →
        answer ≡ judging.nothing_after line.now.number claim.verdict (line_of line.now ∷ ls) →
        Judged result (line.now.number + 1) ls answer }
    ensures keeps_claim { (ls all : List Line) → IfOk result (λ s. KeepsClaim s (line.now.number + 1) ls all) }
{
    // for the prover: dropped here at once; left to the exit, each of its fields would be
    drop(claim);
    Err(CertificateError::Syntax(line.number))
}
