//! The steps from stage to stage, one line at a time. The argument: a stage determines the answer of the whole
//! text, whatever lines follow. So the first refusal is that of the text, and the last stage has its answer.
ghost use Rattle.std.specs.Prelude.{◌≡◌, ◌+◌, ◌<◌, ℕ, List, [], ◌∷◌, length, drop, IfOk};
ghost use Rattle.text_core.specs.Lines.{Line};
ghost use Rattle.enc_theory.specs.declared.subproblem.Subproblem.TheVariants.{Levels};
ghost use Rattle.cert_theory.specs.Certificate as certificates;
ghost use Rattle.cert_theory.specs.Judging.{low_with as low_with_of};
ghost use Rattle.line_reader.specs.Splits.{HasNoEnd};
ghost use Rattle.line_reader.specs.TextLines.{line_of};
ghost use Rattle.depth_theory.specs.DepthCertificate.{levels_found};
ghost use Rattle.depth_theory.specs.DepthGives.{Gives};
ghost use Rattle.depth_theory.specs.DepthJudging as judging;
ghost use Rattle.depth_theory.specs.DepthJudging.{Answer};
ghost use Rattle.depth_file.specs.Stages as stages;
ghost use Rattle.depth_file.specs.Stages.{IsStage, IsByFences, IsFenceCursor, IsRunning, IsNext, IsAfterPrefix};
ghost use Rattle.depth_file.specs.Stages.{IsBegun, IsLogging, AnswersLines, Judged};
ghost use Rattle.depth_file.specs.Stages.{due_of, later_of, fences_from};

use crate::certificate::{after_certificate, at_prefix};
use crate::fences::flatter_subproblems;
use crate::lines::{depth_at, fault_at, name_at, verdict_at};
use crate::stage::{FenceCursor, LeveledChain, Stage};
use cert_file::{SubproblemReader, SubproblemStep, TextLine, ended_in, is_line, low_with};
use cert_theory::LogEnd;
use cnf_core::Cnf;
use depth_theory::{DepthError, DepthVerdict};
use enc_base::Encoding;
use enc_fence::FenceEnc;
use enc_theory::Subproblem;
use std::alloc::{AllocError, Global};

/// The numbers of steps on the levels of a fence.
fn levels_of(subproblem: &Subproblem) -> &[u32]
    ensures { (fence : List ℕ) → subproblem.now ≡ Levels fence → result.now ≡ fence }
{
    match subproblem {
        Subproblem::Levels(fence) => fence.levels(),
        Subproblem::Whole => &[],
    }
}

/// The subproblem of the fence that is read or due.
fn subproblem_in(flat: &FenceCursor) -> &Subproblem
    requires { IsRunning flat.now }
    ensures { drop flat.now.at flat.now.fences.items ≡ result.now ∷ drop (flat.now.at + 1) flat.now.fences.items }
{
    &flat.fences[flat.at]
}

/// The fence that is read or due.
#[tactic(auto, using(crate::proofs::Going::fences))]
fn fence_of(flat: &FenceCursor) -> &[u32]
    requires { IsRunning flat.now }
    ensures next { IsNext flat.now result.now }
    ensures few { length result.now < flat.now.chain.levels }
{
    levels_of(subproblem_in(flat))
}

/// The verdict that follows from the first open fence, if there is one.
fn found(low: Option<u32>, levels: u32) -> DepthVerdict
    ensures { result ≡ levels_found low levels }
{
    match low {
        None => DepthVerdict::Levels(levels),
        Some(low) => DepthVerdict::Bounded { low, levels },
    }
}

/// Reads the line with the depth.
#[tactic(auto, unfolding(depth_theory::specs::DepthJudging::after_chain))]
fn at_depth(alloc: Global, chain: LeveledChain, line: &TextLine) -> Result<Stage, DepthError>
    requires { IsByFences chain }
    ensures keeps { IfOk result IsStage }
    ensures answer { (ls : List Line) (answer : Answer) →
        answer ≡ judging.after_chain chain.header chain.size chain.levels line.now.number (line_of line.now ∷ ls) →
        Judged result (line.now.number + 1) ls answer }
{
    depth_at(line, chain.levels)?;
    let fences = flatter_subproblems(alloc, &chain.header.spec, chain.size, chain.levels)?;
    Ok(Stage::Due {
        flat: FenceCursor {
            chain,
            fences,
            at: 0,
            low: None,
        },
    })
}

/// Reads the name of the next fence, or the verdict if none is left.
#[tactic(auto, using(crate::proofs::Going::going), unfolding(depth_theory::specs::DepthJudging::flat_from))]
fn at_due(alloc: Global, flat: FenceCursor, line: &TextLine) -> Result<Stage, DepthError>
    requires { IsFenceCursor flat }
    ensures keeps { IfOk result (λ s. IsStage s) }
    ensures answer { (lines ls : List Line) (answer : Answer) →
        answer ≡ fences_from flat line.now.number flat.low (judging.Due (due_of flat)) lines →
        lines ≡ line_of line.now ∷ ls → Judged result (line.now.number + 1) ls answer }
{
    if flat.at < flat.fences.len() {
        name_at(alloc, line, fence_of(&flat))?;
        return Ok(Stage::Begun { flat });
    }
    let verdict = verdict_at(line, found(flat.low, flat.chain.levels))?;
    Ok(Stage::End { verdict })
}

/// The formula of the current fence.
#[tactic(auto, using(crate::proofs::Going::formulas))]
fn formula_of(alloc: Global, flat: &FenceCursor) -> Result<Cnf, AllocError>
    requires { IsRunning flat.now }
    ensures { (fence : List ℕ) → IsNext flat.now fence →
        IfOk result (λ cnf. cnf ≡ certificates.formula_of flat.now.chain.header flat.now.chain.size (Levels fence)) }
{
    FenceEnc.formula(
        alloc,
        &flat.chain.header.spec,
        flat.chain.header.basis,
        flat.chain.size,
        subproblem_in(flat),
    )
}

/// Reads the line that begins the log of a fence.
#[tactic(auto, unfolding(depth_theory::specs::DepthJudging::flat_from))]
fn at_begun(alloc: Global, flat: FenceCursor, line: &TextLine) -> Result<Stage, DepthError>
    requires { IsRunning flat }
    ensures keeps { IfOk result (λ s. IsStage s) }
    ensures answer { (lines ls : List Line) (answer : Answer) → IsBegun flat line.now.number lines answer →
        lines ≡ line_of line.now ∷ ls → Judged result (line.now.number + 1) ls answer }
{
    let Some(end) = ended_in(line) else {
        return Err(DepthError::Syntax(line.number));
    };
    let cnf = formula_of(alloc, &flat)?;
    let reader = SubproblemReader::new(alloc, cnf, flat.chain.header.conflicts, end)?;
    Ok(Stage::Within { flat, reader })
}

/// The stage after a fence whose log has ended.
#[tactic(auto, using(crate::proofs::Going::going))]
fn following(flat: FenceCursor, end: LogEnd) -> Stage
    requires { IsRunning flat }
    ensures keeps { IsStage result }
    ensures stands { (number : ℕ) (fence : List ℕ) (ls : List Line) (answer : Answer) → IsNext flat fence →
        answer ≡ fences_from flat number (low_with_of flat.low end (length fence)) (judging.Due (later_of flat)) ls →
        AnswersLines result number ls answer }
{
    let levels = fence_of(&flat).len() as u32;
    let mut flat = flat;
    flat.at += 1;
    flat.low = low_with(flat.low, end, levels);
    Stage::Due { flat }
}

/// Reads a line of a log, or its end.
#[tactic(auto, unfolding(depth_theory::specs::DepthJudging::flat_from))]
fn at_within(
    alloc: Global,
    flat: FenceCursor,
    reader: SubproblemReader,
    line: &TextLine,
) -> Result<Stage, DepthError>
    requires { IsRunning flat }
    ensures keeps { IfOk result (λ s. IsStage s) }
    ensures answer { (lines ls : List Line) (answer : Answer) → IsLogging flat reader line.now.number lines answer →
        lines ≡ line_of line.now ∷ ls → Judged result (line.now.number + 1) ls answer }
{
    let end = reader.ended();
    match reader.feed(alloc, line.text, line.ended) {
        Ok(SubproblemStep::More(reader)) => Ok(Stage::Within { flat, reader }),
        Ok(SubproblemStep::Done) => Ok(following(flat, end)),
        Err(fault) => Err(fault_at(line.number, fault)),
    }
}

/// Reads the last line.
#[tactic(auto, unfolding(depth_theory::specs::DepthJudging::end_of))]
fn at_end(verdict: DepthVerdict, line: &TextLine) -> Result<Stage, DepthError>
    ensures keeps { IfOk result (λ s. IsStage s) }
    ensures answer { (ls : List Line) (answer : Answer) →
        answer ≡ judging.end_of line.now.number verdict (line_of line.now ∷ ls) →
        Judged result (line.now.number + 1) ls answer }
{
    if !is_line(b"end", line) {
        return Err(DepthError::Syntax(line.number));
    }
    Ok(Stage::Done { verdict })
}

/// Reads the next line.
pub(crate) fn take(alloc: Global, stage: Stage, line: &TextLine) -> Result<Stage, DepthError>
    requires stage { IsStage stage }
    ensures keeps { IfOk result (λ s. IsStage s) }
    ensures answer { (lines ls : List Line) (answer : Answer) → HasNoEnd line.now.text.now →
        AnswersLines stage line.now.number lines answer →
        lines ≡ line_of line.now ∷ ls → Judged result (line.now.number + 1) ls answer }
{
    match stage {
        Stage::Prefix { reader } => at_prefix(alloc, reader, line),
        Stage::Depth { chain } => at_depth(alloc, chain, line),
        Stage::Due { flat } => at_due(alloc, flat, line),
        Stage::Begun { flat } => at_begun(alloc, flat, line),
        Stage::Within { flat, reader } => at_within(alloc, flat, reader, line),
        Stage::End { verdict } => at_end(verdict, line),
        Stage::Done { .. } => Err(DepthError::Syntax(line.number)),
    }
}

/// The verdict, if nothing more is due.
fn verdict_in(stage: &Stage) -> Option<DepthVerdict>
    ensures { result ≡ stages.verdict_in stage.now }
{
    match stage {
        Stage::Done { verdict } => Some(*verdict),
        _ => None,
    }
}

/// The stage at the end of the text. A certificate without a line `end` ends with the text.
#[tactic(auto, using(crate::proofs::After::closing))]
fn closed(alloc: Global, stage: Stage) -> Result<Stage, DepthError>
    requires { IsStage stage }
    ensures following { IfOk result (λ s. IsAfterPrefix s) }
    ensures answer { (number : ℕ) (answer : Answer) → AnswersLines stage number [] answer →
        Judged result number [] answer }
{
    match stage {
        Stage::Prefix { reader } => after_certificate(alloc, reader),
        stage => Ok(stage),
    }
}

/// The verdict of the text, or its fault, where no line is left.
pub(crate) fn verdict_of(
    alloc: Global,
    stage: Stage,
    number: u32,
) -> Result<DepthVerdict, DepthError>
    requires { IsStage stage }
    ensures { (answer : Answer) → AnswersLines stage number [] answer → Gives (λ v. v) result answer }
{
    let stage = closed(alloc, stage)?;
    let verdict = verdict_in(&stage);
    // for the prover: dropped before the exits, of which each would drop it
    drop(stage);
    let Some(verdict) = verdict else {
        return Err(DepthError::Syntax(number));
    };
    Ok(verdict)
}
