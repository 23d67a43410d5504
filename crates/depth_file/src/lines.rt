//! Single lines after the certificate.
ghost use Rattle.std.specs.Prelude.{◌≡◌};
ghost use Rattle.cert_theory.specs.SubproblemLines as subproblems;
ghost use Rattle.line_reader.specs.TextLines.{line_of};
ghost use Rattle.depth_theory.specs.DepthGives.{Gives};
ghost use Rattle.depth_theory.specs.DepthJudging as judging;

use cert_file::{TextLine, VerdictNumbers, is_fence_name, is_line, number_after, numbered_in};
use cert_theory::{SubproblemError, fence_name};
use depth_theory::{DepthError, DepthVerdict};
use std::alloc::Global;

/// A fault of a log, with its line number.
pub(crate) fn fault_at(number: u32, fault: SubproblemError) -> DepthError
    ensures { result ≡ judging.fault_at number fault }
{
    match fault {
        SubproblemError::Syntax => DepthError::Syntax(number),
        SubproblemError::StepRefused(fault) => DepthError::StepRefused(number, fault),
        SubproblemError::NotNew => DepthError::NotNew(number),
        SubproblemError::NotRefuted => DepthError::NotRefuted(number),
        SubproblemError::TooShort => DepthError::OpenTooShort(number),
        SubproblemError::EmptyClauseDerived => DepthError::WrongLevels(number),
        SubproblemError::Memory => DepthError::Memory,
    }
}

/// The verdict that a line states.
fn levels_in(line: &TextLine) -> Option<DepthVerdict>
    ensures { result ≡ judging.levels_in (line_of line.now) }
{
    let Some(numbers) = numbered_in(b"levels ", b"levels-bounded ", line) else {
        return None;
    };
    match numbers {
        VerdictNumbers::One(levels) => Some(DepthVerdict::Levels(levels)),
        VerdictNumbers::Two { low, most } => Some(DepthVerdict::Bounded { low, levels: most }),
    }
}

/// Whether two verdicts are the same.
fn is_same(verdict: DepthVerdict, due: DepthVerdict) -> bool
    ensures { result ≡ judging.is_same verdict due }
{
    match (verdict, due) {
        (DepthVerdict::Levels(d), DepthVerdict::Levels(e)) => d == e,
        (
            DepthVerdict::Bounded { low, levels },
            DepthVerdict::Bounded {
                low: least,
                levels: most,
            },
        ) => low == least && levels == most,
        _ => false,
    }
}

/// Reads the verdict, where no fence is left. The name of a fence there is a fault of its own.
#[tactic(auto, unfolding(depth_theory::specs::DepthJudging::verdict_at))]
pub(crate) fn verdict_at(line: &TextLine, due: DepthVerdict) -> Result<DepthVerdict, DepthError>
    ensures { Gives (λ v. v) result (judging.verdict_at line.now.number due (line_of line.now)) }
{
    if is_fence_name(line) {
        return Err(DepthError::NotRefuted(line.number));
    }
    let Some(verdict) = levels_in(line) else {
        return Err(DepthError::Syntax(line.number));
    };
    if !is_same(verdict, due) {
        return Err(DepthError::WrongLevels(line.number));
    }
    Ok(verdict)
}

/// Whether a line could follow where the name of a fence is due.
#[tactic(auto, unfolding(depth_theory::specs::DepthJudging::may_follow))]
fn may_follow(line: &TextLine) -> bool
    ensures { result ≡ judging.may_follow (line_of line.now) }
{
    is_fence_name(line) || levels_in(line).is_some()
}

/// Reads the name of a fence: the number of steps on each level.
#[tactic(auto, unfolding(cert_theory::specs::SubproblemLines::name_in))]
pub(crate) fn name_at(alloc: Global, line: &TextLine, fence: &[u32]) -> Result<(), DepthError>
    ensures { Gives (λ x. x) result (judging.at_line line.now.number
        (subproblems.name_in (judging.may_follow (line_of line.now)) fence.now (line_of line.now))) }
{
    let name = fence_name(alloc, fence)?;
    if is_line(&name, line) {
        return Ok(());
    }
    if may_follow(line) {
        return Err(DepthError::NotRefuted(line.number));
    }
    Err(DepthError::Syntax(line.number))
}

/// Reads the line with the depth.
#[tactic(auto, unfolding(depth_theory::specs::DepthJudging::depth_at))]
pub(crate) fn depth_at(line: &TextLine, depth: u32) -> Result<(), DepthError>
    ensures { Gives (λ x. x) result (judging.depth_at line.now.number depth (line_of line.now)) }
{
    let Some(stated) = number_after(b"depth ", line) else {
        return Err(DepthError::Syntax(line.number));
    };
    if stated != depth {
        return Err(DepthError::WrongDepth(line.number));
    }
    Ok(())
}
