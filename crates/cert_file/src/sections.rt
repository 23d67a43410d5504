//! The lines between the logs.
ghost use Rattle.std.specs.Prelude.{◌≡◌, ℕ, ◌+◌, ◌<◌, ◌≤◌, ◌^◌, List, ◌∷◌, length, drop, Some, IfOk, OnOk};
ghost use Rattle.text_core.specs.Lines.{Line};
ghost use Rattle.cert_theory.specs.Gives.{Gives};
ghost use Rattle.cert_theory.specs.Judging as judging;
ghost use Rattle.cert_theory.specs.Certificate.{subproblems_of};
ghost use Rattle.line_reader.specs.TextLines.{line_of};
ghost use Rattle.line_reader.specs.Splits.{IsPlace};
ghost use Rattle.cert_file.specs.HeaderLines.{header_in};
ghost use Rattle.cert_file.specs.Stages.{Answer, Judged, AnswersLines, IsStage, IsKnown};
ghost use Rattle.cert_file.specs.Claims.{KeepsClaim};

use crate::formulas::subproblems_of;
use crate::lines::{TextLine, begins, number_after};
use crate::stage::{NextSize, Running, Stage};
use crate::trailer::at_trailer;
use cert_theory::{CertificateError, Header};
use std::alloc::Global;

/// The line of a size, which must be the next size.
#[tactic(auto, unfolding(cert_theory::specs::Judging::size_at))]
fn size_at(header: &Header, size: u32, line: &TextLine) -> Result<(), CertificateError>
    ensures within { OnOk result (size ≤ header.now.max) }
    ensures exact { Gives (λ x. x) result (judging.size_at header.now line.now.number size (line_of line.now)) }
{
    let Some(stated) = number_after(b"size ", line) else {
        return Err(CertificateError::Syntax(line.number));
    };
    if stated != size || stated > header.max {
        return Err(CertificateError::SizeOutOfOrder(line.number));
    }
    Ok(())
}

/// The stage after the line of a size, or after a log: the next subproblem or, after the last one, the next
/// size.
pub(crate) fn due(running: Running) -> Stage
    requires known { IsKnown running.header }
    requires size { running.size ≤ running.header.max }
    requires subproblems { running.subproblems.items ≡ subproblems_of running.header running.size }
    requires at { running.at ≤ length running.subproblems.items }
    ensures keeps { (number : ℕ) → IsStage result number }
    ensures stands { (number : ℕ) (ls : List Line) (answer : Answer) →
        answer ≡ judging.sections_of running.header number
        (judging.before running.size running.low (drop running.at running.subproblems.items)) ls →
        AnswersLines result number ls answer }
    ensures keeps_claim { (number : ℕ) (ls all : List Line) → header_in all ≡ Some running.header →
        KeepsClaim result number ls all }
{
    if running.at < running.subproblems.len() {
        return Stage::Due { running };
    }
    let Running {
        header,
        size,
        low,
        ..
    } = running;
    Stage::Between {
        next: NextSize {
            header,
            size: size + 1,
            low,
        },
    }
}

/// The line of the next size, or the first line of the trailer.
#[tactic(auto, unfolding(cert_theory::specs::Judging::sections_of))]
pub(crate) fn at_between(
    alloc: Global,
    next: NextSize,
    line: &TextLine,
) -> Result<Stage, CertificateError>
    requires known { IsKnown next.header }
    requires number { line.now.number < 2 ^ 32 }
    ensures keeps { IfOk result (λ s. IsStage s (line.now.number + 1)) }
    ensures answer { (ls : List Line) (answer : Answer) →
        answer ≡ judging.sections_of next.header line.now.number (record {
          size = next.size;
          low = next.low;
          place = judging.Between;
        }) (line_of line.now ∷ ls) → Judged result (line.now.number + 1) ls answer }
    ensures keeps_claim { (ls all : List Line) → IsPlace line.now.number (line_of line.now ∷ ls) all →
        header_in all ≡ Some next.header → IfOk result (λ s. KeepsClaim s (line.now.number + 1) ls all) }
{
    if !begins(b"size ", line) {
        return at_trailer(alloc, next, line);
    }
    let NextSize { header, size, low } = next;
    size_at(&header, size, line)?;
    let subproblems = subproblems_of(alloc, &header, size)?;
    Ok(due(Running {
        header,
        size,
        low,
        subproblems,
        at: 0,
    }))
}
