//! The certificate at the head of a depth certificate. Its lines go to the certificate reader, which returns the
//! header and the chain after the first line `end`.
ghost use Rattle.std.specs.Prelude.{◌≡◌, ◌+◌, ℕ, List, ◌∷◌, IfOk};
ghost use Rattle.text_core.specs.Lines.{Line};
ghost use Rattle.line_reader.specs.Splits.{HasNoEnd};
ghost use Rattle.cert_file.specs.Reader.{seen, IsReader};
ghost use Rattle.line_reader.specs.TextLines.{line_of};
ghost use Rattle.depth_theory.specs.DepthJudging.{Answer};
ghost use Rattle.depth_file.specs.Prefixes.{as_whole, IsInPrefix, IsAfter};
ghost use Rattle.depth_file.specs.Stages.{IsStage, IsAfterPrefix, Judged};

use crate::stage::{LeveledChain, Stage};
use cert_file::{
    CertificateError, CertificateReader, Claim, TextLine, Verdict, claim_at_end, is_line,
};
use chain_core::depth_of;
use depth_theory::DepthError;
use settings::Method;
use std::alloc::Global;

/// A fault of the certificate, as a fault of the whole text.
fn fault_of(error: CertificateError) -> DepthError
    ensures { result ≡ as_whole error }
{
    match error {
        CertificateError::Memory => DepthError::Memory,
        _ => DepthError::Certificate(error),
    }
}

/// The next stage after the certificate was read to its end.
#[tactic(auto, using(crate::proofs::After::following))]
pub(crate) fn after_certificate(
    alloc: Global,
    reader: CertificateReader,
) -> Result<Stage, DepthError>
    requires { IsReader (seen reader) }
    ensures keeps { IfOk result IsStage }
    ensures following { IfOk result IsAfterPrefix }
    ensures answer { (number : ℕ) (ls : List Line) (answer : Answer) → IsAfter reader number ls answer →
        Judged result number ls answer }
{
    let Claim {
        header,
        chain,
        verdict,
    } = match claim_at_end(reader) {
        Ok(claim) => claim,
        Err(error) => return Err(fault_of(error)),
    };
    let Verdict::Minimum(_) = verdict else {
        return Err(DepthError::NotLeastForm);
    };
    let Method::Fence = header.method else {
        return Err(DepthError::NotLeastForm);
    };
    let Some(chain) = chain else {
        return Err(DepthError::NotLeastForm);
    };
    let size = chain.steps().len() as u32;
    let levels = depth_of(alloc, &chain)?;
    Ok(Stage::Depth {
        chain: LeveledChain {
            header,
            size,
            levels,
        },
    })
}

/// Reads a line of the certificate.
#[tactic(auto, using(crate::proofs::After::following))]
pub(crate) fn at_prefix(
    alloc: Global,
    reader: CertificateReader,
    line: &TextLine,
) -> Result<Stage, DepthError>
    requires whole { IsReader (seen reader) }
    ensures keeps { IfOk result IsStage }
    ensures answer { (lines ls : List Line) (answer : Answer) → HasNoEnd line.now.text.now →
        IsInPrefix reader line.now.number lines answer →
        lines ≡ line_of line.now ∷ ls → Judged result (line.now.number + 1) ls answer }
{
    let reader = match reader.feed_line(line.text, line.ended) {
        Ok(reader) => reader,
        Err(error) => return Err(fault_of(error)),
    };
    if is_line(b"end", line) {
        return after_certificate(alloc, reader);
    }
    Ok(Stage::Prefix { reader })
}
