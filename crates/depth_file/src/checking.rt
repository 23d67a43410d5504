//! Whole texts, judged as one piece.
ghost use Rattle.std.specs.Prelude.{length, Ok, IfOk};
ghost use Rattle.text_core.specs.Lines.{lines_of};
ghost use Rattle.op_basis.specs.Basis.{members};
ghost use Rattle.tt_core.specs.Words.{specification};
ghost use Rattle.depth_theory.specs.DepthCertificate.{DepthCertificate};
ghost use Rattle.depth_theory.specs.DepthGives.{Gives};
ghost use Rattle.depth_theory.specs.DepthJudging as judging;
ghost use Rattle.depth_theory.specs.DepthMeaning.{Means};
ghost use Rattle.depth_theory.specs.DepthSpelling.{IsDepthText, HasDepth};

use crate::reader::DepthReader;
use depth_theory::{DepthError, DepthVerdict};
use std::alloc::Global;

/// Judges a text as the definition does.
fn judge(alloc: Global, bytes: &[u8]) -> Result<DepthVerdict, DepthError>
    ensures { judging.Judged (Gives (λ v. v) result) (lines_of bytes.now) }
{
    let reader = DepthReader::new(alloc).feed(bytes)?;
    reader.finish()
}

/// Judges a text as a depth certificate: returns its verdict, or else its first fault.
#[tactic(auto, using(crate::specs::EndLaws::judges))]
pub fn check_depth(alloc: Global, bytes: &[u8]) -> Result<DepthVerdict, DepthError>
    // A text with a verdict is that of a depth certificate with the same verdict, and each such text has one.
    ensures verdict { IfOk result (λ v. HasDepth bytes.now v) }
    ensures accepted { (b : DepthCertificate) → IsDepthText bytes.now b → Gives (λ v. v) result (Ok b.verdict) }
    // The verdict is true of the tables and the basis in the text.
    ensures means { IfOk result (λ v. (b : DepthCertificate) (is : IsDepthText bytes.now b) →
        Means (specification b.certificate.header.spec) (members b.certificate.header.basis)
        (length is.is_depth.chain.steps) v) }
    // A text is refused exactly if the definition has a fault, and with the first one from the top.
    ensures exact { judging.Judged (Gives (λ v. v) result) (lines_of bytes.now) }
{
    judge(alloc, bytes)
}
