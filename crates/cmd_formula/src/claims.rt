//! What a certificate claims, or its refusal, which is that of `recheck`.
ghost use Rattle.std.specs.Prelude.{◌≤◌, length, Err, IfOk, IfErr};
ghost use Rattle.text_core.specs.Lines.{lines_of};
ghost use Rattle.cert_theory.specs.Certificate.{Certificate};
ghost use Rattle.cert_theory.specs.Gives.{Gives};
ghost use Rattle.cert_theory.specs.Judging.{certificate_of};
ghost use Rattle.cert_theory.specs.Spelling.{IsCertificateText};
ghost use Rattle.cert_file.specs.Claims.{IsClaim};
ghost use Rattle.depth_theory.specs.Verdicts.{most_of_certificate};
ghost use Rattle.frame_core.specs.Views.{Judges};
ghost use Rattle.cmd_recheck.specs.RecheckReport.{recheck_task};
ghost use Rattle.cmd_formula.specs.Claimed.{IsClaimed};

use cert_file::{CertificateError, CertificateReader, Claim, claim_at_end};
use cmd_recheck::{CertificateKind, Steps};
use frame_core::Stop;
use std::alloc::Global;

/// Reads the text of a certificate.
fn read(alloc: Global, bytes: &[u8]) -> Result<Claim, CertificateError>
    ensures exact { Gives (λ t. t.verdict) result (certificate_of (lines_of bytes.now)) }
    ensures claim { (b : Certificate) → IsCertificateText bytes.now b → IfOk result (λ t. IsClaim b t) }
{
    match CertificateReader::new(alloc).feed(bytes) {
        Ok(reader) => claim_at_end(reader),
        Err(error) => Err(error),
    }
}

/// What the certificate claims if it is valid; else the refusal of `recheck`.
#[tactic(auto, using(crate::proofs::Finding::finding))]
pub(crate) fn claim_in(alloc: Global, bytes: &[u8]) -> Result<Claim, Stop>
    requires { length bytes.now ≤ most_of_certificate }
    ensures claimed { IfOk result (λ t. IsClaimed bytes.now t) }
    ensures stop { IfErr result (λ stop. Judges recheck_task bytes.now (Err stop)) }
{
    match read(alloc, bytes) {
        Ok(claim) => Ok(claim),
        Err(error) => Err(Steps.stop(error)),
    }
}
