//! Certificates of the fewest steps, as a kind for the job of `recheck`.
ghost use Rattle.std.specs.Prelude.{◌≡◌, IfOk, refl};
ghost use Rattle.depth_theory.specs.Verdicts.{most_of_certificate};
ghost use Rattle.cmd_recheck.specs.RecheckReport.{verdict_text, recheck_refusal, recheck_task};
ghost use Rattle.frame_core.specs.Views.{refusal_value};

use crate::certificates::{certificate_status, name_certificate};
use crate::job::{CertificateKind, MOST_BYTES};
use cert_file::{CertificateError, Stage, Verdict};
use frame_core::{Field, Refusal, Stop};
use std::alloc::{AllocError, Global};
use text_core::push_number;

/// A fault as a refusal.
#[tactic(auto, unfolding(frame_core::specs::Views::shown))]
pub(crate) fn refusal_of(error: CertificateError) -> Refusal
    ensures { refusal_value result ≡ recheck_refusal error }
{
    Refusal {
        status: certificate_status(error),
        line: name_certificate(Field::Nothing, error),
    }
}

/// The text of a verdict.
#[tactic(auto, unfolding(crate::specs::RecheckReport::verdict_text, cert_theory::specs::Spelling::verdict_line))]
pub(crate) fn verdict_bytes(alloc: Global, verdict: Verdict) -> Result<Vec<u8>, AllocError>
    ensures { IfOk result (λ text. text.items ≡ verdict_text verdict) }
{
    let mut text = Vec::new(alloc);
    match verdict {
        Verdict::Minimum(r) => {
            text.extend_from_slice(b"minimum ")?;
            push_number(&mut text, r)?;
        }
        Verdict::NoChain(x) => {
            text.extend_from_slice(b"none ")?;
            push_number(&mut text, x)?;
        }
        Verdict::Bounded { low, r } => {
            text.extend_from_slice(b"bounded ")?;
            push_number(&mut text, low)?;
            text.extend_from_slice(b" ")?;
            push_number(&mut text, r)?;
        }
        Verdict::Open { low } => {
            text.extend_from_slice(b"open ")?;
            push_number(&mut text, low)?;
        }
    }
    text.extend_from_slice(b"\n")?;
    Ok(text)
}

/// The certificates of the fewest steps.
#[derive(Drop)]
pub struct Steps;

impl CertificateKind for Steps {
    type Lines = Stage;

    ghost task = { λ _. recheck_task };

    ghost most = { λ _. most_of_certificate };

    ghost reads = { λ kind. refl };

    fn most_bytes(&self) -> usize {
        MOST_BYTES
    }

    fn text_of(&self, alloc: Global, verdict: Verdict) -> Result<Vec<u8>, AllocError> {
        verdict_bytes(alloc, verdict)
    }

    fn stop(&self, error: CertificateError) -> Stop {
        match error {
            CertificateError::Memory => Stop::NoMemory,
            error => Stop::NoAnswer(refusal_of(error)),
        }
    }
}
