//! Certificates of the fewest levels, as a kind for the job of `recheck`.
ghost use Rattle.std.specs.Prelude.{◌≡◌, IfOk, refl};
ghost use Rattle.frame_core.specs.Views.{line_value, refusal_value};
ghost use Rattle.depth_theory.specs.Verdicts.{most_of_certificate};
ghost use Rattle.cmd_recheck.specs.RecheckDepthReport.{levels_text, depth_status as depth_status_of, named_inside};
ghost use Rattle.cmd_recheck.specs.RecheckDepthReport.{named_depth, depth_refusal, depth_task};

use crate::certificates::{certificate_status, name_certificate, name_step};
use crate::job::{CertificateKind, MOST_BYTES};
use cert_file::CertificateError;
use depth_file::{DepthError, DepthVerdict, Stage};
use frame_core::{ErrorLine, Field, Refusal, Status, Stop};
use std::alloc::{AllocError, Global};
use text_core::push_number;

/// The status of a fault.
fn depth_status(error: DepthError) -> Status
    ensures { result ≡ depth_status_of error }
{
    match error {
        DepthError::Certificate(error) => certificate_status(error),
        DepthError::Syntax(_) => Status::Malformed,
        DepthError::Memory => Status::Memory,
        DepthError::NotLeastForm
        | DepthError::WrongDepth(_)
        | DepthError::StepRefused(_, _)
        | DepthError::NotNew(_)
        | DepthError::NotRefuted(_)
        | DepthError::OpenTooShort(_)
        | DepthError::WrongLevels(_) => Status::Refused,
    }
}

/// The error line of a fault in the certificate of the fewest steps.
#[tactic(auto, unfolding(frame_core::specs::Reported::memory, frame_core::specs::Views::shown), // for the prover
using(crate::proofs::RecheckingDepth::inside))]
fn name_inside(error: CertificateError) -> ErrorLine
    ensures { line_value result ≡ named_inside error }
{
    match error {
        CertificateError::Memory => ErrorLine::plain(b"Memory"),
        error => name_certificate(Field::Known(b"Bundle"), error),
    }
}

/// The error line of a fault.
#[tactic(auto, // for the prover
unfolding(crate::specs::RecheckDepthReport::named_depth, frame_core::specs::Reported::memory, // for the prover
frame_core::specs::Views::shown))]
fn name_depth(error: DepthError) -> ErrorLine
    ensures { line_value result ≡ named_depth error }
{
    match error {
        DepthError::Certificate(error) => name_inside(error),
        DepthError::NotLeastForm => ErrorLine::plain(b"NotLeastForm"),
        DepthError::Syntax(line) => ErrorLine::at(b"Syntax", line),
        DepthError::WrongDepth(line) => ErrorLine::at(b"WrongDepth", line),
        DepthError::StepRefused(line, error) => name_step(Field::Nothing, line, error),
        DepthError::NotNew(line) => ErrorLine::at(b"NotNew", line),
        DepthError::NotRefuted(line) => ErrorLine::at(b"NotRefuted", line),
        DepthError::OpenTooShort(line) => ErrorLine::at(b"OpenTooShort", line),
        DepthError::WrongLevels(line) => ErrorLine::at(b"WrongLevels", line),
        DepthError::Memory => ErrorLine::plain(b"Memory"),
    }
}

/// A fault as a refusal.
pub(crate) fn refusal_of(error: DepthError) -> Refusal
    ensures { refusal_value result ≡ depth_refusal error }
{
    Refusal {
        status: depth_status(error),
        line: name_depth(error),
    }
}

/// The text of a verdict.
#[tactic(auto, // for the prover
unfolding(crate::specs::RecheckDepthReport::levels_text, depth_theory::specs::DepthSpelling::levels_line))]
pub(crate) fn levels_bytes(alloc: Global, verdict: DepthVerdict) -> Result<Vec<u8>, AllocError>
    ensures { IfOk result (λ text. text.items ≡ levels_text verdict) }
{
    let mut text = Vec::new(alloc);
    match verdict {
        DepthVerdict::Levels(levels) => {
            text.extend_from_slice(b"levels ")?;
            push_number(&mut text, levels)?;
        }
        DepthVerdict::Bounded { low, levels } => {
            text.extend_from_slice(b"levels-bounded ")?;
            push_number(&mut text, low)?;
            text.extend_from_slice(b" ")?;
            push_number(&mut text, levels)?;
        }
    }
    text.extend_from_slice(b"\n")?;
    Ok(text)
}

/// The certificates of the fewest levels.
#[derive(Drop)]
pub struct Levels;

impl CertificateKind for Levels {
    type Lines = Stage;

    ghost task = { λ _. depth_task };

    ghost most = { λ _. most_of_certificate };

    ghost reads = { λ kind. refl };

    fn most_bytes(&self) -> usize {
        MOST_BYTES
    }

    fn text_of(&self, alloc: Global, verdict: DepthVerdict) -> Result<Vec<u8>, AllocError> {
        levels_bytes(alloc, verdict)
    }

    fn stop(&self, error: DepthError) -> Stop {
        match error {
            DepthError::Memory => Stop::NoMemory,
            error => Stop::NoAnswer(refusal_of(error)),
        }
    }
}
