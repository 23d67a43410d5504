//! The statuses and error lines of faults of certificates, for both kinds of certificates.
ghost use Rattle.std.specs.Prelude.{◌≡◌, ◌++◌, ◌∷◌, []};
ghost use Rattle.frame_core.specs.Reported.{at as at_of};
ghost use Rattle.frame_core.specs.Views.{shown, line_value};
ghost use Rattle.cmd_recheck.specs.RecheckReport.{certificate_status as certificate_status_of, refused_step, two_of};
ghost use Rattle.cmd_recheck.specs.RecheckReport.{named_step, named_certificate};

use cert_file::CertificateError;
use frame_core::{ErrorLine, Field, Status};
use lrat_check::CheckError;

/// The status of a fault.
pub(crate) fn certificate_status(error: CertificateError) -> Status
    ensures { result ≡ certificate_status_of error }
{
    match error {
        CertificateError::Syntax(_) => Status::Malformed,
        CertificateError::Memory => Status::Memory,
        CertificateError::SizeOutOfOrder(_)
        | CertificateError::StepRefused(_, _)
        | CertificateError::NotRefuted(_)
        | CertificateError::ChainDiffers(_, _)
        | CertificateError::OperatorNotInBasis(_)
        | CertificateError::OpenTooShort(_)
        | CertificateError::NotNew(_)
        | CertificateError::WrongVerdict(_) => Status::Refused,
    }
}

/// A refused log line: its number, the name of its fault, and the id or variable of the fault.
#[tactic(auto, unfolding(frame_core::specs::Views::shown))]
fn step(lead: Field, line: u32, word: &'static [u8], of: Field) -> ErrorLine
    ensures { line_value result ≡ shown (lead ∷ []) ++ refused_step line word.now (shown (of ∷ [])) }
{
    ErrorLine::following(
        lead,
        b"StepRefused",
        Field::Count(line),
        Field::Known(word),
        of,
    )
}

/// The error line of a refused log line, after the word `lead` unless that is `Nothing`.
#[tactic(auto, unfolding(crate::specs::RecheckReport::named_step, frame_core::specs::Views::shown))]
pub(crate) fn name_step(lead: Field, line: u32, error: CheckError) -> ErrorLine
    ensures { line_value result ≡ shown (lead ∷ []) ++ named_step line error }
{
    match error {
        CheckError::UnknownId(id) => step(lead, line, b"UnknownId", Field::Count(id)),
        CheckError::NotUnit(id) => step(lead, line, b"NotUnit", Field::Count(id)),
        CheckError::NoConflict => step(lead, line, b"NoConflict", Field::Nothing),
        CheckError::UnknownDelete(id) => step(lead, line, b"UnknownDelete", Field::Count(id)),
        CheckError::IdNotGreater(id) => step(lead, line, b"IdNotGreater", Field::Count(id)),
        CheckError::UnknownVariable(variable) => step(
            lead,
            line,
            b"UnknownVariable",
            Field::Count(variable),
        ),
        CheckError::Memory => step(lead, line, b"Memory", Field::Nothing),
    }
}

/// A variant with two numbers.
#[tactic(auto, unfolding(frame_core::specs::Views::shown))]
fn two(lead: Field, name: &'static [u8], number: u32, last: u32) -> ErrorLine
    ensures { line_value result ≡ shown (lead ∷ []) ++ two_of name.now number last }
{
    ErrorLine::led(lead, name, Field::Count(number), Field::Count(last))
}

/// A variant with a number.
#[tactic(auto, unfolding(frame_core::specs::Views::shown))]
fn at(lead: Field, name: &'static [u8], number: u32) -> ErrorLine
    ensures { line_value result ≡ shown (lead ∷ []) ++ at_of name.now number }
{
    ErrorLine::led(lead, name, Field::Count(number), Field::Nothing)
}

/// The error line of a fault, after the word `lead` unless that is `Nothing`.
#[tactic(auto, // for the prover
unfolding(crate::specs::RecheckReport::named_certificate, frame_core::specs::Reported::memory, // for the prover
frame_core::specs::Views::shown))]
pub(crate) fn name_certificate(lead: Field, error: CertificateError) -> ErrorLine
    ensures { line_value result ≡ shown (lead ∷ []) ++ named_certificate error }
{
    match error {
        CertificateError::Syntax(line) => at(lead, b"Syntax", line),
        CertificateError::SizeOutOfOrder(line) => at(lead, b"SizeOutOfOrder", line),
        CertificateError::StepRefused(line, error) => name_step(lead, line, error),
        CertificateError::NotRefuted(line) => at(lead, b"NotRefuted", line),
        CertificateError::ChainDiffers(output, row) => two(lead, b"ChainDiffers", output, row),
        CertificateError::OperatorNotInBasis(place) => at(lead, b"OperatorNotInBasis", place),
        CertificateError::OpenTooShort(line) => at(lead, b"OpenTooShort", line),
        CertificateError::NotNew(line) => at(lead, b"NotNew", line),
        CertificateError::WrongVerdict(line) => at(lead, b"WrongVerdict", line),
        CertificateError::Memory => ErrorLine::led(lead, b"Memory", Field::Nothing, Field::Nothing),
    }
}
