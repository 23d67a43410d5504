//! Whole texts, checked as one piece.
ghost use Rattle.std.specs.Prelude.{ℕ, IfOk, Ok};
ghost use Rattle.text_core.specs.Lines.{lines_of};
ghost use Rattle.cert_theory.specs.Gives.{Gives};
ghost use Rattle.tt_core.specs.Words.{Words, specification};
ghost use Rattle.op_basis.specs.Basis.{members};
ghost use Rattle.cert_theory.specs.Certificate.{Certificate};
ghost use Rattle.cert_theory.specs.Meaning.{Means};
ghost use Rattle.cert_theory.specs.Spelling.{IsCertificateText, HasVerdict};
ghost use Rattle.cert_theory.specs.Question.{HasQuestion};
ghost use Rattle.cert_theory.specs.Judging.{certificate_of};

use crate::reader::CertificateReader;
use cert_theory::{CertificateError, Verdict};
use std::alloc::Global;

/// Checks as the definition says.
fn judge(alloc: Global, bytes: &[u8]) -> Result<Verdict, CertificateError>
    ensures { Gives (λ v. v) result (certificate_of (lines_of bytes.now)) }
{
    let reader = CertificateReader::new(alloc).feed(bytes)?;
    reader.finish()
}

/// Checks the text of a certificate: its verdict if it is valid, otherwise its first fault. Time grows with the
/// text and with the formulas of its sizes, and in open logs also with the clauses that the subsumption test
/// visits; memory with the live clauses of one subproblem and with the longest line.
pub fn check_certificate(alloc: Global, bytes: &[u8]) -> Result<Verdict, CertificateError>
    // A verdict is given exactly to the texts of valid certificates, and it is the certificate's own.
    ensures verdict { IfOk result (λ v. HasVerdict bytes.now v) }
    ensures accepted { (b : Certificate) → IsCertificateText bytes.now b → Gives (λ v. v) result (Ok b.verdict) }
    // The verdict is true of the certificate's tables and basis.
    ensures means { IfOk result (λ v. (b : Certificate) → IsCertificateText bytes.now b →
        Means (specification b.header.spec) (members b.header.basis) v) }
    // The verdict is true of the tables and the basis that the first lines of the text spell.
    ensures asks { IfOk result (λ v. (w : Words) × (basis : ℕ) × HasQuestion bytes.now w basis) }
    ensures answers { IfOk result (λ v. (w : Words) (basis : ℕ) → HasQuestion bytes.now w basis →
        Means (specification w) (members basis) v) }
    // A fault is given exactly where the definition has one, and it is the first.
    ensures exact { Gives (λ v. v) result (certificate_of (lines_of bytes.now)) }
{
    judge(alloc, bytes)
}
