//! Texts that come in pieces of any size. A reader keeps the stage after the complete lines, and the unfinished
//! line; so its state depends on the bytes alone, and not on where the pieces end.
ghost use Rattle.std.specs.Prelude.{◌<◌, List, ℕ, IfOk};
ghost use Rattle.text_core.specs.Lines.{lines_of};
ghost use Rattle.cert_theory.specs.Gives.{Gives};
ghost use Rattle.cert_theory.specs.Certificate.{Certificate};
ghost use Rattle.cert_theory.specs.Spelling.{IsCertificateText};
ghost use Rattle.cert_theory.specs.Judging.{certificate_of};
ghost use Rattle.cert_file.specs.Claims.{IsClaim};
ghost use Rattle.cert_file.specs.Reader.{seen, IsReader, StandsFor};

use crate::claim::Claim;
use crate::stage::Stage;
use crate::stepping::claim_of;
use cert_theory::CertificateError;
use line_reader::PieceReader;

/// A certificate, as far as it has been read. It keeps its stage, which has at most one checker, and the
/// unfinished line, but none of the lines before. Its end gives the verdict (`specs/StageAnswers`: `Ends`).
pub type CertificateReader = PieceReader<Stage>;

/// Ends the text. Returns what the text claims if it is a valid certificate, otherwise its first fault.
pub fn claim_at_end(reader: CertificateReader) -> Result<Claim, CertificateError>
    requires { IsReader (seen reader) }
    // A fault is given exactly where the definition has one, and it is the first.
    ensures exact { (text : List ℕ) → StandsFor (seen reader) text →
        Gives (λ t. t.verdict) result (certificate_of (lines_of text)) }
    // The header, the chain and the verdict are the certificate's own.
    ensures claim { (text : List ℕ) (b : Certificate) → StandsFor (seen reader) text → IsCertificateText text b →
        IfOk result (λ t. IsClaim b t) }
    ensures operators { IfOk result (λ t. 0 < t.header.basis) }
{
    match reader.closed() {
        Ok(closed) => claim_of(closed.stage, closed.number),
        Err(error) => Err(error),
    }
}
