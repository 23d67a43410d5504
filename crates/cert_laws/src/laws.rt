//! The theorems about certificates. Each is the contract of a function that does nothing.
ghost use Rattle.std.specs.Prelude.{◌≡◌, ℕ, List, Some, Ok};
ghost use Rattle.text_core.specs.Lines.{lines_of};
ghost use Rattle.sat_theory.specs.State.{State};
ghost use Rattle.sat_theory.specs.Line.{Line};
ghost use Rattle.lrat_check.specs.Judging.{line_fault};
ghost use Rattle.lrat_check.specs.declared.error.CheckError.TheVariants.{Memory};
ghost use Rattle.tt_core.specs.Words.{Words, specification};
ghost use Rattle.op_basis.specs.Basis.{members};
ghost use Rattle.cert_theory.specs.declared.data.Verdict.{Verdict};
ghost use Rattle.cert_theory.specs.Certificate.{Certificate, IsValid};
ghost use Rattle.cert_theory.specs.Meaning.{Means};
ghost use Rattle.cert_theory.specs.Spelling.{IsCertificateText, HasVerdict};
ghost use Rattle.cert_theory.specs.Question.{HasQuestion};
ghost use Rattle.cert_theory.specs.Judging.{certificate_of};

/// The verdict of a valid certificate is true, whoever made it.
pub fn verdicts_are_true()
    ensures { (b : Certificate) → IsValid b → Means (specification b.header.spec) (members b.header.basis) b.verdict }
{}

/// A text is accepted with a verdict exactly where it is the text of a valid certificate that has it.
pub fn verdicts_are_spelled()
    ensures only { (bytes : List ℕ) (v : Verdict) → certificate_of (lines_of bytes) ≡ Ok v → HasVerdict bytes v }
    ensures each { (bytes : List ℕ) (b : Certificate) → IsCertificateText bytes b →
        certificate_of (lines_of bytes) ≡ Ok b.verdict }
{}

/// A text that has a verdict determines its tables and its basis, and the verdict is true of them.
pub fn verdicts_answer_their_texts()
    ensures asks { (bytes : List ℕ) (v : Verdict) → certificate_of (lines_of bytes) ≡ Ok v → (w : Words) ×
        (basis : ℕ) × HasQuestion bytes w basis }
    ensures one { (bytes : List ℕ) (w u : Words) (a b : ℕ) → HasQuestion bytes w a → HasQuestion bytes u b → (w ≡ u) ×
        (a ≡ b) }
    ensures means { (bytes : List ℕ) (v : Verdict) (w : Words) (basis : ℕ) → certificate_of (lines_of bytes) ≡ Ok v →
        HasQuestion bytes w basis → Means (specification w) (members basis) v }
{}

/// A fault of a log's line is never that memory runs out, so `StepRefused` never contains `Memory`.
pub fn faults_of_lines_are_reported()
    ensures { (s : State) (l : Line) → line_fault s l ≡ Some Memory → ⊥ }
{}
