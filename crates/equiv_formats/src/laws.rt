//! Laws of the definitions, each as the contract of a function that does nothing.
ghost use Rattle.std.specs.Prelude.{◌≡◌, ℕ, List, Option};
ghost use Rattle.net_theory.specs.Document.{Document};
ghost use Rattle.format_names.specs.declared.formats.FormatPair.{FormatPair};
ghost use Rattle.equiv_run.specs.declared.answer.EquivOutcome.{EquivOutcome};
ghost use Rattle.equiv_run.specs.declared.answer.CompareError.{CompareError};
ghost use Rattle.equiv_run.specs.Pairs.{ShareInterface};
ghost use Rattle.equiv_formats.specs.Comparison.{AreNetlists, ShareSections, IsFormatsAnswer, HasFormatsFault};

/// Two texts have an answer or a fault, never both, and at most one fault. Two netlists of one interface,
/// and the same sections if both are AIGER, have no fault.
pub fn netlists_have_an_answer_or_a_fault()
    ensures apart { (p : FormatPair) (budget : ℕ) (first second text : List ℕ) (told : Option (List ℕ))
        (outcome : EquivOutcome) (e : CompareError) → IsFormatsAnswer p budget first second text told outcome →
        HasFormatsFault p first second e → ⊥ }
    ensures one { (p : FormatPair) (first second : List ℕ) (a b : CompareError) → HasFormatsFault p first second a →
        HasFormatsFault p first second b → a ≡ b }
    ensures sound { (p : FormatPair) (first second : List ℕ) (d k : Document) (e : CompareError) →
        AreNetlists p first second d k → ShareInterface d k →
        ShareSections p first second → HasFormatsFault p first second e → ⊥ }
{}
