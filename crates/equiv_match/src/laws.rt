//! Laws of the definitions, each as the contract of a function that does nothing.
ghost use Rattle.std.specs.Prelude.{◌≡◌, ℕ, List, Option};
ghost use Rattle.format_names.specs.declared.formats.FormatPair.{FormatPair};
ghost use Rattle.equiv_run.specs.declared.answer.EquivOutcome.{EquivOutcome};
ghost use Rattle.equiv_match.specs.declared.error.MatchError.{MatchError};
ghost use Rattle.equiv_match.specs.MatchComparison.{IsMatchedAnswer, HasMatchFault};

/// Two texts that are compared by names have an answer or a fault, never both, and at most one fault.
pub fn matched_netlists_have_an_answer_or_a_fault()
    ensures apart { (p : FormatPair) (budget : ℕ) (first second text : List ℕ) (told : Option (List ℕ))
        (outcome : EquivOutcome) (e : MatchError) → IsMatchedAnswer p budget first second text told outcome →
        HasMatchFault p first second e → ⊥ }
    ensures one { (p : FormatPair) (first second : List ℕ) (a b : MatchError) → HasMatchFault p first second a →
        HasMatchFault p first second b → a ≡ b }
{}
