//! Laws of the definitions, each as the contract of a function that does nothing.
ghost use Rattle.std.specs.Prelude.{◌≡◌, ℕ, List};
ghost use Rattle.net_theory.specs.Document.{Document};
ghost use Rattle.equiv_run.specs.declared.answer.EquivOutcome.{EquivOutcome};
ghost use Rattle.equiv_run.specs.declared.answer.CompareError.{CompareError};
ghost use Rattle.equiv_run.specs.Pairs.{AreTwo, ShareInterface, IsAnswer, HasPairFault};

/// A text has an answer or a fault, never both, and at most one fault. Two netlists of one interface have no
/// fault.
pub fn pairs_have_an_answer_or_a_fault()
    ensures apart { (budget : ℕ) (bytes text : List ℕ) (outcome : EquivOutcome) (e : CompareError) →
        IsAnswer budget bytes text outcome → HasPairFault bytes e → ⊥ }
    ensures one { (bytes : List ℕ) (a b : CompareError) → HasPairFault bytes a → HasPairFault bytes b → a ≡ b }
    ensures sound { (bytes : List ℕ) (d k : Document) (e : CompareError) → AreTwo bytes d k → ShareInterface d k →
        HasPairFault bytes e → ⊥ }
{}
