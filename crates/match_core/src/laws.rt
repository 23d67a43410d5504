//! Laws of the definitions, each as the contract of a function that does nothing.
ghost use Rattle.std.specs.Prelude.{◌≡◌, ◌↔◌, None};
ghost use Rattle.net_theory.specs.Document.{Document};
ghost use Rattle.net_theory.specs.WellFormed.{IsWellFormed};
ghost use Rattle.net_theory.specs.Behaviour.{IsEquivalent};
ghost use Rattle.match_core.specs.Matched.{ShareNames, matched, IsEquivalentByNames};
ghost use Rattle.match_core.specs.Lacks.{lack_of};

/// Neither of two netlists lacks a name of the other exactly if there is no first one. The second in the order of the
/// first is then well formed, and equivalent to the first exactly if the two are equivalent by names.
#[tactic(auto, using(crate::specs::MatchedLaws::none_lacks))]
pub fn names_correspond()
    ensures named { (d e : Document) → (lack_of d e ≡ None) ↔ ShareNames d e }
    ensures well { (d e : Document) → IsWellFormed d → IsWellFormed e → ShareNames d e → IsWellFormed (matched d e) }
    ensures decided { (d e : Document) → IsWellFormed d → IsWellFormed e → ShareNames d e →
        IsEquivalent d (matched d e) ↔ IsEquivalentByNames d e }
{}
