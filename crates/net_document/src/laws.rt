//! Theorems about the definitions, each the contract of a function with an empty body.
ghost use Rattle.std.specs.Prelude.{◌≡◌, ℕ, ◌≤◌, true, List, [], None};
ghost use Rattle.net_theory.specs.Document.{Name, Document, has, are_distinct};
ghost use Rattle.net_theory.specs.Behaviour.{IsEquivalent};
ghost use Rattle.net_theory.specs.Net.{Net};
ghost use Rattle.net_theory.specs.Circuit.{Circuit, Describes};
ghost use Rattle.net_theory.specs.Implements.{Implements};
ghost use Rattle.net_theory.specs.ExchangeLaws.{with_net};
ghost use Rattle.net_core.specs.declared.error.NetError.{NetError};
ghost use Rattle.net_core.specs.declared.error.NetError.TheVariants.{Memory};
ghost use Rattle.net_document.specs.Listed.{times};
ghost use Rattle.net_document.specs.Refusals.{repeated, missing};
ghost use Rattle.net_document.specs.Format.{Format, IsNetlist, IsRefusedText, HasNetFault, ListsWell};
ghost use Rattle.net_document.specs.Equivalence.{AreEquivalentCircuits};

/// A name occurs in a list exactly if its count is at least 1; the names of a list are distinct exactly if no
/// count exceeds 1.
pub fn laws_of_counts()
    ensures there { (ns : List Name) (n : Name) → has ns n ≡ true → 1 ≤ times n ns }
    ensures counted { (ns : List Name) (n : Name) → 1 ≤ times n ns → has ns n ≡ true }
    ensures once { (ns : List Name) (n : Name) → are_distinct ns ≡ true → times n ns ≤ 1 }
    ensures differ { (ns : List Name) → ((n : Name) → times n ns ≤ 1) → are_distinct ns ≡ true }
{}

/// If `repeated` finds no name, the driven names are distinct; if `missing` finds none, each used name is driven.
pub fn laws_of_refusals()
    ensures twice { (ns : List Name) → repeated [] ns ≡ None → are_distinct ns ≡ true }
    ensures undriven { (driven ns : List Name) (n : Name) → missing driven ns ≡ None → has ns n ≡ true →
        has driven n ≡ true }
{}

/// In every format a text that lists a well-formed document within its limit of gates has no fault, so the only
/// possible error is out of memory; any other text has at most one fault.
pub fn netlists_are_read()
    ensures netlist { (f : Format) (bytes : List ℕ) (e : NetError) → ListsWell f → IsNetlist f bytes →
        IsRefusedText f bytes e → e ≡ Memory }
    ensures faultless { (f : Format) (bytes : List ℕ) (e : NetError) → ListsWell f → IsNetlist f bytes →
        HasNetFault f bytes e → ⊥ }
    ensures one { (f : Format) (bytes : List ℕ) (a b : NetError) → HasNetFault f bytes a → HasNetFault f bytes b →
        a ≡ b }
{}

/// Documents of equivalent circuits are equivalent; a document that describes a circuit describes every equivalent
/// circuit; and a circuit is equivalent to itself with a net that implements its net.
pub fn documents_of_equivalent_circuits_are_equivalent()
    ensures same { (d e : Document) (c k : Circuit) → Describes d c → Describes e k → AreEquivalentCircuits c k →
        IsEquivalent d e }
    ensures describes { (d : Document) (c k : Circuit) → Describes d c → AreEquivalentCircuits c k → Describes d k }
    ensures exchanged { (c : Circuit) (m : Net) → Implements c.net m → AreEquivalentCircuits c (with_net c m) }
{}
