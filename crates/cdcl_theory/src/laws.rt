//! Laws that follow from the definitions. Each is the contract of an empty function.
ghost use Rattle.std.specs.Prelude.{ℕ, ℤ, List, Option};
ghost use Rattle.sat_theory.specs.Log.{IsUnsubsumed};
ghost use Rattle.cdcl_theory.specs.Propagation.{IsClosed, IsUnitUnder};

/// No live clause subsumes a clause that is unit in a closed state: a live clause all of whose literals are
/// among those of this one would be unit or falsified there too.
pub fn unit_clauses_are_new()
    ensures { (live : ℕ → Option (List ℤ)) (falsified_at : ℤ → ℕ) (p : ℕ) (lits : List ℤ) (u : ℤ) →
        IsClosed live falsified_at p → IsUnitUnder falsified_at p lits u → IsUnsubsumed live lits }
{}
