//! What the formulas of the four methods mean, for all tables, sizes and bases. Each law is the contract of a
//! function that does nothing.
ghost use Rattle.std.specs.Prelude.{ℕ, ◌<◌, List, length};
ghost use Rattle.chain_theory.specs.Agreement.{HasChain, IsMinimum};
ghost use Rattle.chain_theory.specs.Levels.{HasChainOfLevels};
ghost use Rattle.op_basis.specs.Basis.{members};
ghost use Rattle.tt_core.specs.Words.{Words, specification};
ghost use Rattle.sat_theory.specs.Formula.{IsFormula};
ghost use Rattle.clause_core.specs.Clauses.{IsSatisfiable};
ghost use Rattle.enc_theory.specs.Plain.{plain_formula};
ghost use Rattle.enc_theory.specs.Ssv.{ssv_formula};
ghost use Rattle.enc_theory.specs.Select.{select_formula};
ghost use Rattle.enc_theory.specs.Fence.{fence_formula};
ghost use Rattle.enc_laws.specs.Fence.{HasFence};

/// The plain formula of size r is well-formed, and it is satisfiable exactly if a chain of r steps over the
/// basis implements the tables, even if a smaller chain exists.
pub fn plain_asks_for_a_chain()
    ensures formula { (w : Words) (basis r : ℕ) → IsFormula (plain_formula w basis r) }
    ensures sound { (w : Words) (basis r : ℕ) → IsSatisfiable (plain_formula w basis r) →
        HasChain (specification w) (members basis) r }
    ensures complete { (w : Words) (basis r : ℕ) → HasChain (specification w) (members basis) r →
        IsSatisfiable (plain_formula w basis r) }
{}

/// The formula of SSV with symmetry-breaking constraints: if it is satisfiable, a chain of r steps implements
/// the tables; if r is the minimum size of such a chain, it is satisfiable.
pub fn ssv_asks_for_a_least_chain()
    ensures formula { (w : Words) (basis r : ℕ) → IsFormula (ssv_formula w basis r) }
    ensures sound { (w : Words) (basis r : ℕ) → IsSatisfiable (ssv_formula w basis r) →
        HasChain (specification w) (members basis) r }
    ensures complete { (w : Words) (basis r : ℕ) → IsMinimum (specification w) (members basis) r →
        IsSatisfiable (ssv_formula w basis r) }
{}

/// The same for MSV with these constraints.
pub fn select_asks_for_a_least_chain()
    ensures formula { (w : Words) (basis r : ℕ) → IsFormula (select_formula w basis r) }
    ensures sound { (w : Words) (basis r : ℕ) → IsSatisfiable (select_formula w basis r) →
        HasChain (specification w) (members basis) r }
    ensures complete { (w : Words) (basis r : ℕ) → IsMinimum (specification w) (members basis) r →
        IsSatisfiable (select_formula w basis r) }
{}

/// The same for fences: if a fence's formula is satisfiable, a chain of r steps and at most the fence's levels
/// implements the tables; if r is the minimum size, the formula of a listed fence of r steps is satisfiable.
pub fn fences_ask_for_a_least_chain()
    ensures formula { (w : Words) (basis r : ℕ) (fence : List ℕ) → IsFormula (fence_formula w basis r fence) }
    ensures sound { (w : Words) (basis r : ℕ) (fence : List ℕ) → IsSatisfiable (fence_formula w basis r fence) →
        HasChain (specification w) (members basis) r }
    ensures low { (w : Words) (basis r : ℕ) (fence : List ℕ) → IsSatisfiable (fence_formula w basis r fence) →
        HasChainOfLevels (specification w) (members basis) r (length fence) }
    ensures complete { (w : Words) (basis r : ℕ) → IsMinimum (specification w) (members basis) r →
        HasFence w basis r r }
{}

/// If a chain of r steps and at most d levels over the basis implements the tables, and no chain of fewer steps
/// does (with any number of levels), the formula of some listed fence of r steps and at most d levels is
/// satisfiable.
pub fn few_levels_have_a_listed_fence()
    ensures { (w : Words) (basis r d : ℕ) → HasChainOfLevels (specification w) (members basis) r d →
        ((q : ℕ) → q < r → HasChain (specification w) (members basis) q → ⊥) → HasFence w basis r d }
{}
