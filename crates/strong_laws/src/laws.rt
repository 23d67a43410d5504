//! What the strengthened formulas mean, for all tables, sizes and bases. Each law is the contract of a function that
//! does nothing.
ghost use Rattle.std.specs.Prelude.{◌≡◌, ℕ, ◌<◌, true, List, length};
ghost use Rattle.chain_theory.specs.Chain.{Chain};
ghost use Rattle.chain_theory.specs.Agreement.{HasChain, IsMinimum};
ghost use Rattle.chain_theory.specs.Levels.{HasChainOfLevels};
ghost use Rattle.op_basis.specs.Basis.{members};
ghost use Rattle.tt_core.specs.Words.{Words, specification};
ghost use Rattle.sat_theory.specs.Formula.{Formula, IsFormula, Assignment, Satisfies};
ghost use Rattle.clause_core.specs.Clauses.{IsSatisfiable};
ghost use Rattle.clause_core.specs.Holds.{holds};
ghost use Rattle.clause_core.specs.WrittenLaws.{AreClauses};
ghost use Rattle.enc_theory.specs.Numbering.{sizes_of};
ghost use Rattle.enc_theory.specs.Pairs.{StepSlots};
ghost use Rattle.enc_theory.specs.Ssv.{ssv_formula};
ghost use Rattle.enc_theory.specs.Fence.{fence_formula};
ghost use Rattle.enc_laws.specs.Complete.{assignment_of, HasStepOuts};
ghost use Rattle.enc_laws.specs.Formulas.{HasRoom};
ghost use Rattle.enc_laws.specs.Rests.{IsPlaced};
ghost use Rattle.strong_theory.specs.Strong.{strengthened, strong_formula, strong_fence_formula};
ghost use Rattle.strong_laws.specs.Strengthened.{strong_bits};
ghost use Rattle.strong_laws.specs.Fences.{HasStrongFence};

/// The further clauses ask nothing of chains: for any chain in a layout of pairs whose outputs are steps, over any
/// basis, if its assignment makes the formula's clauses true, its extension by which steps differ on each edge
/// satisfies the strengthened formula. What satisfies that satisfies the formula.
pub fn further_clauses_ask_nothing()
    ensures extended { (w : Words) (basis r : ℕ) (steps : List StepSlots) (c : Chain) (f : Formula) →
        IsPlaced w basis r steps c → HasStepOuts c (length w.on) → HasRoom f.vars (sizes_of w r) steps →
        AreClauses f.vars f.clauses → holds (assignment_of (sizes_of w r) steps c) f.clauses ≡ true →
        Satisfies (strong_bits w r steps c f.vars) (strengthened w (sizes_of w r) steps f) }
    ensures strong { (w : Words) (basis r : ℕ) (v : Assignment) → Satisfies v (strong_formula w basis r) →
        Satisfies v (ssv_formula w basis r) }
    ensures fence { (w : Words) (basis r : ℕ) (fence : List ℕ) (v : Assignment) →
        Satisfies v (strong_fence_formula w basis r fence) → Satisfies v (fence_formula w basis r fence) }
{}

/// The formula of SSV, strengthened: if it is satisfiable, a chain of r steps implements the tables; if r is the
/// minimum size of such a chain, it is satisfiable.
pub fn strong_asks_for_a_least_chain()
    ensures formula { (w : Words) (basis r : ℕ) → IsFormula (strong_formula w basis r) }
    ensures sound { (w : Words) (basis r : ℕ) → IsSatisfiable (strong_formula w basis r) →
        HasChain (specification w) (members basis) r }
    ensures complete { (w : Words) (basis r : ℕ) → IsMinimum (specification w) (members basis) r →
        IsSatisfiable (strong_formula w basis r) }
{}

/// The same for fences: if a fence's formula is satisfiable, a chain of r steps and at most the fence's levels
/// implements the tables; if r is the minimum size, the formula of a listed fence of r steps is satisfiable.
pub fn strong_fences_ask_for_a_least_chain()
    ensures formula { (w : Words) (basis r : ℕ) (fence : List ℕ) → IsFormula (strong_fence_formula w basis r fence) }
    ensures sound { (w : Words) (basis r : ℕ) (fence : List ℕ) →
        IsSatisfiable (strong_fence_formula w basis r fence) → HasChain (specification w) (members basis) r }
    ensures low { (w : Words) (basis r : ℕ) (fence : List ℕ) →
        IsSatisfiable (strong_fence_formula w basis r fence) →
        HasChainOfLevels (specification w) (members basis) r (length fence) }
    ensures complete { (w : Words) (basis r : ℕ) → IsMinimum (specification w) (members basis) r →
        HasStrongFence w basis r r }
{}

/// If a chain of r steps and at most d levels over the basis implements the tables, and no chain of fewer steps does
/// (with any number of levels), the strengthened formula of some listed fence of r steps and at most d levels is
/// satisfiable.
pub fn few_levels_have_a_listed_strong_fence()
    ensures { (w : Words) (basis r d : ℕ) → HasChainOfLevels (specification w) (members basis) r d →
        ((q : ℕ) → q < r → HasChain (specification w) (members basis) q → ⊥) → HasStrongFence w basis r d }
{}
