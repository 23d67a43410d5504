//! What the strengthened formulas with the exchange cut mean, for all tables, sizes and bases. Each law is the contract
//! of a function that does nothing.
ghost use Rattle.std.specs.Prelude.{◌≡◌, ℕ, ◌<◌, true, List, length, map};
ghost use Rattle.chain_theory.specs.Chain.{Chain};
ghost use Rattle.chain_theory.specs.Agreement.{HasChain, IsMinimum};
ghost use Rattle.chain_theory.specs.Levels.{HasChainOfLevels};
ghost use Rattle.op_basis.specs.Basis.{members};
ghost use Rattle.tt_core.specs.Words.{Words, specification};
ghost use Rattle.sat_theory.specs.Formula.{IsFormula, Assignment, Satisfies};
ghost use Rattle.clause_core.specs.Clauses.{IsSatisfiable};
ghost use Rattle.clause_core.specs.Holds.{holds};
ghost use Rattle.enc_theory.specs.Numbering.{sizes_of};
ghost use Rattle.enc_theory.specs.Pairs.{StepSlots};
ghost use Rattle.enc_theory.specs.Ssv.{ssv_formula};
ghost use Rattle.enc_theory.specs.Fence.{fence_formula};
ghost use Rattle.enc_theory.specs.Vectors.{outline_by, expected};
ghost use Rattle.enc_theory.specs.FenceVectors.{expected_of};
ghost use Rattle.enc_laws.specs.Complete.{assignment_of};
ghost use Rattle.enc_laws.specs.Rests.{IsPlaced};
ghost use Rattle.npn_laws.specs.Least.{IsExchangeCut};
ghost use Rattle.npn_laws.specs.Exchange.{IsExchangeable};
ghost use Rattle.npn_strong.specs.Cut.{may_exchange_complemented, npn_exchange, npn_formula, npn_fence_formula};
ghost use Rattle.npn_strong.specs.Fences.{HasNpnFence};
ghost use Rattle.npn_strong.specs.NpnVectors.{npn_vectors, npn_fence_vectors, npn_outline_of};

/// The test passes exactly where the two inputs may be exchanged.
pub fn exchanges_are_decided()
    ensures sound { (w : Words) (p q : ℕ) → may_exchange_complemented w p q ≡ true →
        IsExchangeable (specification w) p q }
    ensures complete { (w : Words) (p q : ℕ) → IsExchangeable (specification w) p q →
        may_exchange_complemented w p q ≡ true }
{}

/// The clauses of the cut ask for nothing else: the assignment of a chain that meets the cut makes them true. And what
/// satisfies a formula with them satisfies that of SSV, or of the fence.
pub fn exchange_clauses_ask_for_the_cut()
    ensures true_ { (w : Words) (basis r : ℕ) (steps : List StepSlots) (c : Chain) → IsPlaced w basis r steps c →
        IsExchangeCut (members basis) (specification w) c →
        holds (assignment_of (sizes_of w r) steps c) (npn_exchange basis w steps) ≡ true }
    ensures ssv { (w : Words) (basis r : ℕ) (v : Assignment) → Satisfies v (npn_formula w basis r) →
        Satisfies v (ssv_formula w basis r) }
    ensures fence { (w : Words) (basis r : ℕ) (fence : List ℕ) (v : Assignment) →
        Satisfies v (npn_fence_formula w basis r fence) → Satisfies v (fence_formula w basis r fence) }
{}

/// The formula by `strong`, that of SSV, strengthened, with the cut: if it is satisfiable, a chain of r steps
/// implements the tables; if r is the minimum size of such a chain, it is satisfiable.
pub fn npn_asks_for_a_least_chain()
    ensures formula { (w : Words) (basis r : ℕ) → IsFormula (npn_formula w basis r) }
    ensures sound { (w : Words) (basis r : ℕ) → IsSatisfiable (npn_formula w basis r) →
        HasChain (specification w) (members basis) r }
    ensures complete { (w : Words) (basis r : ℕ) → IsMinimum (specification w) (members basis) r →
        IsSatisfiable (npn_formula w basis r) }
{}

/// The same for fences, by `strong-fence`: if a fence's formula is satisfiable, a chain of r steps and at most the
/// fence's levels implements the tables; if r is the minimum size, the formula of a listed fence of r steps is
/// satisfiable.
pub fn npn_fences_ask_for_a_least_chain()
    ensures formula { (w : Words) (basis r : ℕ) (fence : List ℕ) → IsFormula (npn_fence_formula w basis r fence) }
    ensures sound { (w : Words) (basis r : ℕ) (fence : List ℕ) → IsSatisfiable (npn_fence_formula w basis r fence) →
        HasChain (specification w) (members basis) r }
    ensures low { (w : Words) (basis r : ℕ) (fence : List ℕ) → IsSatisfiable (npn_fence_formula w basis r fence) →
        HasChainOfLevels (specification w) (members basis) r (length fence) }
    ensures complete { (w : Words) (basis r : ℕ) → IsMinimum (specification w) (members basis) r →
        HasNpnFence w basis r r }
{}

/// If a chain of r steps and at most d levels over the basis implements the tables, and no chain of fewer steps does
/// (with any number of levels), the formula of some listed fence of r steps and at most d levels is satisfiable.
pub fn few_levels_have_a_listed_npn_fence()
    ensures { (w : Words) (basis r d : ℕ) → HasChainOfLevels (specification w) (members basis) r d →
        ((q : ℕ) → q < r → HasChain (specification w) (members basis) q → ⊥) → HasNpnFence w basis r d }
{}

/// The formulas agree with an independent program, written from the same description: they have the same numbers of
/// variables, clauses and literals and the same checksums.
pub fn npn_is_that_of_another_program()
    ensures ssv { map (outline_by npn_formula) npn_vectors ≡ map expected npn_vectors }
    ensures fence { map npn_outline_of npn_fence_vectors ≡ map expected_of npn_fence_vectors }
{}
