//! The trait of encodings: the subproblems of a size, a formula for each, the chain that a solution spells, and
//! the two laws that connect formulas with chains.
use chain_core::Chain;
use cnf_core::{Assign, Cnf};
use enc_theory::Subproblem;
use op_basis::Basis;
use std::alloc::{AllocError, Global};
use tt_core::Spec;

/// An encoding of "there is a chain of r steps" as formulas. A size has subproblems; a satisfying assignment of
/// one of their formulas spells a chain of that size. If the formulas of all subproblems of a size and of all
/// smaller sizes are unsatisfiable, no chain of at most that size implements the tables.
pub trait Encoding {
    ghost use Rattle.std.specs.Prelude.{◌≡◌, ℕ, ◌≤◌, ◌<◌, List, length, Contains, IfOk};
    ghost use Rattle.chain_theory.specs.Agreement.{Agrees, IsOver, HasChain, IsMinimum};
    ghost use Rattle.chain_theory.specs.Limits.{most_steps};
    ghost use Rattle.op_basis.specs.Basis.{members};
    ghost use Rattle.sat_theory.specs.Formula.{Formula, Satisfies, bits_of};
    ghost use Rattle.tt_core.specs.Words.{Words, specification};
    ghost use Rattle.clause_core.specs.Clauses.{IsSatisfiable};
    ghost use Rattle.enc_theory.specs.declared.subproblem.Subproblem.{Subproblem};
    ghost use Rattle.enc_theory.specs.Subproblems.{FitsSubproblem};

    /// The definition of a size's subproblems, in order.
    ghost subproblems_of: { Self → Words → ℕ → List Subproblem };

    /// The definition of the formula, for truth tables, a set of operators, a size and a subproblem.
    ghost formula_of: { Self → Words → ℕ → ℕ → Subproblem → Formula };

    /// The subproblems of size `r`.
    fn subproblems(&self, alloc: Global, spec: &Spec, r: u32) -> Result<Vec<Subproblem>, AllocError>
        requires { r ≤ most_steps }
        ensures { IfOk result (λ subproblems. subproblems.items ≡ subproblems_of self.now spec.now r) };

    /// The formula of a subproblem of size `r`.
    fn formula(
        &self,
        alloc: Global,
        spec: &Spec,
        basis: Basis,
        r: u32,
        subproblem: &Subproblem,
    ) -> Result<Cnf, AllocError>
        requires size { r ≤ most_steps }
        requires operators { 0 < basis }
        requires subproblem { Contains (subproblems_of self.now spec.now r) subproblem.now }
        ensures { IfOk result (λ cnf. cnf ≡ formula_of self.now spec.now basis r subproblem.now) };

    /// The chain that a satisfying assignment spells. It implements the tables and fits the subproblem.
    fn decode(
        &self,
        alloc: Global,
        spec: &Spec,
        basis: Basis,
        r: u32,
        subproblem: &Subproblem,
        assign: &Assign,
    ) -> Result<Chain, AllocError>
        requires size { r ≤ most_steps }
        requires operators { 0 < basis }
        requires subproblem { Contains (subproblems_of self.now spec.now r) subproblem.now }
        requires satisfied { Satisfies (bits_of assign.now) (formula_of self.now spec.now basis r subproblem.now) }
        ensures size { IfOk result (λ chain. length chain.steps ≡ r) }
        ensures over { IfOk result (λ chain. IsOver (members basis) chain) }
        ensures agrees { IfOk result (λ chain. Agrees chain (specification spec.now)) }
        ensures fits { IfOk result (λ chain. FitsSubproblem subproblem.now chain) };

    /// If the formula of a subproblem of size r is satisfiable, a chain of r steps over the basis implements
    /// the tables.
    ghost sound: { (encoding : Self) (w : Words) (basis r : ℕ) (subproblem : Subproblem) →
        Contains (subproblems_of encoding w r) subproblem → IsSatisfiable (formula_of encoding w basis r subproblem) →
        HasChain (specification w) (members basis) r };

    /// If a chain of r steps over the basis implements the tables and none of fewer steps does, the formula of
    /// some subproblem of size r is satisfiable.
    ghost complete: { (encoding : Self) (w : Words) (basis r : ℕ) → IsMinimum (specification w) (members basis) r →
        (subproblem : Subproblem) × Contains (subproblems_of encoding w r) subproblem ×
        IsSatisfiable (formula_of encoding w basis r subproblem) };
}
