//! The encoding by fences strengthened, with the exchange cut: one formula for each listed fence. What satisfies it
//! satisfies the fence's formula, so it spells that encoding's chain.

use crate::formula::formula_over;
use chain_core::Chain;
use cnf_core::{Assign, Cnf};
use enc_base::Encoding;
use enc_fence::{FenceEnc, pairs_in};
use enc_theory::Subproblem;
use op_basis::Basis;
use std::alloc::{AllocError, Global};
use tt_core::Spec;

/// The formulas of fences with the exchange cut with complements, at most one pair a step, and the steps that differ
/// on each edge of the tables. A size has one subproblem for each listed fence of the live outputs, in lexicographic
/// order.
#[derive(Clone, Copy)]
pub struct StrongFence;

impl Encoding for StrongFence {
    ghost use Rattle.enc_theory.specs.Subproblems.{subproblems_for, fence_in};
    ghost use Rattle.npn_strong.specs.Cut.{npn_fence_formula};
    ghost use Rattle.npn_strong.specs.Fences.{npn_is_sound, npn_is_complete};

    ghost subproblems_of = { λ encoding w r. subproblems_for w r };

    ghost formula_of = { λ encoding w basis r subproblem. npn_fence_formula w basis r (fence_in subproblem) };

    ghost sound = { λ encoding w basis r subproblem. npn_is_sound w basis r subproblem };

    ghost complete = { λ encoding w basis r. npn_is_complete w basis r };

    fn subproblems(
        &self,
        alloc: Global,
        spec: &Spec,
        r: u32,
    ) -> Result<Vec<Subproblem>, AllocError> {
        FenceEnc.subproblems(alloc, spec, r)
    }

    #[tactic(auto, using(crate::proofs::Formulas::fences))]
    fn formula(
        &self,
        alloc: Global,
        spec: &Spec,
        basis: Basis,
        r: u32,
        subproblem: &Subproblem,
    ) -> Result<Cnf, AllocError> {
        let pairs = pairs_in(spec.n(), basis, subproblem);
        formula_over(alloc, spec, basis, r, &pairs)
    }

    #[tactic(auto, using(crate::proofs::Formulas::weaker))]
    fn decode(
        &self,
        alloc: Global,
        spec: &Spec,
        basis: Basis,
        r: u32,
        subproblem: &Subproblem,
        assign: &Assign,
    ) -> Result<Chain, AllocError> {
        FenceEnc.decode(alloc, spec, basis, r, subproblem, assign)
    }
}
