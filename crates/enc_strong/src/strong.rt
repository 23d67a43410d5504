//! SSV strengthened, with the exchange cut: one formula for a size. What satisfies it satisfies the formula of SSV, so
//! it spells that encoding's chain.
use crate::formula::formula_over;
use chain_core::Chain;
use cnf_core::{Assign, Cnf};
use enc_base::{AllPairs, Encoding};
use enc_ssv::Ssv;
use enc_theory::Subproblem;
use op_basis::Basis;
use std::alloc::{AllocError, Global};
use tt_core::Spec;

/// The formula of SSV with the exchange cut with complements, at most one pair a step, and the steps that differ on
/// each edge of the tables. A size has one subproblem, the whole.
#[derive(Clone, Copy)]
pub struct Strong;

impl Encoding for Strong {
    ghost use Rattle.std.specs.Prelude.{[], ◌∷◌};
    ghost use Rattle.enc_theory.specs.declared.subproblem.Subproblem.TheVariants.{Whole};
    ghost use Rattle.enc_laws.specs.WholeLaws.{the_whole};
    ghost use Rattle.npn_strong.specs.Cut.{npn_formula};
    ghost use Rattle.npn_strong.specs.Whole.{npn_sound, npn_complete};

    ghost subproblems_of = { λ strong w r. Whole ∷ [] };

    ghost formula_of = { λ strong w basis r subproblem. npn_formula w basis r };

    ghost sound = { λ strong w basis r subproblem there sat. npn_sound w basis r sat };

    ghost complete = { λ strong w basis r least. (Whole, the_whole, npn_complete w basis r least) };

    fn subproblems(
        &self,
        alloc: Global,
        _spec: &Spec,
        _r: u32,
    ) -> Result<Vec<Subproblem>, AllocError> {
        Ok(vec![in alloc; Subproblem::Whole]?)
    }

    #[tactic(auto, using(crate::proofs::Formulas::whole))]
    fn formula(
        &self,
        alloc: Global,
        spec: &Spec,
        basis: Basis,
        r: u32,
        _subproblem: &Subproblem,
    ) -> Result<Cnf, AllocError> {
        let pairs = AllPairs {
            ordered: basis.swap_closed(),
        };
        formula_over(alloc, spec, basis, r, &pairs)
    }

    #[tactic(auto, using(crate::proofs::Formulas::weaker))]
    fn decode(
        &self,
        alloc: Global,
        spec: &Spec,
        basis: Basis,
        r: u32,
        subproblem: &Subproblem,
        assign: &Assign,
    ) -> Result<Chain, AllocError> {
        Ssv.decode(alloc, spec, basis, r, subproblem, assign)
    }
}
