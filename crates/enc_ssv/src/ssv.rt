//! SSV with symmetry-breaking constraints. The formula is that of the live outputs alone, which are all driven
//! by steps; its law `complete` follows from the law of minimum chains: some minimum chain satisfies every
//! constraint.
use crate::pairs::decode_pairs;
use chain_core::Chain;
use cnf_core::{Assign, Cnf};
use enc_cuts::formula_with_cuts;
use enc_base::{AllPairs, Encoding};
use enc_theory::Subproblem;
use op_basis::Basis;
use std::alloc::{AllocError, Global};
use tt_core::Spec;

/// SSV with symmetry-breaking constraints: the clauses that define chains, over the pairs with j <= k if the
/// basis is closed under exchanging operands, and the constraints. A size has one subproblem, the whole.
#[derive(Clone, Copy)]
pub struct Ssv;

impl Encoding for Ssv {
    ghost use Rattle.std.specs.Prelude.{[], ◌∷◌};
    ghost use Rattle.enc_theory.specs.declared.subproblem.Subproblem.TheVariants.{Whole};
    ghost use Rattle.enc_theory.specs.Ssv.{ssv_formula};
    ghost use Rattle.enc_laws.specs.Ssv.{ssv_sound, ssv_complete};
    ghost use Rattle.enc_laws.specs.WholeLaws.{the_whole};

    ghost subproblems_of = { λ ssv w r. Whole ∷ [] };

    ghost formula_of = { λ ssv w basis r subproblem. ssv_formula w basis r };

    ghost sound = { λ ssv w basis r subproblem there sat. ssv_sound w basis r sat };

    ghost complete = { λ ssv w basis r least. (Whole, the_whole, ssv_complete w basis r least) };

    fn subproblems(
        &self,
        alloc: Global,
        _spec: &Spec,
        _r: u32,
    ) -> Result<Vec<Subproblem>, AllocError> {
        Ok(vec![in alloc; Subproblem::Whole]?)
    }

    #[tactic(auto, using(crate::proofs::Formulas::ssv))]
    fn formula(
        &self,
        alloc: Global,
        spec: &Spec,
        basis: Basis,
        r: u32,
        _subproblem: &Subproblem,
    ) -> Result<Cnf, AllocError> {
        let pairs = AllPairs {
            ordered: basis.swap_closed(),
        };
        formula_with_cuts(alloc, spec, basis, r, &pairs)
    }

    #[tactic(auto, using(crate::proofs::Chains::within))]
    fn decode(
        &self,
        alloc: Global,
        spec: &Spec,
        basis: Basis,
        r: u32,
        _subproblem: &Subproblem,
        assign: &Assign,
    ) -> Result<Chain, AllocError> {
        // for the prover: brings in that the tables are within the bounds
        let _n = spec.n();
        decode_pairs(alloc, spec, basis.swap_closed(), r, assign)
    }
}
