//! The encoding by fences: SSV with symmetry-breaking constraints, over the pairs that a fence allows. Its laws
//! rest on two facts: some minimum chain is ordered by level, in a listed fence, and the operands of a fence's
//! pairs are on lower levels than the step.
ghost use Rattle.std.specs.Prelude.{◌≡◌, ◌≤◌, IfOk};
ghost use Rattle.chain_core.specs.Steps.{IsSmallChain};
ghost use Rattle.sat_theory.specs.Formula.{bits_of};
ghost use Rattle.op_basis.specs.Basis.{members};
ghost use Rattle.op_basis.specs.Closed.{swap_closed};
ghost use Rattle.enc_theory.specs.Fence.{fence_decoded};
ghost use Rattle.enc_theory.specs.Subproblems.{fence_in};
ghost use Rattle.chain_theory.specs.Limits.{most_steps};

use crate::pairs::FencePairs;
use chain_core::Chain;
use cnf_core::{Assign, Cnf};
use enc_base::{Encoding, Layout, decode, sizes};
use enc_cuts::formula_with_cuts;
use enc_theory::Subproblem;
use fence_core::fences;
use op_basis::Basis;
use std::alloc::{AllocError, Global};
use tt_core::{Spec, live_spec};

/// SSV with symmetry-breaking constraints, over the pairs of a fence. A size has one subproblem for each listed
/// fence of the live outputs, in lexicographic order.
#[derive(Clone, Copy)]
pub struct FenceEnc;

/// The numbers of steps on the levels of a subproblem's fence.
#[tactic(auto, unfolding(enc_theory::specs::Subproblems::fence_in))]
fn levels_in(subproblem: &Subproblem) -> &[u32]
    ensures { result.now ≡ fence_in subproblem.now }
{
    match subproblem {
        Subproblem::Levels(fence) => fence.levels(),
        Subproblem::Whole => &[],
    }
}

/// The pairs that the steps of chains over `n` inputs may have in a subproblem's fence.
pub fn pairs_in(n: u32, basis: Basis, subproblem: &Subproblem) -> FencePairs<'_>
    ensures n { result.n ≡ n }
    ensures ordered { result.ordered ≡ swap_closed (members basis) }
    ensures levels { result.levels.now ≡ fence_in subproblem.now }
{
    FencePairs {
        n,
        ordered: basis.swap_closed(),
        levels: levels_in(subproblem),
    }
}

/// The chain that an assignment spells in a subproblem's fence.
#[tactic(auto, using(crate::proofs::Layouts::same), unfolding(enc_theory::specs::Fence::fence_decoded))]
fn decode_in(
    alloc: Global,
    spec: &Spec,
    basis: Basis,
    r: u32,
    subproblem: &Subproblem,
    assign: &Assign,
) -> Result<Chain, AllocError>
    requires size { r ≤ most_steps }
    requires chain { IsSmallChain (fence_decoded spec.now basis r (fence_in subproblem.now) (bits_of assign.now)) }
    ensures { IfOk result (λ chain. chain ≡ fence_decoded spec.now basis r (fence_in subproblem.now)
        (bits_of assign.now)) }
{
    let live = live_spec(alloc, spec)?;
    let z = sizes(&live, r);
    let layout = Layout::new(alloc, &pairs_in(live.n(), basis, subproblem), z)?;
    decode(alloc, spec, z, &layout.steps, assign)
}

impl Encoding for FenceEnc {
    ghost use Rattle.enc_theory.specs.Fence.{fence_formula};
    ghost use Rattle.enc_theory.specs.Subproblems.{subproblems_for, fence_in};
    ghost use Rattle.enc_laws.specs.FenceLaws.{is_sound, is_complete};

    ghost subproblems_of = { λ encoding w r. subproblems_for w r };

    ghost formula_of = { λ encoding w basis r subproblem. fence_formula w basis r (fence_in subproblem) };

    ghost sound = { λ encoding w basis r subproblem. is_sound w basis r subproblem };

    ghost complete = { λ encoding w basis r. is_complete w basis r };

    #[tactic(auto, unfolding(enc_theory::specs::Subproblems::subproblems_for))]
    fn subproblems(
        &self,
        alloc: Global,
        spec: &Spec,
        r: u32,
    ) -> Result<Vec<Subproblem>, AllocError> {
        let live = live_spec(alloc, spec)?;
        let mut subproblems = Vec::new(alloc);
        for fence in fences(alloc, r, live.outputs())? {
            subproblems.push(Subproblem::Levels(fence))?;
        }
        Ok(subproblems)
    }

    #[tactic(auto, using(crate::proofs::Layouts::formulas))]
    fn formula(
        &self,
        alloc: Global,
        spec: &Spec,
        basis: Basis,
        r: u32,
        subproblem: &Subproblem,
    ) -> Result<Cnf, AllocError> {
        let pairs = pairs_in(spec.n(), basis, subproblem);
        formula_with_cuts(alloc, spec, basis, r, &pairs)
    }

    fn decode(
        &self,
        alloc: Global,
        spec: &Spec,
        basis: Basis,
        r: u32,
        subproblem: &Subproblem,
        assign: &Assign,
    ) -> Result<Chain, AllocError> {
        // for the prover: brings in that the tables are within the limits
        let _n = spec.n();
        decode_in(alloc, spec, basis, r, subproblem, assign)
    }
}
