//! The exchange cut with complements: inputs that may be exchanged once others are complemented are read in order.
ghost use Rattle.std.specs.Prelude.{◌≡◌, ◌≤◌, ◌<◌, ◌&&◌, not, All, OnOk};
ghost use Rattle.std.specs.List.{flat_map, range_with_len};
ghost use Rattle.clause_core.specs.Clauses.{Appends};
ghost use Rattle.enc_cuts.specs.Vars.{HaveVars};
ghost use Rattle.enc_theory.specs.Cuts.{may_exchange as may_exchange_of};
ghost use Rattle.npn_strong.specs.Cut.{may_exchange_complemented as complemented_of};
ghost use Rattle.npn_strong.specs.Cut.{npn_pair, npn_with, npn_exchange};

use clause_core::ClauseList;
use enc_base::StepSlots;
use enc_cuts::{may_exchange, push_exchange_steps};
use npn_core::may_exchange_complemented;
use op_basis::Basis;
use std::alloc::{AllocError, Global};
use tt_core::Spec;

/// Whether the inputs `p` and `q`, numbered from 1, aren't symmetric, but may be exchanged once some inputs are
/// complemented, and all outputs or none.
fn needs_complements(spec: &Spec, p: u32, q: u32) -> bool
    requires { (1 ≤ p) × (p < q) × (q ≤ spec.now.n) }
    ensures { result ≡ (complemented_of spec.now p q && not (may_exchange_of spec.now p q)) }
{
    let exchanged = may_exchange_complemented(spec, p, q);
    let symmetric = may_exchange(spec, p, q);
    exchanged && !symmetric
}

/// The clauses for two inputs, if their exchange needs complements.
#[tactic(auto, unfolding(npn_strong::specs::Cut::npn_pair))]
fn push_npn_pair(
    alloc: Global,
    list: &mut ClauseList,
    spec: &Spec,
    p: u32,
    q: u32,
    steps: &[StepSlots],
) -> Result<(), AllocError>
    requires inputs { (1 ≤ p) × (p < q) × (q ≤ spec.now.n) }
    requires slots { All (HaveVars list.old.vars) steps.now }
    ensures { OnOk result (Appends list.old list.new (npn_pair spec.now steps.now p q)) }
{
    if needs_complements(spec, p, q) {
        return push_exchange_steps(alloc, list, p, q, steps);
    }
    Ok(())
}

/// The clauses for an input and all later ones.
#[tactic(auto, using(crate::proofs::Pieces::inputs), unfolding(npn_strong::specs::Cut::npn_with))]
fn push_npn_with(
    alloc: Global,
    list: &mut ClauseList,
    spec: &Spec,
    p: u32,
    steps: &[StepSlots],
) -> Result<(), AllocError>
    requires input { (1 ≤ p) × (p ≤ spec.now.n) }
    requires slots { All (HaveVars list.old.vars) steps.now }
    ensures { OnOk result (Appends list.old list.new (npn_with spec.now steps.now p)) }
{
    let n = spec.n();
    for q in p + 1..n + 1 {
        push_npn_pair(alloc, list, spec, p, q, steps)?;
    }
    Ok(())
}

/// The clauses for all inputs.
#[tactic(auto, using(clause_core::specs::RangeLaws::loops))]
fn push_npn_inputs(
    alloc: Global,
    list: &mut ClauseList,
    spec: &Spec,
    steps: &[StepSlots],
) -> Result<(), AllocError>
    requires slots { All (HaveVars list.old.vars) steps.now }
    ensures { OnOk result (Appends list.old list.new
        (flat_map (npn_with spec.now steps.now) (range_with_len 1 spec.now.n))) }
{
    for p in 1..spec.n() + 1 {
        push_npn_with(alloc, list, spec, p, steps)?;
    }
    Ok(())
}

/// Appends the clauses of the cut, if the basis is closed under complements: of two such inputs p < q, no step reads q
/// without p before some step has read p without q.
#[tactic(auto, unfolding(npn_strong::specs::Cut::npn_exchange))]
pub(crate) fn push_npn_exchange(
    alloc: Global,
    list: &mut ClauseList,
    spec: &Spec,
    basis: Basis,
    steps: &[StepSlots],
) -> Result<(), AllocError>
    requires slots { All (HaveVars list.old.vars) steps.now }
    ensures { OnOk result (Appends list.old list.new (npn_exchange basis spec.now steps.now)) }
{
    if basis.polarity_closed() {
        return push_npn_inputs(alloc, list, spec, steps);
    }
    Ok(())
}
