//! Trivial outputs, which a constant or an input implements at no cost, and live outputs, which need
//! a step. The trivial out of an output is the first of 0, 1, x1, .., xn that meets all its cells;
//! the code tries them in this order.
ghost use Rattle.std.specs.Prelude.{◌≡◌, ℕ, ◌+◌, ◌-◌, ◌<◌, ◌≤◌, [], ◌∷◌, ◌++◌, length, slice_index, IfOk, OnOk};
ghost use Rattle.tt_core.specs.Live.{trivial_value as trivial_value_of, fits as fits_of, trivial_of};
ghost use Rattle.tt_core.specs.Live.{is_live as is_live_of, live_outputs, live_words};
ghost use Rattle.tt_core.specs.Words.{IsSpec, specification};
ghost use Rattle.chain_theory.specs.Limits.{most_outputs};

use crate::cells::push_both;
use crate::{Spec, row};
use chain_theory::Out;
use chain_theory::plain::{input, is_met};
use std::alloc::{AllocError, Global};

/// The value of a trivial out on row `t`: a constant, or one of `n` inputs.
fn trivial_value(n: u32, t: u32, out: Out) -> bool
    requires { n < 32 }
    ensures { result ≡ trivial_value_of n t out }
{
    match out {
        Out::Zero => false,
        Out::One => true,
        Out::Place(j) => input(n, t, j),
    }
}

/// Whether a trivial out meets all cells of output `h`.
#[tactic(auto, using(crate::specs::LiveLaws::meeting))]
fn fits(spec: &Spec, h: u32, out: Out) -> bool
    requires { (1 ≤ h) × (h ≤ length spec.now.on) }
    ensures { result ≡ fits_of (specification spec.now) h out }
{
    let n = spec.n();
    for t in 0..1u32 << n {
        if !is_met(row(spec, h, t), trivial_value(n, t, out)) {
            return false;
        }
    }
    true
}

/// The first of the outs 0, 1, x1, .., xn that meets all cells of output `h`; None where the output is
/// live. Outputs are numbered from 1.
#[tactic(auto, unfolding(crate::specs::Live::first_fit), using(crate::specs::LiveLaws::inputs))]
pub fn trivial(spec: &Spec, h: u32) -> Option<Out>
    requires { (1 ≤ h) × (h ≤ length spec.now.on) }
    ensures { result ≡ trivial_of (specification spec.now) h }
{
    if fits(spec, h, Out::Zero) {
        return Some(Out::Zero);
    }
    if fits(spec, h, Out::One) {
        return Some(Out::One);
    }
    for j in 1..spec.n() + 1 {
        if fits(spec, h, Out::Place(j)) {
            return Some(Out::Place(j));
        }
    }
    None
}

/// Whether output `h` is live: no trivial out meets all its cells.
#[tactic(auto, unfolding(crate::specs::Live::is_live))]
fn is_live(spec: &Spec, h: u32) -> bool
    requires { (1 ≤ h) × (h ≤ length spec.now.on) }
    ensures { result ≡ is_live_of (specification spec.now) h }
{
    match trivial(spec, h) {
        None => true,
        Some(_) => false,
    }
}

/// Appends a copy of the words of output `h`.
fn push_output(
    spec: &Spec,
    h: u32,
    on: &mut Vec<u64>,
    care: &mut Vec<u64>,
) -> Result<(), AllocError>
    requires output { (1 ≤ h) × (h ≤ length spec.now.on) }
    requires whole { IsSpec spec.now }
    requires room { length on.old.items < most_outputs }
    requires spec { IsSpec (record { n = spec.now.n; on = on.old.items; care = care.old.items }) }
    ensures values { OnOk result (on.new.items ≡ on.old.items ++ slice_index spec.now.on (h - 1) ∷ []) }
    ensures cares { OnOk result (care.new.items ≡ care.old.items ++ slice_index spec.now.care (h - 1) ∷ []) }
    ensures spec { OnOk result (IsSpec (record { n = spec.now.n; on = on.new.items; care = care.new.items })) }
{
    let output = (h - 1) as usize;
    push_both(on, care, spec.on()[output], spec.care()[output])?;
    Ok(())
}

/// The specification of the live outputs alone, in their order. An error means that memory ran out.
#[tactic(auto, using(crate::specs::LiveLaws::living))]
pub fn live_spec(alloc: Global, spec: &Spec) -> Result<Spec, AllocError>
    ensures words { IfOk result (λ part. part ≡ live_words spec.now) }
    // Its output i is the i-th live output.
    ensures outputs { IfOk result (λ part. length part.on ≡ length (live_outputs (specification spec.now))) }
    ensures cells { IfOk result (λ part. (h t : ℕ) →
        1 ≤ h →
        h ≤ length part.on →
        (specification part).cell h t
        ≡ (specification spec.now).cell (slice_index (live_outputs (specification spec.now)) (h - 1)) t) }
{
    let n = spec.n();
    let mut on = Vec::new(alloc);
    let mut care = Vec::new(alloc);
    for before in 0..spec.outputs() {
        if is_live(spec, before + 1) {
            push_output(spec, before + 1, &mut on, &mut care)?;
        }
    }
    Ok(Spec::new(n, on, care))
}
