//! The search for a set of complemented inputs.
ghost use Rattle.std.specs.Prelude.{◌≡◌, ◌^◌, ◌<◌, ◌≤◌, length, true, false};
ghost use Rattle.tt_core.specs.Words.{specification};
ghost use Rattle.npn_core.specs.Kept.{IsKeptCell, IsKeptOutput};
ghost use Rattle.npn_laws.specs.Exchange.{IsKept};
ghost use Rattle.npn_strong.specs.Cut.{kept_by, may_exchange_complemented as may_exchange_of};

use crate::rows::{complemented, image};
use tt_core::{Spec, row};

/// Whether output `h` has on the image of row `t` its cell on the row, complemented if the flag is set.
fn is_kept_cell(spec: &Spec, p: u32, q: u32, k: u32, flag: bool, h: u32, t: u32) -> bool
    requires exchange { (p ≤ spec.now.n) × (q ≤ spec.now.n) }
    requires output { (1 ≤ h) × (h ≤ length spec.now.on) }
    requires row { t < 2 ^ spec.now.n }
    ensures kept { result ≡ true → IsKeptCell (specification spec.now) p q k flag h t }
    ensures other { result ≡ false → IsKeptCell (specification spec.now) p q k flag h t → ⊥ }
{
    let there = row(spec, h, image(spec.n(), p, q, k, t));
    let here = complemented(flag, row(spec, h, t));
    there == here
}

/// Whether output `h` is kept by the exchange of `p` and `q` with the inputs of row `k` complemented, and outputs if
/// the flag is set.
#[tactic(auto, using(tt_core::specs::RowLaws::row_below))]
fn is_kept_output(spec: &Spec, p: u32, q: u32, k: u32, flag: bool, h: u32) -> bool
    requires exchange { (p ≤ spec.now.n) × (q ≤ spec.now.n) }
    requires output { (1 ≤ h) × (h ≤ length spec.now.on) }
    ensures kept { result ≡ true → IsKeptOutput (specification spec.now) p q k flag h }
    ensures other { result ≡ false → IsKeptOutput (specification spec.now) p q k flag h → ⊥ }
{
    for t in 0..1u32 << spec.n() {
        if !is_kept_cell(spec, p, q, k, flag, h, t) {
            return false;
        }
    }
    true
}

/// Whether all outputs are.
fn is_kept(spec: &Spec, p: u32, q: u32, k: u32, flag: bool) -> bool
    requires { (1 ≤ p) × (p < q) × (q ≤ spec.now.n) }
    ensures kept { result ≡ true → IsKept (specification spec.now) p q k flag }
    ensures other { result ≡ false → IsKept (specification spec.now) p q k flag → ⊥ }
{
    for before in 0..spec.outputs() {
        if !is_kept_output(spec, p, q, k, flag, before + 1) {
            return false;
        }
    }
    true
}

/// Whether they are with none or all of them complemented.
fn is_kept_by(spec: &Spec, p: u32, q: u32, k: u32) -> bool
    requires { (1 ≤ p) × (p < q) × (q ≤ spec.now.n) }
    ensures { result ≡ kept_by spec.now p q k }
{
    let plain = is_kept(spec, p, q, k, false);
    let complemented = is_kept(spec, p, q, k, true);
    plain || complemented
}

/// Whether inputs `p` and `q`, numbered from 1, may be exchanged once some inputs are complemented, and all outputs or
/// none.
#[tactic(auto, using(crate::proofs::Tests::searching))]
pub fn may_exchange_complemented(spec: &Spec, p: u32, q: u32) -> bool
    requires { (1 ≤ p) × (p < q) × (q ≤ spec.now.n) }
    ensures { result ≡ may_exchange_of spec.now p q }
{
    let rows = 1u32 << spec.n();
    for k in 0..rows {
        if is_kept_by(spec, p, q, k) {
            return true;
        }
    }
    false
}
