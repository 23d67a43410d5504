//! The three counts, by loops over inputs and outputs; each function computes its definition. The tests of
//! single outputs and pairs work on all rows at once (`words`).
ghost use Rattle.std.specs.Prelude.{◌≡◌, ℕ, ◌+◌, ◌<◌, ◌≤◌, length};
ghost use Rattle.chain_theory.specs.Operator.{Basis};
ghost use Rattle.chain_theory.specs.Levels.{greatest};
ghost use Rattle.chain_theory.specs.Agreement.{HasChain};
ghost use Rattle.tt_core.specs.Words.{specification};
ghost use Rattle.bound_core.specs.Counts.{count_below};
ghost use Rattle.bound_core.specs.Counts.{inputs_of, is_in_use as is_in_use_of};
ghost use Rattle.bound_core.specs.Counts.{live_next, is_new as is_new_of, single, fewest};

use crate::words::{differ, is_live, uses};
use tt_core::Spec;

/// The support size of output `h`: how many inputs it uses.
#[tactic(auto, using(crate::proofs::Loops::counting), unfolding(crate::specs::Counts::uses_next))]
fn inputs_of_output(spec: &Spec, h: u32) -> u32
    requires { (1 ≤ h) × (h ≤ length spec.now.on) }
    ensures count { result ≡ inputs_of (specification spec.now) h }
    ensures few { result ≤ spec.now.n }
{
    let mut count = 0u32;
    for before in 0..spec.n() {
        count += u32::from(uses(spec, h, before + 1));
    }
    count
}

/// How many outputs are live.
#[tactic(auto, using(crate::proofs::Loops::counting), unfolding(crate::specs::Counts::live_next))]
fn live_count(spec: &Spec) -> u32
    ensures count { result ≡ count_below (live_next (specification spec.now)) (length spec.now.on) }
    ensures few { result ≤ length spec.now.on }
{
    let mut count = 0u32;
    for before in 0..spec.outputs() {
        count += u32::from(is_live(spec, before + 1));
    }
    count
}

/// Whether some live output uses input `before` + 1.
#[tactic(auto, // for the prover
using(crate::proofs::Loops::passing), unfolding(crate::specs::Counts::is_in_use, crate::specs::Counts::live_uses))]
fn is_in_use(spec: &Spec, before: u32) -> bool
    requires input { before < spec.now.n }
    requires room { before + 1 < 4294967296 }
    ensures { result ≡ is_in_use_of (specification spec.now) before }
{
    for output in 0..spec.outputs() {
        if uses(spec, output + 1, before + 1) && is_live(spec, output + 1) {
            return true;
        }
    }
    false
}

/// How many inputs are used by live outputs.
#[tactic(auto, using(crate::proofs::Loops::counting))]
fn inputs_in_use(spec: &Spec) -> u32
    ensures count { result ≡ count_below (is_in_use_of (specification spec.now)) spec.now.n }
    ensures few { result ≤ spec.now.n }
{
    let mut count = 0u32;
    for before in 0..spec.n() {
        count += u32::from(is_in_use(spec, before));
    }
    count
}

/// Whether output `before` + 1 is live and differs from each live output before it.
#[tactic(auto, // for the prover
using(crate::proofs::Loops::passing), unfolding(crate::specs::Counts::is_new, crate::specs::Counts::live_compatible))]
fn is_new(spec: &Spec, before: u32) -> bool
    requires output { before < length spec.now.on }
    requires room { before + 1 < 4294967296 }
    ensures { result ≡ is_new_of (specification spec.now) before }
{
    for earlier in 0..before {
        if !differ(spec, earlier + 1, before + 1) && is_live(spec, earlier + 1) {
            return false;
        }
    }
    is_live(spec, before + 1)
}

/// How many live outputs differ from those before them.
#[tactic(auto, using(crate::proofs::Loops::counting))]
fn new_outputs(spec: &Spec) -> u32
    ensures count { result ≡ count_below (is_new_of (specification spec.now)) (length spec.now.on) }
    ensures few { result ≤ length spec.now.on }
{
    let mut count = 0u32;
    for before in 0..spec.outputs() {
        count += u32::from(is_new(spec, before));
    }
    count
}

/// The greatest support size of an output, less 1; 0 where no output uses an input.
#[tactic(auto, using(crate::proofs::Loops::greatest), unfolding(crate::specs::Counts::single))]
fn most_of_one(spec: &Spec) -> u32
    ensures { result ≡ greatest (single (specification spec.now)) (length spec.now.on) }
{
    let mut most = 0u32;
    for before in 0..spec.outputs() {
        let count = inputs_of_output(spec, before + 1).saturating_sub(1);
        most = most.max(count);
    }
    most
}

/// A lower bound for the number of steps of every chain that implements the specification, over any
/// basis. It is the greatest of: the number of live outputs that differ from the live ones before
/// them; the greatest support size of an output, less 1; and the number of inputs that live outputs
/// use, less the number of live outputs.
#[tactic(auto)]
pub fn lower_bound(spec: &Spec) -> u32
    ensures none_below { (basis : Basis) (q : ℕ) → q < result → HasChain (specification spec.now) basis q → ⊥ }
    ensures counts { result ≡ fewest (specification spec.now) }
{
    let apart = new_outputs(spec);
    let single = most_of_one(spec);
    let shared = inputs_in_use(spec).saturating_sub(live_count(spec));
    apart.max(single.max(shared))
}
