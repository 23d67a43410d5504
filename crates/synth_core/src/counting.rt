//! How many inputs tables use: `auto` chooses its method by them, so that an input that no output depends on has no
//! say.
ghost use Rattle.std.specs.Prelude.{◌≡◌, ◌+◌, ◌<◌};
ghost use Rattle.tt_core.specs.Words.{specification};
ghost use Rattle.synth_core.specs.UsedInputs.{is_used as is_used_of, used_inputs as used_inputs_of};

use bound_core::uses;
use tt_core::Spec;

/// Whether some output uses input `before` + 1.
#[tactic(auto, // for the prover
using(crate::proofs::Used::using_inputs), // for the prover
unfolding(crate::specs::UsedInputs::is_used, crate::specs::UsedInputs::output_uses))]
fn is_used(spec: &Spec, before: u32) -> bool
    requires input { before < spec.now.n }
    requires room { before + 1 < 4294967296 }
    ensures { result ≡ is_used_of (specification spec.now) before }
{
    for output in 0..spec.outputs() {
        if uses(spec, output + 1, before + 1) {
            return true;
        }
    }
    false
}

/// How many inputs are used by some output.
#[tactic(auto, using(crate::proofs::Used::using_inputs))]
pub(crate) fn used_inputs(spec: &Spec) -> u32
    ensures { result ≡ used_inputs_of (specification spec.now) }
{
    let mut count = 0u32;
    for before in 0..spec.n() {
        count += u32::from(is_used(spec, before));
    }
    count
}
