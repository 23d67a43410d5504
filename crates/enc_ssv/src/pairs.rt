//! What the encodings by pairs share.
ghost use Rattle.std.specs.Prelude.{◌≡◌, ◌≤◌, IfOk};
ghost use Rattle.chain_core.specs.Steps.{IsSmallChain};
ghost use Rattle.sat_theory.specs.Formula.{bits_of};
ghost use Rattle.enc_ssv.specs.Spelled.{spelled};
ghost use Rattle.chain_theory.specs.Limits.{most_steps};

use chain_core::Chain;
use cnf_core::Assign;
use enc_base::{AllPairs, Layout, decode, sizes};
use std::alloc::{AllocError, Global};
use tt_core::{Spec, live_spec};

/// The chain that an assignment spells, over all pairs or over those with j <= k.
#[tactic(auto, unfolding(crate::specs::Spelled::spelled))]
pub(crate) fn decode_pairs(
    alloc: Global,
    spec: &Spec,
    ordered: bool,
    r: u32,
    assign: &Assign,
) -> Result<Chain, AllocError>
    requires size { r ≤ most_steps }
    requires chain { IsSmallChain (spelled ordered spec.now r (bits_of assign.now)) }
    ensures { IfOk result (λ chain. chain ≡ spelled ordered spec.now r (bits_of assign.now)) }
{
    let live = live_spec(alloc, spec)?;
    let z = sizes(&live, r);
    let layout = Layout::new(alloc, &AllPairs { ordered }, z)?;
    decode(alloc, spec, z, &layout.steps, assign)
}
