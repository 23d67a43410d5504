//! Functional hashing with cleanup, in a net of few sources.
ghost use Rattle.std.specs.Prelude.{◌≤◌, length, IfOk};
ghost use Rattle.chain_theory.specs.Operator.{Basis};
ghost use Rattle.improve_theory.specs.Leading.{IsReplacement};

use merge_core::functional_reduction;
use net_core::{Net, remove_dangling};
use std::alloc::{AllocError, Global};
use thresholds::MOST_UNHASHED_GATES;

/// The net in which gates with the same value under every assignment are merged, without dangling gates.
/// Where it has more than 12 sources there is only the cleanup.
fn equal_merged(alloc: Global, net: &Net) -> Result<Net, AllocError>
    ensures replaces { (basis : Basis) → IfOk result (IsReplacement basis net.now) }
    ensures fewer { IfOk result (λ left. length left.gates ≤ length net.now.gates) }
{
    let merged = functional_reduction(alloc, net)?;
    let left = remove_dangling(alloc, &merged)?;
    Ok(left)
}

/// The net after that, if it has many gates and the cap is at least 2: with a cap of 1 equal gates are kept,
/// since each of them alone needs a step.
#[tactic(auto, using(crate::specs::MergedLaws::merging))]
pub fn many_merged(alloc: Global, net: Net, cap: u32) -> Result<Net, AllocError>
    ensures replaces { (basis : Basis) → IfOk result (IsReplacement basis net) }
    ensures fewer { IfOk result (λ left. length left.gates ≤ length net.gates) }
{
    if cap < 2 || net.gates().len() <= MOST_UNHASHED_GATES {
        return Ok(net);
    }
    let left = equal_merged(alloc, &net)?;
    Ok(left)
}
