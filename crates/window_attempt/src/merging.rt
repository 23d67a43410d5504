//! Structural hashing, with cleanup.
ghost use Rattle.std.specs.Prelude.{◌<◌, length, IfOk, IfSome};
ghost use Rattle.chain_theory.specs.Operator.{Basis};
ghost use Rattle.improve_theory.specs.Leading.{IsReplacement};

use merge_core::strash;
use net_core::{Net, remove_dangling};
use std::alloc::{AllocError, Global};

/// The net in which structurally equal gates are merged, without dangling gates. None where no two are
/// structurally equal.
#[tactic(auto, using(crate::specs::MergedLaws::merging))]
pub fn merged(alloc: Global, net: &Net) -> Result<Option<Net>, AllocError>
    ensures replaces { (basis : Basis) → IfOk result (λ left. IfSome left (λ new. IsReplacement basis net.now new)) }
    ensures less { IfOk result (λ left. IfSome left (λ new. length new.gates < length net.now.gates)) }
{
    let merged = strash(alloc, net)?;
    if merged.gates().len() == net.gates().len() {
        return Ok(None);
    }
    let left = remove_dangling(alloc, &merged)?;
    Ok(Some(left))
}
