//! What is improved: the circuit that was read, or one over the basis.
ghost use Rattle.std.specs.Prelude.{◌≡◌, true, IfOk};
ghost use Rattle.op_basis.specs.Basis.{members};
ghost use Rattle.net_theory.specs.Circuit.{IsProper};
ghost use Rattle.net_theory.specs.Dangling.{cleanup};
ghost use Rattle.net_basis.specs.OverBasis.{MayHaveTooMany};
ghost use Rattle.based.specs.Based.{left_of, IsInexpressibleBy, IfBase, IfCannot, IfTooMany, IfNone};
ghost use Rattle.improve_wishes.specs.Wished.{IsBase};

use based::{Based, based_circuit};
use net_core::Circuit;
use settings::ImproveSettings;
use std::alloc::{AllocError, Global};

/// What is improved of a circuit: the circuit itself, or with the wish for the basis and nothing else one over it.
#[tactic(auto, using(crate::specs::BaseLaws::basing))]
pub(crate) fn base_of(
    alloc: Global,
    circuit: Circuit,
    settings: &ImproveSettings,
    only: bool,
) -> Result<Based, AllocError>
    requires { IsProper circuit }
    ensures base { IfOk result (λ b. IfBase b (IsBase only settings.now circuit)) }
    ensures cannot { IfOk result (λ b. IfCannot b (IsInexpressibleBy (members settings.now.basis) (left_of circuit))) }
    ensures too_many { IfOk result (λ b. IfTooMany b
        (MayHaveTooMany (members settings.now.basis) (cleanup circuit.net))) }
    ensures wish { IfOk result (λ b. IfNone b (only ≡ true)) }
{
    if !only {
        return Ok(Based::Base(circuit));
    }
    let found = based_circuit(alloc, circuit, settings.basis)?;
    Ok(found)
}
