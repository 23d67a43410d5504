//! A circuit over a basis.
ghost use Rattle.std.specs.Prelude.{IfOk};
ghost use Rattle.op_basis.specs.Basis.{members};
ghost use Rattle.net_theory.specs.Circuit.{IsProper};
ghost use Rattle.net_theory.specs.Dangling.{cleanup};
ghost use Rattle.net_basis.specs.OverBasis.{IsCircuitOver, MayHaveTooMany};
ghost use Rattle.based.specs.Based.{left_of, IsBasedOn, IsInexpressibleBy, IfBase, IfCannot, IfTooMany};

use crate::answer::Based;
use crate::cleaning::cleaned;
use crate::naming::gate_name;
use net_basis::{Converted, over_basis};
use net_core::Circuit;
use op_basis::Basis;
use std::alloc::{AllocError, Global};

/// The circuit over the basis, with dangling gates if it has some.
#[tactic(auto, using(crate::specs::BasedLaws::converting))]
fn converted(alloc: Global, circuit: Circuit, basis: Basis) -> Result<Based, AllocError>
    requires { IsProper circuit }
    ensures base { IfOk result (λ b. IfBase b (IsCircuitOver (members basis) circuit)) }
    ensures cannot { IfOk result (λ b. IfCannot b (IsInexpressibleBy (members basis) circuit)) }
    ensures too_many { IfOk result (λ b. IfTooMany b (MayHaveTooMany (members basis) circuit.net)) }
{
    let found = over_basis(alloc, circuit, basis)?;
    match found {
        Converted::Over(over) => Ok(Based::Base(over)),
        Converted::Cannot(left, node) => {
            let name = gate_name(alloc, &left, node)?;
            Ok(Based::Cannot(name))
        }
        Converted::TooMany(_) => Ok(Based::TooMany),
    }
}

/// A circuit over a basis: without dangling gates, and with a least chain of gates for each gate of another operator.
/// An error means that memory ran out.
#[tactic(auto, using(crate::specs::BasedLaws::basing))]
pub fn based_circuit(alloc: Global, circuit: Circuit, basis: Basis) -> Result<Based, AllocError>
    requires { IsProper circuit }
    ensures base { IfOk result (λ b. IfBase b (IsBasedOn (members basis) circuit)) }
    ensures cannot { IfOk result (λ b. IfCannot b (IsInexpressibleBy (members basis) (left_of circuit))) }
    ensures too_many { IfOk result (λ b. IfTooMany b (MayHaveTooMany (members basis) (cleanup circuit.net))) }
{
    let left = cleaned(alloc, circuit)?;
    let found = converted(alloc, left, basis)?;
    Ok(found)
}
