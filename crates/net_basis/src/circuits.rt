//! A circuit over a basis.
ghost use Rattle.std.specs.Prelude.{◌≡◌, IfOk};
ghost use Rattle.op_basis.specs.Basis.{members};
ghost use Rattle.net_theory.specs.Circuit.{IsProper};
ghost use Rattle.net_theory.specs.ExchangeLaws.{with_net as with_net_of};
ghost use Rattle.net_basis.specs.OverBasis.{IsCircuitOver, IsInexpressibleAt, MayHaveTooMany, IfOver, IfCannot};
ghost use Rattle.net_basis.specs.OverBasis.{IfTooMany, IsNetAnswer};

use crate::answer::{Converted, NetOver};
use crate::converting::net_over;
use net_core::{Circuit, Net};
use op_basis::Basis;
use std::alloc::{AllocError, Global};

/// The circuit with its net replaced.
fn with_net(circuit: Circuit, new: Net) -> Circuit
    ensures { result ≡ with_net_of circuit new }
{
    let Circuit {
        model,
        inputs,
        outputs,
        clocks,
        latches,
        net: _,
    } = circuit;
    Circuit {
        model,
        inputs,
        outputs,
        clocks,
        latches,
        net: new,
    }
}

/// The net of a circuit over a basis.
fn net_of_circuit(alloc: Global, circuit: &Circuit, basis: Basis) -> Result<NetOver, AllocError>
    requires { IsProper circuit.now }
    ensures { IfOk result (IsNetAnswer (members basis) circuit.now.net) }
{
    net_over(alloc, &circuit.net, basis)
}

/// The circuit over a basis: itself, if each gate has an operator of the basis. Or else a least chain of gates over the
/// basis takes the place of each gate of another operator, and a signal that of a constant or a copy. An error means that
/// memory ran out.
pub fn over_basis(alloc: Global, circuit: Circuit, basis: Basis) -> Result<Converted, AllocError>
    requires { IsProper circuit }
    ensures over { IfOk result (λ all. IfOver all (IsCircuitOver (members basis) circuit)) }
    ensures cannot { IfOk result (λ all. IfCannot all (λ left node.
        IsInexpressibleAt (members basis) circuit.net node)) }
    ensures kept { IfOk result (λ all. IfCannot all (λ left node. left ≡ circuit)) }
    ensures too_many { IfOk result (λ all. IfTooMany all (λ left. MayHaveTooMany (members basis) circuit.net)) }
    ensures left { IfOk result (λ all. IfTooMany all (λ left. left ≡ circuit)) }
{
    match net_of_circuit(alloc, &circuit, basis)? {
        NetOver::Itself => Ok(Converted::Over(circuit)),
        NetOver::Over(net) => Ok(Converted::Over(with_net(circuit, net))),
        NetOver::Cannot(node) => Ok(Converted::Cannot(circuit, node)),
        NetOver::TooMany => Ok(Converted::TooMany(circuit)),
    }
}
