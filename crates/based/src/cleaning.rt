//! A circuit without its dangling gates, which no file that is written has.
ghost use Rattle.std.specs.Prelude.{◌≡◌, IfOk};
ghost use Rattle.net_theory.specs.Circuit.{IsProper};
ghost use Rattle.net_theory.specs.Dangling.{cleanup};
ghost use Rattle.net_theory.specs.ExchangeLaws.{with_net as with_net_of};
ghost use Rattle.net_theory.specs.Implements.{Implements};
ghost use Rattle.based.specs.Based.{left_of};

use net_core::{Circuit, Net, remove_dangling};
use std::alloc::{AllocError, Global};

/// The circuit with its net replaced.
fn with_net(circuit: Circuit, new: Net) -> Circuit
    ensures { result ≡ with_net_of circuit new }
{
    let Circuit {
        model,
        inputs,
        outputs,
        clocks,
        latches,
        net: _,
    } = circuit;
    Circuit {
        model,
        inputs,
        outputs,
        clocks,
        latches,
        net: new,
    }
}

/// The net of a circuit without its dangling gates.
fn left_net(alloc: Global, circuit: &Circuit) -> Result<Net, AllocError>
    ensures left { IfOk result (λ net. net ≡ cleanup circuit.now.net) }
    ensures implements { IfOk result (Implements circuit.now.net) }
{
    remove_dangling(alloc, &circuit.net)
}

/// The circuit without its dangling gates.
#[tactic(auto, using(crate::specs::BasedLaws::cleaning))]
pub fn cleaned(alloc: Global, circuit: Circuit) -> Result<Circuit, AllocError>
    requires { IsProper circuit }
    ensures left { IfOk result (λ left. left ≡ left_of circuit) }
    ensures proper { IfOk result IsProper }
    ensures implements { IfOk result (λ left. Implements circuit.net left.net) }
{
    let net = left_net(alloc, &circuit)?;
    Ok(with_net(circuit, net))
}
