//! The name by which a gate is written.
ghost use Rattle.std.specs.Prelude.{◌≡◌, IfOk};
ghost use Rattle.net_theory.specs.Circuit.{IsProper};
ghost use Rattle.based.specs.Based.{name_at, gate_name as gate_name_of};

use net_core::{Circuit, Name, gate_names};
use std::alloc::{AllocError, Global};

/// The name of a gate, which is empty where the node is none.
#[tactic(auto, unfolding(crate::specs::Based::name_at))]
fn name_in(alloc: Global, names: &[Name], sources: u32, node: u32) -> Result<Vec<u8>, AllocError>
    ensures { IfOk result (λ name. name.items ≡ name_at names.now sources node) }
{
    let index = (node as usize).saturating_sub(sources as usize + 1);
    match names.get(index) {
        None => Ok(Vec::new(alloc)),
        Some(name) => Vec::from_slice(alloc, name.get()),
    }
}

/// The name of a gate of a circuit.
pub fn gate_name(alloc: Global, circuit: &Circuit, node: u32) -> Result<Vec<u8>, AllocError>
    requires { IsProper circuit.now }
    ensures { IfOk result (λ name. name.items ≡ gate_name_of circuit.now node) }
{
    let names = gate_names(alloc, circuit)?;
    name_in(alloc, &names, circuit.net.sources(), node)
}
