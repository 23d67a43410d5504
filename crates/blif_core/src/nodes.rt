//! The names of nodes.

ghost use Rattle.std.specs.Prelude.{◌≡◌};
ghost use Rattle.net_theory.specs.Circuit.{sources_of};
ghost use Rattle.net_theory.specs.Naming.{gate_names, node_name as node_name_of};
ghost use Rattle.std.specs.Prelude.{[], slice_index_or};

use net_core::{Circuit, Name};

/// The name at an index; empty if out of range.
fn name_at(names: &[Name], at: usize) -> &[u8]
    ensures { result.now ≡ slice_index_or names.now at [] }
{
    if at < names.len() {
        names[at].get()
    } else {
        &[]
    }
}

/// The name of the source at index `at`.
#[tactic(auto, using(crate::proofs::Sources::sources))]
fn source_name(circuit: &Circuit, at: usize) -> &[u8]
    ensures { result.now ≡ slice_index_or (sources_of circuit.now) at [] }
{
    let inputs = &circuit.inputs;
    let latches = &circuit.latches;
    if at < inputs.len() {
        return name_at(inputs, at);
    }
    let at = at - inputs.len();
    if at < latches.len() {
        latches[at].output.get()
    } else {
        &[]
    }
}

/// The name of a node; `names` are the names of the gates.
#[tactic(auto, unfolding(net_theory::specs::Naming::node_name))]
pub fn node_name<'a>(circuit: &'a Circuit, names: &'a [Name], node: u32) -> &'a [u8]
    requires { names.now ≡ gate_names circuit.now }
    ensures { result.now ≡ node_name_of circuit.now node }
{
    let sources = circuit.net.sources();
    if node <= sources {
        source_name(circuit, node.saturating_sub(1) as usize)
    } else {
        name_at(names, (node - sources - 1) as usize)
    }
}
