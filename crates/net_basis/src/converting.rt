//! The pass over the gates of a net. `nodes` maps each old node to its new signal.
ghost use Rattle.std.specs.Prelude.{◌≡◌, ◌≤◌, false, length, IfOk};
ghost use Rattle.op_basis.specs.Basis.{members};
ghost use Rattle.net_theory.specs.Net.{IsGateAt, end_of};
ghost use Rattle.net_theory.specs.Moving.{sources_stay, moved_gate};
ghost use Rattle.net_theory.specs.Limits.{most_gates};
ghost use Rattle.net_core.specs.Marks.{nodes_of, kept};
ghost use Rattle.net_basis.specs.OverBasis.{IsNetAnswer};
ghost use Rattle.net_basis.specs.Placing.{AreRecipes};
ghost use Rattle.net_basis.specs.Conversion.{are_in as are_in_of, IsPassed, IsPassAnswer};

use crate::answer::NetOver;
use crate::expressing::{Expressed, express};
use crate::local::local_word;
use crate::recipe::{Recipe, recipes};
use net_core::{Gate, Net, Sig, moved, moved_sinks, start_nodes};
use op_basis::Basis;
use std::alloc::{AllocError, Global};

/// What became of all gates.
#[derive(Drop)]
pub enum Passed {
    /// The gates over the basis.
    All(Vec<Gate>),
    /// The basis can't express the gate of this node.
    Cannot(u32),
    /// There would be too many gates.
    TooMany,
}

/// Whether each gate has an operator of the basis.
#[tactic(auto, unfolding(crate::specs::Conversion::are_in))]
fn are_in(basis: Basis, gates: &[Gate]) -> bool
    ensures { result ≡ are_in_of (members basis) gates.now }
{
    let mut left = gates;
    while let Some((gate, rest)) = left.split_first() {
        if !basis.contains(gate.op) {
            return false;
        }
        left = rest;
    }
    true
}

/// The gate with its operands mapped.
fn moved_operands(nodes: &[Sig], gate: &Gate) -> Gate
    requires { IsGateAt (length nodes.now) gate.now }
    ensures { result ≡ moved_gate (nodes_of nodes.now) gate.now }
{
    Gate {
        op: gate.op,
        a: moved(nodes, gate.a),
        b: moved(nodes, gate.b),
    }
}

/// Goes over the gates of a net in order and maps their nodes.
fn pass(
    alloc: Global,
    net: &Net,
    basis: Basis,
    recipes: &[Recipe],
    nodes: &mut [Sig],
) -> Result<Passed, AllocError>
    requires recipes { AreRecipes (members basis) recipes.now }
    requires start { nodes_of nodes.old ≡ sources_stay net.now.sources }
    requires count { length nodes.old ≡ end_of net.now }
    requires other { are_in_of (members basis) net.now.gates ≡ false }
    ensures answer { IfOk result (IsPassAnswer (members basis) net.now (kept nodes.new)) }
    ensures nodes { length nodes.new ≡ length nodes.old }
{
    let sources = net.sources();
    let mut gates = Vec::new(alloc);
    let mut node = sources as usize + 1;
    let mut left = net.gates();
    while let Some((gate, rest)) = left.split_first() {
        let word = local_word(gate);
        let mapped = moved_operands(nodes, gate);
        match express(basis, recipes, sources, &mut gates, word, &mapped)? {
            Expressed::By(sig) => nodes[node] = sig,
            Expressed::Cannot => return Ok(Passed::Cannot(node as u32)),
            Expressed::TooMany => return Ok(Passed::TooMany),
        }
        node += 1;
        left = rest;
    }
    Ok(Passed::All(gates))
}

/// The net of the new gates, with the sinks mapped.
fn net_of_gates(
    alloc: Global,
    net: &Net,
    basis: Basis,
    nodes: &[Sig],
    gates: Vec<Gate>,
) -> Result<NetOver, AllocError>
    requires passed { IsPassed (members basis) net.now (kept nodes.now gates.items) }
    requires count { length nodes.now ≡ end_of net.now }
    requires other { are_in_of (members basis) net.now.gates ≡ false }
    ensures { IfOk result (IsNetAnswer (members basis) net.now) }
{
    let sinks = moved_sinks(alloc, nodes, net.sinks())?;
    Ok(NetOver::Over(Net::new(net.sources(), gates, sinks)))
}

/// The net over the basis, by the recipes.
fn net_in(
    alloc: Global,
    net: &Net,
    basis: Basis,
    recipes: &[Recipe],
    nodes: &mut [Sig],
) -> Result<NetOver, AllocError>
    requires recipes { AreRecipes (members basis) recipes.now }
    requires start { nodes_of nodes.old ≡ sources_stay net.now.sources }
    requires count { length nodes.old ≡ end_of net.now }
    requires other { are_in_of (members basis) net.now.gates ≡ false }
    ensures { IfOk result (IsNetAnswer (members basis) net.now) }
{
    match pass(alloc, net, basis, recipes, nodes)? {
        Passed::All(gates) => net_of_gates(alloc, net, basis, nodes, gates),
        Passed::Cannot(node) => Ok(NetOver::Cannot(node)),
        Passed::TooMany => Ok(NetOver::TooMany),
    }
}

/// A net over a basis: itself, if each gate has an operator of the basis; or else each gate of another operator is a
/// chain of gates over the basis, for its operands.
pub fn net_over(alloc: Global, net: &Net, basis: Basis) -> Result<NetOver, AllocError>
    requires { length net.now.gates ≤ most_gates }
    ensures { IfOk result (IsNetAnswer (members basis) net.now) }
{
    if are_in(basis, net.gates()) {
        return Ok(NetOver::Itself);
    }
    let all = recipes(alloc, basis)?;
    let sources = net.sources();
    let count = sources + 1 + net.gates().len() as u32;
    let mut nodes = start_nodes(alloc, sources, count)?;
    net_in(alloc, net, basis, &all, &mut nodes)
}
