//! A net as a graph: each operator becomes AND or XOR with complements, or no gate at all.
ghost use Rattle.std.specs.Prelude.{◌≡◌, OnOk, IfOk, length};

use crate::{Builder, Substitution, Xag, rebuild};
use net_core::{Net, Op, Sig};
use rows::at;
use std::alloc::{AllocError, Global};

/// The literal of a signal, by the literals of the nodes.
fn literal_of(nodes: &[u32], sig: Sig) -> u32 {
    match sig {
        Sig::Zero => 0,
        Sig::One => 1,
        Sig::Node(net_node) => at(nodes, net_node),
    }
}

/// AND of two literals, each complemented so that the operator's only 1 is there: its truth table is 1, 2, 4
/// or 8.
fn and_of(builder: &mut Builder, word: u8, a: u32, b: u32) -> Result<u32, AllocError>
    ensures { OnOk result (builder.new.sources ≡ builder.old.sources) }
{
    let first = if word == 4 || word == 8 { a ^ 1 } else { a };
    let second = if word == 2 || word == 8 { b ^ 1 } else { b };
    builder.gate(first, second, false)
}

/// The literal of an operator on two literals.
fn joined(builder: &mut Builder, op: Op, a: u32, b: u32) -> Result<u32, AllocError>
    ensures { OnOk result (builder.new.sources ≡ builder.old.sources) }
{
    let word = op.get();
    match word {
        0 => Ok(0),
        15 => Ok(1),
        3 => Ok(a),
        12 => Ok(a ^ 1),
        5 => Ok(b),
        10 => Ok(b ^ 1),
        6 => builder.gate(a, b, true),
        9 => builder.gate(a, b ^ 1, true),
        1 | 2 | 4 | 8 => and_of(builder, word, a, b),
        _ => Ok(and_of(builder, 15 ^ word, a, b)? ^ 1),
    }
}

/// The literals of the nodes.
fn node_literals(alloc: Global, net: &Net, builder: &mut Builder) -> Result<Vec<u32>, AllocError>
    ensures { OnOk result (builder.new.sources ≡ builder.old.sources) }
{
    let count = net.sources() as usize + 1 + net.gates().len();
    let mut nodes = Vec::with_capacity(alloc, count)?;
    for source in 0..=net.sources() {
        nodes.push(source.wrapping_mul(2))?;
    }
    for gate in net.gates() {
        let first = literal_of(&nodes, gate.a);
        let second = literal_of(&nodes, gate.b);
        let literal = joined(builder, gate.op, first, second)?;
        nodes.push(literal)?;
    }
    Ok(nodes)
}

/// The literals of the sinks.
fn sink_literals(alloc: Global, nodes: &[u32], sinks: &[Sig]) -> Result<Vec<u32>, AllocError>
    ensures { IfOk result (λ literals. length literals.items ≡ length sinks.now) }
{
    let mut literals = Vec::with_capacity(alloc, sinks.len())?;
    for sink in sinks {
        literals.push(literal_of(nodes, *sink))?;
    }
    Ok(literals)
}

/// The graph of a net, with its dangling gates.
fn whole_graph(alloc: Global, net: &Net) -> Result<Xag, AllocError>
    ensures sources { IfOk result (λ xag. xag.sources ≡ net.now.sources) }
    ensures sinks { IfOk result (λ xag. length xag.sinks ≡ length net.now.sinks) }
{
    let mut builder = Builder::new(alloc, net.sources(), net.gates().len())?;
    let nodes = node_literals(alloc, net, &mut builder)?;
    let sinks = sink_literals(alloc, &nodes, net.sinks())?;
    builder.finish(alloc, &sinks)
}

/// The graph of a net without its dangling gates, each operator as AND or XOR with complements. With
/// `keeps_order` its gates are in the order of the net, and keep it when the graph is rebuilt; otherwise they
/// are in depth-first order. Nothing is proved about either order.
pub fn from_net(alloc: Global, net: &Net, keeps_order: bool) -> Result<Xag, AllocError>
    ensures sources { IfOk result (λ xag. xag.sources ≡ net.now.sources) }
    ensures sinks { IfOk result (λ xag. length xag.sinks ≡ length net.now.sinks) }
{
    let whole = whole_graph(alloc, net)?.with_order(keeps_order);
    let unchanged = Substitution::new(alloc, &whole);
    match rebuild(alloc, &whole, &unchanged)? {
        Some(live) => Ok(live),
        None => Ok(whole),
    }
}
