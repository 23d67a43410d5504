//! The candidate with normalized sinks: equal sinks of the net stay equal, and a sink that is a constant or a
//! source stays that. Every sink of the net at one node gets one signal, that of the candidate's sink there.
ghost use Rattle.std.specs.Prelude.{◌≡◌, ℕ, length, vec_len, IfOk};
ghost use Rattle.net_theory.specs.Net.{IsSigBelow, end_of};
ghost use Rattle.net_core.specs.Marks.{nodes_of};
ghost use Rattle.move_check.specs.Sinks.{IsSinkMap, HasSinksOf};

use net_core::{Net, Sig, moved_sinks, start_nodes};
use std::alloc::{AllocError, Global};

/// Maps the node of a net's sink to the signal of the candidate's sink, if the node is a gate.
#[tactic(auto, using(crate::specs::SinkLaws::mapping))]
fn put_sink(sources: u32, nodes: &mut [Sig], sink: Sig, other: Sig)
    requires within { IsSigBelow (length nodes.old) sink }
    ensures count { length nodes.new ≡ length nodes.old }
    ensures map { (end : ℕ) → IsSigBelow end other → IsSinkMap sources end (nodes_of nodes.old) →
        IsSinkMap sources end (nodes_of nodes.new) }
{
    match sink {
        Sig::Zero => {}
        Sig::One => {}
        Sig::Node(node) => {
            if node > sources {
                nodes[node as usize] = other;
            }
        }
    }
}

/// For each node of the net, the signal of the candidate that replaces it in the sinks.
#[tactic(auto, using(crate::specs::SinkLaws::mapping))]
fn sink_map(alloc: Global, net: &Net, candidate: &Net) -> Result<Vec<Sig>, AllocError>
    requires sources { candidate.now.sources ≡ net.now.sources }
    ensures map { IfOk result (λ nodes. IsSinkMap net.now.sources (end_of candidate.now) (nodes_of nodes.items)) }
    ensures count { IfOk result (λ nodes. vec_len nodes ≡ end_of net.now) }
{
    let sources = net.sources();
    let count = sources + 1 + net.gates().len() as u32;
    let mut nodes = start_nodes(alloc, sources, count)?;
    let sinks = net.sinks();
    let others = candidate.sinks();
    for index in 0..sinks.len().min(others.len()) {
        put_sink(sources, &mut nodes, sinks[index], others[index]);
    }
    Ok(nodes)
}

/// The candidate with its sinks given by that map.
#[tactic(auto, using(crate::specs::SinkLaws::mapping))]
pub(crate) fn with_sinks_of(alloc: Global, net: &Net, candidate: Net) -> Result<Net, AllocError>
    requires sources { candidate.sources ≡ net.now.sources }
    ensures gates { IfOk result (λ new. new.gates ≡ candidate.gates) }
    ensures sinks { IfOk result (HasSinksOf net.now) }
{
    let nodes = sink_map(alloc, net, &candidate)?;
    let sinks = moved_sinks(alloc, &nodes, net.sinks())?;
    Ok(candidate.with_sinks(sinks))
}
