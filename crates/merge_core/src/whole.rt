//! A whole net as one cone: its leaves are the sources, and its gates are all gates of the net.
ghost use Rattle.std.specs.Prelude.{◌≡◌, ◌+◌, ◌≤◌, IfOk};
ghost use Rattle.merge_core.specs.Whole.{count_from, numbered_from, cone_of};
ghost use Rattle.net_theory.specs.Limits.{most_leaves};

use lane_sim::Cone;
use net_core::{Gate, Net};
use std::alloc::{AllocError, Global};

/// The nodes of the sources.
fn source_nodes(alloc: Global, sources: u32) -> Result<Vec<u32>, AllocError>
    ensures { IfOk result (λ nodes. nodes.items ≡ count_from 1 sources) }
{
    let mut nodes = Vec::new(alloc);
    for before in 0..sources {
        nodes.push(before + 1)?;
    }
    Ok(nodes)
}

/// The gates of a net with their nodes.
fn numbered_gates(alloc: Global, net: &Net) -> Result<Vec<(u32, Gate)>, AllocError>
    ensures { IfOk result (λ numbered. numbered.items ≡ numbered_from (net.now.sources + 1) net.now.gates) }
{
    let mut numbered = Vec::new(alloc);
    let mut node = net.sources() + 1;
    let mut left = net.gates();
    while let Some((gate, rest)) = left.split_first() {
        numbered.push((node, *gate))?;
        node += 1;
        left = rest;
    }
    Ok(numbered)
}

/// The cone of all gates of a net over its sources. It needs no check, since the gates of a net are in topological
/// order.
pub fn whole_cone(alloc: Global, net: &Net) -> Result<Cone, AllocError>
    requires { net.now.sources ≤ most_leaves }
    ensures { IfOk result (λ cone. cone ≡ cone_of net.now) }
{
    let leaves = source_nodes(alloc, net.sources())?;
    let gates = numbered_gates(alloc, net)?;
    Ok(Cone::new(leaves, gates))
}
