//! The graph that a search begins with.

use crate::graph::Graph;
use crate::loading::load;
use crate::muxes::decode_muxes;
use std::alloc::{AllocError, Global};
use xag_core::Xag;

/// A graph as one that changes in place, of which the levels are limited.
pub fn load_limited(alloc: Global, xag: &Xag, most: u32) -> Result<Graph, AllocError> {
    let mut graph = load(alloc, xag)?;
    graph.limit_levels(most)?;
    Ok(graph)
}

/// The same with its multiplexers decoded, unless that makes a path longer than the limit.
pub fn begun(alloc: Global, xag: &Xag, most: u32) -> Result<Graph, AllocError> {
    let mut graph = load(alloc, xag)?;
    decode_muxes(alloc, &mut graph)?;
    graph.limit_levels(most)?;
    if !graph.is_limited() || graph.is_within_limit() {
        return Ok(graph);
    }
    load_limited(alloc, xag, most)
}
