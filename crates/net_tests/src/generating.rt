//! Tests of the generator's first blocks.

use gen_core::generate;
use std::alloc::{AllocError, Global};

/// The text of three blocks.
const WANTED: &[u8] =
    b".model gen\n.inputs a0 b0 a1 b1 c1 a2 b2 c2\n.outputs y0 y1 y2\n.names a0 b0 p0\n10 1\n.names a0 b0 q0\n01 1\n.names p0 q0 y0\n1- 1\n-1 1\n.names a1 b1 p1\n11 1\n.names a1 c1 q1\n11 1\n.names p1 q1 y1\n11 1\n.names a2 p2\n0 1\n.names a2 b2 q2\n11 1\n.names p2 c2 r2\n11 1\n.names q2 r2 y2\n1- 1\n-1 1\n.end\n";

/// Whether the generator writes the expected text of three blocks.
fn are_three(alloc: Global) -> Result<bool, AllocError> {
    let mut text = Vec::new(alloc);
    generate(3, &mut text)?;
    Ok(text.as_slice() == WANTED)
}

#[test]
fn three_blocks_are_of_three_kinds(rt: HostRuntime) {
    assert!(rt; matches!(are_three(rt.alloc()), Ok(true)));
}
