//! Tests of the cleanup of dangling gates.

use crate::tables::{cover, is_cover};
use net_core::{Cover, Net, Sig, cover_cost, cover_value, expand, remove_dangling};
use std::alloc::{AllocError, Global};

const INPUTS: [Sig; 3] = [Sig::Node(1), Sig::Node(2), Sig::Node(3)];

/// Whether XOR and AND have their costs and values and, in a net without gates, their nodes.
fn are_built(alloc: Global, net: &mut Net, xor: &Cover, and: &Cover) -> Result<bool, AllocError> {
    if net.sources() != 3 || net.gates().len() != 0 || xor.width != 3 || and.width != 3 {
        return Ok(false);
    }
    if !is_cover(xor) || !is_cover(and) || xor.cubes.len() > 8 || and.cubes.len() > 8 {
        return Ok(false);
    }
    if cover_cost(xor, &INPUTS) != 3 || cover_cost(and, &INPUTS) != 1 {
        return Ok(false);
    }
    let values = [false, true, true];
    let reported = cover_value(xor, &values) && !cover_value(and, &values);
    let first = expand(alloc, net, xor, &INPUTS)?;
    let second = expand(alloc, net, and, &INPUTS)?;
    Ok(reported && first == Sig::Node(6) && second == Sig::Node(7))
}

/// Whether only the gate of AND remains in `net`.
fn is_left(alloc: Global, net: &Net) -> Result<bool, AllocError> {
    let left = remove_dangling(alloc, net)?;
    let sinks = [Sig::Node(4), Sig::Node(2), Sig::One];
    Ok(left.gates().len() == 1 && left.sinks() == sinks.as_slice())
}

/// Whether only the gate of AND remains of XOR and AND, if only AND is read.
fn is_cleaned_up(alloc: Global, xor: &Cover, and: &Cover) -> Result<bool, AllocError> {
    let mut net = Net::new(3, Vec::new(alloc), Vec::new(alloc));
    let built = are_built(alloc, &mut net, xor, and)?;
    if !built || net.sources() != 3 || net.gates().len() != 4 {
        return Ok(false);
    }
    let sinks = [Sig::Node(7), Sig::Node(2), Sig::One];
    let net = net.with_sinks(Vec::from_slice(alloc, &sinks)?);
    let well = is_left(alloc, &net);
    drop(net);
    well
}

/// Whether the cleanup removes the dangling gates of such a net.
fn dangling_gates_go_from(alloc: Global) -> Result<bool, AllocError> {
    let xor = cover(alloc, &[b"01-", b"10-"], true)?;
    let and = cover(alloc, &[b"11-"], true)?;
    let well = is_cleaned_up(alloc, &xor, &and);
    drop(and);
    drop(xor);
    well
}

#[test]
fn gates_that_no_sink_depends_on_are_removed(rt: HostRuntime) {
    assert!(rt; matches!(dangling_gates_go_from(rt.alloc()), Ok(true)));
}
