//! Hundreds of small pseudorandom nets: their partners, windows, specifications and fanout cones, compared
//! with a plain program. And a window of eight outputs.

ghost use Rattle.window_theory.specs.Window.{Belongs};

use crate::fanin_cones::{are_words, care_rows};
use crate::nets::{Plan, gate, net_of, planned};
use crate::observed::is_seen_plainly;
use crate::plain::{are, end_of, greatest, inputs, only, outputs, sharing, taken};
use crate::windows::{alone, partners_at, together};
use net_core::{Gate, Net, Sig};
use std::alloc::{AllocError, Global};
use window_core::{Window, spec_of};

/// The next pseudorandom number.
fn next(state: &mut u32) -> u32 {
    *state = state.wrapping_mul(1_664_525).wrapping_add(1_013_904_223);
    *state >> 8
}

/// A constant or a node below `node`.
fn any_signal(state: &mut u32, node: u32) -> Sig {
    if node == 0 {
        return Sig::Zero;
    }
    let number = next(state) % node;
    if number == 0 {
        Sig::One
    } else {
        Sig::Node(number)
    }
}

/// `count` gates after `sources` sources.
fn any_gates(
    alloc: Global,
    state: &mut u32,
    sources: u32,
    count: u32,
) -> Result<Vec<Gate>, AllocError> {
    let mut gates = Vec::new(alloc);
    for i in 0..count {
        let op = (next(state) % 16) as u8;
        let node = sources.wrapping_add(1).wrapping_add(i);
        let a = any_signal(state, node);
        let b = any_signal(state, node);
        gates.push(gate(op, a, b))?;
    }
    Ok(gates)
}

/// Three sinks below `node`.
fn any_sinks(alloc: Global, state: &mut u32, node: u32) -> Result<Vec<Sig>, AllocError> {
    let mut sinks = Vec::new(alloc);
    for _sink in 0..3u32 {
        sinks.push(any_signal(state, node))?;
    }
    Ok(sinks)
}

/// A net of 2 to 4 sources and 4 to 12 gates.
fn any_net(alloc: Global, state: &mut u32) -> Option<Net> {
    let sources = 2 + next(state) % 3;
    let count = 4 + next(state) % 9;
    let Ok(gates) = any_gates(alloc, state, sources, count) else {
        return None;
    };
    match any_sinks(alloc, state, sources + 1 + count) {
        Ok(sinks) => net_of(sources, gates, sinks),
        Err(_) => None,
    }
}

/// Whether `gates` with `partner`, or without, make a window.
fn make_window(net: &Net, gates: u64, partner: u64) -> bool {
    let few = inputs(net, gates).count_ones() <= 6;
    gates != 0 && few && gates & partner == partner
}

/// Whether a window has the gates `gates`, their inputs and their outputs.
fn has_gates(net: &Net, window: &Window, gates: u64) -> bool {
    let nodes = are(window.gates(), gates) && are(window.inputs(), inputs(net, gates));
    nodes && are(window.outputs(), outputs(net, gates))
}

/// Whether the window of `gates` has the specification of the plain program.
fn is_specified(alloc: Global, net: &Net, window: &Window, gates: u64) -> bool
    requires { Belongs net.now window.now }
{
    let rows = care_rows(net, inputs(net, gates));
    match spec_of(alloc, net, window) {
        Ok(spec) => are_words(net, gates, rows, spec.on(), spec.care()),
        Err(_) => false,
    }
}

/// Whether the window of `root` alone with `count` gates is that of the plain program, with its specification
/// and its fanout cone, or there is none.
fn is_plain(alloc: Global, net: &Net, root: u32, count: u32) -> bool {
    let gates = taken(net, root, 0, count);
    match alone(alloc, net, root, count) {
        Ok(Some(window)) => {
            make_window(net, gates, 0)
                && has_gates(net, &window, gates)
                && is_specified(alloc, net, &window, gates)
                && is_seen_plainly(alloc, net, &window, gates)
        }
        Ok(None) => !make_window(net, gates, 0),
        Err(_) => false,
    }
}

/// Whether the window of `root` and `partner`, its first partner, with `count` gates is that of the
/// plain program, or there is none.
fn is_plain_pair(alloc: Global, net: &Net, root: u32, partner: u32, count: u32) -> bool {
    let gates = taken(net, root, only(partner), count);
    match together(alloc, net, root, 0, count) {
        Ok(Some(window)) => {
            make_window(net, gates, only(partner)) && has_gates(net, &window, gates)
        }
        Ok(None) => !make_window(net, gates, only(partner)),
        Err(_) => false,
    }
}

/// Whether `partners` are the last eight of `sharing`, the gates that share a fanin, from the last
/// on.
fn are_last(partners: &[u32], sharing: u64) -> bool {
    let mut left = sharing;
    for partner in partners {
        if left == 0 || greatest(left) != *partner {
            return false;
        }
        left &= !only(*partner);
    }
    partners.len() == 8 || (partners.len() < 8 && left == 0)
}

/// Whether `root` has the partners of the plain program.
fn has_plain_partners(alloc: Global, net: &Net, root: u32) -> bool {
    match partners_at(alloc, net, root) {
        Ok(partners) => are_last(&partners, sharing(net, root)),
        Err(_) => false,
    }
}

/// Whether `root` has the partners and the windows of the plain program, alone and with the
/// greatest partner.
fn are_plain(alloc: Global, net: &Net, root: u32) -> bool {
    let partner = greatest(sharing(net, root));
    for count in 1..6 {
        if !is_plain(alloc, net, root, count) {
            return false;
        }
        if partner != 0 && !is_plain_pair(alloc, net, root, partner, count) {
            return false;
        }
    }
    has_plain_partners(alloc, net, root)
}

/// Whether all roots of a net have them.
fn is_plain_net(alloc: Global, net: &Net) -> bool {
    for root in net.sources() + 1..end_of(net) {
        if !are_plain(alloc, net, root) {
            return false;
        }
    }
    true
}

/// Whether all roots of the next net have them.
fn is_plain_next(alloc: Global, state: &mut u32) -> bool {
    match any_net(alloc, state) {
        Some(net) => is_plain_net(alloc, &net),
        None => false,
    }
}

#[test]
fn small_nets_have_the_windows_of_the_plain_program(rt: HostRuntime) {
    let mut state = 1;
    for net in 0..200u32 {
        assert!(rt; is_plain_next(rt.alloc(), &mut state), "net {net}");
    }
}

/// Eight gates over two sources, in a chain, each a sink.
const EIGHT: Plan = Plan {
    sources: 2,
    gates: &[
        (1, Sig::Node(1), Sig::Node(2)),
        (4, Sig::Node(3), Sig::Node(1)),
        (5, Sig::Node(4), Sig::Node(2)),
        (6, Sig::Node(5), Sig::Node(1)),
        (7, Sig::Node(6), Sig::Node(2)),
        (8, Sig::Node(7), Sig::Node(1)),
        (9, Sig::Node(8), Sig::Node(2)),
        (10, Sig::Node(9), Sig::Node(1)),
    ],
    sinks: &[
        Sig::Node(3),
        Sig::Node(4),
        Sig::Node(5),
        Sig::Node(6),
        Sig::Node(7),
        Sig::Node(8),
        Sig::Node(9),
        Sig::Node(10),
    ],
};

/// Whether the window of all eight is that of the plain program, and has eight outputs.
fn are_outputs(alloc: Global) -> bool {
    let Some(net) = planned(alloc, &EIGHT) else {
        return false;
    };
    let gates = taken(&net, 10, 0, 8);
    outputs(&net, gates).count_ones() == 8 && is_plain(alloc, &net, 10, 8)
}

#[test]
fn all_eight_gates_of_a_window_may_be_outputs(rt: HostRuntime) {
    assert!(rt; are_outputs(rt.alloc()));
}
