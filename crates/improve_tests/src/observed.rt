//! Fanout cones and specifications with observability don't-cares, compared with a plain program.

ghost use Rattle.window_theory.specs.Window.{Belongs};

use crate::fanin_cones::{are_words, care_rows, leaves, ones_of, row_of, rows_of, values};
use crate::plain::{are, end_of, gates_of, has, inputs, only, operands, outputs};
use net_core::Net;
use observe_core::{FanoutCone, fanout_cone, observed_spec};
use std::alloc::Global;
use window_core::Window;

/// The least gate outside `gates` that reads one of them; 0 if there is none.
fn next_follower(net: &Net, gates: u64) -> u32 {
    let others = gates_of(net) & !gates;
    for node in 0..end_of(net) {
        if has(others, node) && operands(net, node) & gates != 0 {
            return node;
        }
    }
    0
}

/// The gates of a window and of its fanout cone.
fn with_fanout_cone(net: &Net, gates: u64) -> u64 {
    let mut all = gates;
    for _taken in 0..16u32 {
        let next = next_follower(net, all);
        if next == 0 {
            break;
        }
        all |= only(next);
    }
    all
}

/// Whether a fanout cone has the gates, outputs and side inputs of the plain program, and the same answer to
/// whether the window is directly observable.
fn is_plain_fanout_cone(net: &Net, gates: u64, found: &FanoutCone) -> bool {
    let all = with_fanout_cone(net, gates);
    let seen = outputs(net, all);
    let side_inputs = inputs(net, all & !gates) & !all;
    let nodes = are(&found.gates, all & !gates) && are(&found.cone_outputs, seen & !gates);
    nodes
        && are(&found.side_inputs, side_inputs)
        && found.directly_observable == (seen & gates != 0)
}

/// Whether under the assignment `row` of `leaves` some bits of the window's outputs change an output of the
/// fanout cone.
fn is_reported(net: &Net, leaves: u64, outputs: u64, cone_outputs: u64, row: u32) -> bool {
    let given = ones_of(leaves, row);
    let own = values(net, leaves, given);
    for put in 0..rows_of(outputs) {
        let ones = (given & !outputs) | ones_of(outputs, put);
        if (values(net, leaves | outputs, ones) ^ own) & cone_outputs != 0 {
            return true;
        }
    }
    false
}

/// The rows of a window's inputs on which it is observable, a bit for each.
fn observable_rows(net: &Net, gates: u64) -> u64 {
    let all = with_fanout_cone(net, gates);
    let cone_outputs = outputs(net, all);
    let first = inputs(net, all);
    if cone_outputs & gates != 0 || first.count_ones() > 12 {
        return u64::MAX;
    }
    let leaves = leaves(net, first);
    let mut seen = 0;
    for row in 0..rows_of(leaves) {
        if is_reported(net, leaves, outputs(net, gates), cone_outputs, row) {
            let own = values(net, leaves, ones_of(leaves, row));
            seen |= only(row_of(own, inputs(net, gates)));
        }
    }
    seen
}

/// Whether the window of `gates` has the fanout cone and the observed specification of the plain program.
pub fn is_seen_plainly(alloc: Global, net: &Net, window: &Window, gates: u64) -> bool
    requires { Belongs net.now window.now }
{
    let Ok(found) = fanout_cone(alloc, net, window) else {
        return false;
    };
    if !is_plain_fanout_cone(net, gates, &found) {
        return false;
    }
    let rows = care_rows(net, inputs(net, gates)) & observable_rows(net, gates);
    match observed_spec(alloc, net, window) {
        Ok(spec) => are_words(net, gates, rows, spec.on(), spec.care()),
        Err(_) => false,
    }
}
