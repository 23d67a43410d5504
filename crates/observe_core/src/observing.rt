//! The rows of a window's inputs on which the window is observable, all but its observability don't-cares:
//! under some assignment of the observing fanin cone's leaves that gives the row, some output of the fanout
//! cone distinguishes two values of the window's outputs.

ghost use Rattle.std.specs.Prelude.{◌≡◌, ◌≤◌, ◌<◌, true, false, length, IfOk};
ghost use Rattle.window_theory.specs.Nodes.{IsRising, AreJust};
ghost use Rattle.window_theory.specs.Window.{Belongs};
ghost use Rattle.observe_theory.specs.FanoutCone.{IsFanoutCone};
ghost use Rattle.observe_core.specs.Observing.{IsEither, IsObservingCone, IsObservableMask};
ghost use Rattle.net_theory.specs.Limits.{most_leaves};

use crate::output_differences::distinguishing;
use crate::shape::FanoutCone;
use lane_sim::{Cone, MOST_LEAVES, cone_words, patterns_on};
use std::alloc::{AllocError, Global};
use window_core::{Net, Window, fanin_cone, put, signals_of};

/// The inputs of a window and of its fanout cone, in one ascending list.
fn first_leaves(alloc: Global, inputs: &[u32], side_inputs: &[u32]) -> Result<Vec<u32>, AllocError>
    requires { IsRising inputs.now }
    ensures { IfOk result (λ first. AreJust (IsEither inputs.now side_inputs.now) first.items) }
{
    let mut first = Vec::with_capacity(alloc, 2 * MOST_LEAVES)?;
    first.extend_from_slice(inputs)?;
    let mut left = side_inputs;
    while let Some((node, rest)) = left.split_first() {
        put(&mut first, *node)?;
        left = rest;
    }
    Ok(first)
}

/// Whether there are more nodes than a fanin cone may start from.
fn are_too_many(nodes: &[u32]) -> bool
    ensures yes { result ≡ true → most_leaves < length nodes.now }
    ensures no { result ≡ false → length nodes.now ≤ most_leaves }
{
    nodes.len() > MOST_LEAVES
}

/// The observable rows, by the observing fanin cone.
fn rows_distinguished(
    alloc: Global,
    net: &Net,
    window: &Window,
    fanout_cone: &FanoutCone,
    cone: &Cone,
) -> Result<u64, AllocError>
    requires belongs { Belongs net.now window.now }
    requires fanout_cone { IsFanoutCone net.now window.now fanout_cone.now }
    requires hidden { fanout_cone.now.directly_observable ≡ false }
    requires cone { IsObservingCone net.now window.now fanout_cone.now cone.now }
    ensures { IfOk result (IsObservableMask net.now window.now fanout_cone.now) }
{
    let _sources = net.sources(); // for the prover: brings the net's invariant into the proof
    let _leaves = cone.leaves(); // for the prover: brings in the cone's invariant
    let words = cone_words(alloc, cone)?;
    let differ = distinguishing(
        alloc,
        net,
        window.outputs(),
        cone,
        &words,
        &fanout_cone.gates,
        &fanout_cone.cone_outputs,
    )?;
    let signals = signals_of(alloc, window.inputs())?;
    Ok(patterns_on(&words, cone, &signals, &differ))
}

/// The observable rows of a window's inputs, as the bits of a mask. All rows are, where the window is
/// directly observable or the observing fanin cone would start from more than 12 nodes.
pub(crate) fn observable_rows(
    alloc: Global,
    net: &Net,
    window: &Window,
    fanout_cone: &FanoutCone,
) -> Result<u64, AllocError>
    requires belongs { Belongs net.now window.now }
    requires fanout_cone { IsFanoutCone net.now window.now fanout_cone.now }
    ensures { IfOk result (IsObservableMask net.now window.now fanout_cone.now) }
{
    let _sources = net.sources(); // for the prover: brings the net's invariant into the proof
    let _outputs = window.outputs(); // for the prover: the window has few inputs
    if fanout_cone.directly_observable {
        return Ok(u64::MAX);
    }
    let first = first_leaves(alloc, window.inputs(), &fanout_cone.side_inputs)?;
    if are_too_many(&first) {
        return Ok(u64::MAX);
    }
    let cone = fanin_cone(alloc, net, &first)?;
    rows_distinguished(alloc, net, window, fanout_cone, &cone)
}
