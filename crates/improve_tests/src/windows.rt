//! Windows and partners of some small nets.

ghost use Rattle.std.specs.Prelude.{IsTrue, IfOk, IfSome};
ghost use Rattle.window_theory.specs.Paths.{IsGate};
ghost use Rattle.window_theory.specs.Window.{Belongs};

use crate::nets::{Plan, planned};
use crate::plain::end_of;
use net_core::{Net, Sig};
use std::alloc::{AllocError, Global};
use window_core::{Window, partners, window};

/// Whether a gate is at `node`.
fn is_gate(net: &Net, node: u32) -> bool
    ensures { IsTrue result → IsGate net.now node }
{
    net.sources() < node && node < end_of(net)
}

/// The window of `root` alone with `count` gates.
pub fn alone(alloc: Global, net: &Net, root: u32, count: u32) -> Result<Option<Window>, AllocError>
    ensures { IfOk result (λ answer. IfSome answer (λ w. Belongs net.now w)) }
{
    // for the prover: brings the net's invariant into the proof
    let _sources = net.sources();
    if count == 0 || count > 8 || !is_gate(net, root) {
        return Ok(None);
    }
    let Some(window) = window(alloc, net, root, None, count)? else {
        return Ok(None);
    };
    Ok(Some(window))
}

/// The window of `root`, its partner at `index`, and `count` gates.
pub fn together(
    alloc: Global,
    net: &Net,
    root: u32,
    index: usize,
    count: u32,
) -> Result<Option<Window>, AllocError> {
    if count == 0 || count > 8 || !is_gate(net, root) {
        return Ok(None);
    }
    let partners = partners(alloc, net, root)?;
    if index >= partners.len() {
        return Ok(None);
    }
    window(alloc, net, root, Some(partners[index]), count)
}

/// The partners of the gate at `root`; none where no gate is there.
pub fn partners_at(alloc: Global, net: &Net, root: u32) -> Result<Vec<u32>, AllocError> {
    if !is_gate(net, root) {
        return Ok(Vec::new(alloc));
    }
    partners(alloc, net, root)
}

/// Two gates side by side that compute the same.
const TWINS: Plan = Plan {
    sources: 2,
    gates: &[
        (1, Sig::Node(1), Sig::Node(2)),
        (1, Sig::Node(1), Sig::Node(2)),
    ],
    sinks: &[Sig::Node(3), Sig::Node(4)],
};

/// Ten gates with the first source as a fanin; it is both fanins of the fourth.
const TEN: Plan = Plan {
    sources: 2,
    gates: &[
        (1, Sig::Node(1), Sig::Node(2)),
        (1, Sig::Node(1), Sig::Node(2)),
        (1, Sig::Node(1), Sig::Node(2)),
        (1, Sig::Node(1), Sig::Node(1)),
        (1, Sig::Node(1), Sig::Node(2)),
        (1, Sig::Node(1), Sig::Node(2)),
        (1, Sig::Node(1), Sig::Node(2)),
        (1, Sig::Node(1), Sig::Node(2)),
        (1, Sig::Node(1), Sig::Node(2)),
        (1, Sig::Node(1), Sig::Node(2)),
    ],
    sinks: &[Sig::Node(12)],
};

/// Nets, roots and their partners, of which there are at most eight.
const PARTNERS: &[(&str, &Plan, u32, &[u32])] = &[
    ("two gates on the same fanins", &TWINS, 4, &[3]),
    ("the first of two gates", &TWINS, 3, &[]),
    (
        "the last of ten gates",
        &TEN,
        12,
        &[11, 10, 9, 8, 7, 6, 5, 4],
    ),
    ("the fourth of ten gates", &TEN, 6, &[5, 4, 3]),
];

/// Whether `root` in the net of `plan` has the partners `wanted`.
fn has_partners(alloc: Global, plan: &Plan, root: u32, wanted: &[u32]) -> bool {
    let Some(net) = planned(alloc, plan) else {
        return false;
    };
    match partners_at(alloc, &net, root) {
        Ok(found) => found.as_slice() == wanted,
        Err(_) => false,
    }
}

#[test]
fn the_last_eight_gates_that_share_a_fanin_are_partners(rt: HostRuntime) {
    for &(name, plan, root, wanted) in PARTNERS {
        assert!(rt; has_partners(rt.alloc(), plan, root, wanted), "{name}");
    }
}

/// A chain of gates over seven sources: the last five gates read six of them and a gate, and the
/// last six read seven.
const ROW: Plan = Plan {
    sources: 7,
    gates: &[
        (1, Sig::Node(1), Sig::Node(2)),
        (1, Sig::Node(8), Sig::Node(3)),
        (1, Sig::Node(9), Sig::Node(4)),
        (1, Sig::Node(10), Sig::Node(5)),
        (1, Sig::Node(11), Sig::Node(6)),
        (1, Sig::Node(12), Sig::Node(7)),
    ],
    sinks: &[Sig::Node(13)],
};

/// The window of `root` with `count` gates in the net of `plan`, with its first partner or alone:
/// its gates, inputs and outputs; without gates where there is none.
struct Found {
    name: &'static str,
    plan: &'static Plan,
    root: u32,
    paired: bool,
    count: u32,
    gates: &'static [u32],
    inputs: &'static [u32],
    outputs: &'static [u32],
}

/// Windows; at most six inputs.
const WINDOWS: &[Found] = &[
    Found {
        name: "two gates on the same fanins",
        plan: &TWINS,
        root: 4,
        paired: true,
        count: 2,
        gates: &[3, 4],
        inputs: &[1, 2],
        outputs: &[3, 4],
    },
    Found {
        name: "five gates of a chain, six inputs",
        plan: &ROW,
        root: 13,
        paired: false,
        count: 5,
        gates: &[9, 10, 11, 12, 13],
        inputs: &[3, 4, 5, 6, 7, 8],
        outputs: &[13],
    },
    Found {
        name: "six gates of a chain would have seven inputs",
        plan: &ROW,
        root: 13,
        paired: false,
        count: 6,
        gates: &[],
        inputs: &[],
        outputs: &[],
    },
    Found {
        name: "no three gates are in a cone of two",
        plan: &ROW,
        root: 9,
        paired: false,
        count: 3,
        gates: &[],
        inputs: &[],
        outputs: &[],
    },
];

/// The window of `root` with `count` gates, with the first partner or alone.
fn window_of(alloc: Global, net: &Net, found: &Found) -> Result<Option<Window>, AllocError> {
    if found.paired {
        return together(alloc, net, found.root, 0, found.count);
    }
    alone(alloc, net, found.root, found.count)
}

/// Whether a window has the parts of `found`.
fn has_parts(window: &Window, found: &Found) -> bool {
    let nodes = window.gates() == found.gates && window.inputs() == found.inputs;
    nodes && window.outputs() == found.outputs
}

/// Whether `net` has the window of `found`, or none.
fn has_window(alloc: Global, net: &Net, found: &Found) -> bool {
    match window_of(alloc, net, found) {
        Ok(Some(window)) => has_parts(&window, found),
        Ok(None) => found.gates.is_empty(),
        Err(_) => false,
    }
}

/// Whether the net of the plan has it.
fn is_found(alloc: Global, found: &Found) -> bool {
    match planned(alloc, found.plan) {
        Some(net) => has_window(alloc, &net, found),
        None => false,
    }
}

#[test]
fn windows_have_these_gates_inputs_and_outputs(rt: HostRuntime) {
    for found in WINDOWS {
        assert!(rt; is_found(rt.alloc(), found), "{}", found.name);
    }
}
