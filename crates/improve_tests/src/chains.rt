//! Chains substituted for windows.

ghost use Rattle.std.specs.Prelude.{◌≤◌, length, IfOk, IfSome, IsTrue};
ghost use Rattle.window_theory.specs.Window.{Belongs};
ghost use Rattle.window_theory.specs.Substituted.{Fits};
ghost use Rattle.subst_core.specs.Substitution.{Meets};

use crate::nets::{Plan, is_planned, planned};
use crate::windows::alone;
use chain_core::{Chain, first_difference, read_chain};
use net_core::{Net, Sig, remove_dangling};
use std::alloc::{AllocError, Global};
use subst_core::{WindowLists, rebuild_substituted, substitute};
use window_core::{Window, spec_of};

/// A window, and a chain for it.
#[derive(Drop)]
struct Pair {
    window: Window,
    chain: Chain,
}

/// The window of `root` with `count` gates and the chain of `block`, if the chain fits the window
/// and has no more steps than the window has gates.
fn pair_of(alloc: Global, net: &Net, root: u32, count: u32, block: &[u8]) -> Option<Pair>
    ensures belongs { IfSome result (λ pair. Belongs net.now pair.window) }
    ensures fits { IfSome result (λ pair. Fits pair.window pair.chain) }
    ensures few { IfSome result (λ pair. length pair.chain.steps ≤ length pair.window.gates) }
{
    let Ok(Some(window)) = alone(alloc, net, root, count) else {
        return None;
    };
    let inputs = window.inputs().len() as u32;
    let outputs = window.outputs().len() as u32;
    if block.len() > 1000 {
        return None;
    }
    let Ok((chain, _used)) = read_chain(alloc, block, 1, inputs, outputs) else {
        return None;
    };
    if chain.steps().len() > window.gates().len() {
        return None;
    }
    Some(Pair { window, chain })
}

/// A net, a window, a chain for it, the net after substitution, and, where the chain implements the window,
/// that net without dangling gates.
struct Row {
    name: &'static str,
    plan: &'static Plan,
    root: u32,
    count: u32,
    block: &'static [u8],
    left: &'static Plan,
    live: Option<&'static Plan>,
}

/// Whether the substitution leaves the net `left`.
fn is_rebuilt(alloc: Global, net: &Net, pair: &Pair, left: &Plan) -> bool
    requires belongs { Belongs net.now pair.now.window }
    requires fits { Fits pair.now.window pair.now.chain }
    requires few { length pair.now.chain.steps ≤ length pair.now.window.gates }
{
    // for the prover: brings the net's invariant into the proof
    let _sources = net.sources();
    let lists = WindowLists {
        gates: pair.window.gates(),
        inputs: pair.window.inputs(),
        outputs: pair.window.outputs(),
    };
    match rebuild_substituted(alloc, net, &lists, &pair.chain) {
        Ok(new) => is_planned(&new, left),
        Err(_) => false,
    }
}

/// Whether a chain implements the specification of a window.
fn agrees(alloc: Global, net: &Net, pair: &Pair) -> Result<bool, AllocError>
    requires belongs { Belongs net.now pair.now.window }
    requires fits { Fits pair.now.window pair.now.chain }
    ensures { IfOk result (λ answer. IsTrue answer → Meets net.now pair.now.window pair.now.chain) }
{
    let spec = spec_of(alloc, net, &pair.window)?;
    Ok(first_difference(&pair.chain, &spec).is_none())
}

/// Whether it does, and the substitution leaves the net `left`, and `live` without dangling gates.
fn is_substituted(alloc: Global, net: &Net, pair: &Pair, left: &Plan, live: &Plan) -> bool
    requires belongs { Belongs net.now pair.now.window }
    requires fits { Fits pair.now.window pair.now.chain }
    requires few { length pair.now.chain.steps ≤ length pair.now.window.gates }
{
    let Ok(true) = agrees(alloc, net, pair) else {
        return false;
    };
    // for the prover: brings the net's invariant into the proof
    let _sources = net.sources();
    let lists = WindowLists {
        gates: pair.window.gates(),
        inputs: pair.window.inputs(),
        outputs: pair.window.outputs(),
    };
    let Ok(all) = substitute(alloc, net, &lists, &pair.chain) else {
        return false;
    };
    if !is_planned(&all, left) {
        return false;
    }
    match remove_dangling(alloc, &all) {
        Ok(new) => is_planned(&new, live),
        Err(_) => false,
    }
}

/// Whether the substitution leaves the nets of `row`.
fn leaves(alloc: Global, net: &Net, pair: &Pair, row: &Row) -> bool
    requires belongs { Belongs net.now pair.now.window }
    requires fits { Fits pair.now.window pair.now.chain }
    requires few { length pair.now.chain.steps ≤ length pair.now.window.gates }
{
    match row.live {
        Some(live) => is_substituted(alloc, net, pair, row.left, live),
        None => is_rebuilt(alloc, net, pair, row.left),
    }
}

/// Whether the window and the chain of `row` do.
fn is_left(alloc: Global, row: &Row) -> bool {
    let Some(net) = planned(alloc, row.plan) else {
        return false;
    };
    match pair_of(alloc, &net, row.root, row.count, row.block) {
        Some(pair) => leaves(alloc, &net, &pair, row),
        None => false,
    }
}

/// AND of two inputs by two gates.
const TWO: Plan = Plan {
    sources: 2,
    gates: &[
        (14, Sig::Node(1), Sig::Node(2)),
        (14, Sig::Node(3), Sig::Node(3)),
    ],
    sinks: &[Sig::Node(4)],
};

/// AND of two inputs by one gate.
const AND: Plan = Plan {
    sources: 2,
    gates: &[(1, Sig::Node(1), Sig::Node(2))],
    sinks: &[Sig::Node(3)],
};

/// Three gates over two sources; the first has a gate and a sink as fanouts, and a sink is a
/// source.
const THREE: Plan = Plan {
    sources: 2,
    gates: &[
        (1, Sig::Node(1), Sig::Node(2)),
        (7, Sig::Node(1), Sig::Node(3)),
        (6, Sig::Node(1), Sig::Node(2)),
    ],
    sinks: &[Sig::Node(4), Sig::Node(5), Sig::Node(3), Sig::Node(2)],
};

/// The remaining ones where a source replaces the first.
const THREE_LEFT: Plan = Plan {
    sources: 2,
    gates: &[
        (7, Sig::Node(1), Sig::Node(1)),
        (6, Sig::Node(1), Sig::Node(2)),
    ],
    sinks: &[Sig::Node(3), Sig::Node(4), Sig::Node(1), Sig::Node(2)],
};

/// A gate over constants alone, read by two sinks.
const CONSTANT: Plan = Plan {
    sources: 1,
    gates: &[(1, Sig::One, Sig::Zero)],
    sinks: &[Sig::Node(2), Sig::Node(1), Sig::One, Sig::Node(2)],
};

/// The same without the gate.
const NO_GATE: Plan = Plan {
    sources: 1,
    gates: &[],
    sinks: &[Sig::Zero, Sig::Node(1), Sig::One, Sig::Zero],
};

/// The first gate is a fanin of the window of the third, and neither the second nor the last is.
const AROUND: Plan = Plan {
    sources: 2,
    gates: &[
        (6, Sig::Node(1), Sig::Node(2)),
        (9, Sig::Node(1), Sig::Node(2)),
        (1, Sig::Node(2), Sig::Node(3)),
        (7, Sig::Node(4), Sig::Node(5)),
    ],
    sinks: &[Sig::Node(6), Sig::Node(6), Sig::Node(4)],
};

/// The same with another gate in place of the third.
const AROUND_LEFT: Plan = Plan {
    sources: 2,
    gates: &[
        (6, Sig::Node(1), Sig::Node(2)),
        (4, Sig::Node(3), Sig::Node(2)),
        (9, Sig::Node(1), Sig::Node(2)),
        (7, Sig::Node(5), Sig::Node(4)),
    ],
    sinks: &[Sig::Node(6), Sig::Node(6), Sig::Node(5)],
};

/// AND by two gates, and a dangling gate.
const DANGLING: Plan = Plan {
    sources: 2,
    gates: &[
        (14, Sig::Node(1), Sig::Node(2)),
        (14, Sig::Node(3), Sig::Node(3)),
        (6, Sig::Node(1), Sig::Node(2)),
    ],
    sinks: &[Sig::Node(4), Sig::Node(2)],
};

/// AND by one gate, and the dangling gate.
const DANGLING_LEFT: Plan = Plan {
    sources: 2,
    gates: &[
        (1, Sig::Node(1), Sig::Node(2)),
        (6, Sig::Node(1), Sig::Node(2)),
    ],
    sinks: &[Sig::Node(3), Sig::Node(2)],
};

/// AND by one gate alone.
const LIVE: Plan = Plan {
    sources: 2,
    gates: &[(1, Sig::Node(1), Sig::Node(2))],
    sinks: &[Sig::Node(3), Sig::Node(2)],
};

/// Nets, windows and chains, and the nets after substitution.
const ROWS: &[Row] = &[
    Row {
        name: "one step replaces two gates",
        plan: &TWO,
        root: 4,
        count: 2,
        block: b"chain 1\nx3 x1 x2 0001\nout x3\n",
        left: &AND,
        live: None,
    },
    Row {
        name: "an output of a chain may be an input",
        plan: &THREE,
        root: 3,
        count: 1,
        block: b"chain 0\nout x1\n",
        left: &THREE_LEFT,
        live: None,
    },
    Row {
        name: "a window may have no input",
        plan: &CONSTANT,
        root: 2,
        count: 1,
        block: b"chain 0\nout 0\n",
        left: &NO_GATE,
        live: None,
    },
    Row {
        name: "gates follow the steps",
        plan: &AROUND,
        root: 5,
        count: 1,
        block: b"chain 1\nx3 x2 x1 0100\nout x3\n",
        left: &AROUND_LEFT,
        live: None,
    },
    Row {
        name: "a chain that implements the window may leave dangling gates",
        plan: &DANGLING,
        root: 4,
        count: 2,
        block: b"chain 1\nx3 x1 x2 0001\nout x3\n",
        left: &DANGLING_LEFT,
        live: Some(&LIVE),
    },
];

#[test]
fn chains_replace_the_gates_of_windows(rt: HostRuntime) {
    for row in ROWS {
        assert!(rt; is_left(rt.alloc(), row), "{}", row.name);
    }
}
