//! The specifications of windows, with satisfiability and observability don't-cares: of some small
//! nets, and of nets at the bound of twelve leaves, or without leaves.

ghost use Rattle.std.specs.Prelude.{◌≤◌};
ghost use Rattle.window_theory.specs.Window.{Belongs};

use crate::fanin_cones::leaves;
use crate::nets::{Plan, gate, net_of, planned};
use crate::plain::only;
use crate::windows::alone;
use net_core::{Gate, Net, Sig};
use observe_core::observed_spec;
use std::alloc::{AllocError, Global};
use window_core::{Window, spec_of};

/// Whether `words` is the one word `word`.
fn is_one(words: &[u64], word: u64) -> bool {
    words.len() == 1 && words[0] == word
}

/// Whether a window has one output with the values `on`, and the care rows `care`.
fn is_specified(alloc: Global, net: &Net, window: &Window, on: u64, care: u64) -> bool
    requires { Belongs net.now window.now }
{
    match spec_of(alloc, net, window) {
        Ok(spec) => is_one(spec.on(), on) && is_one(spec.care(), care),
        Err(_) => false,
    }
}

/// The same with observability don't-cares.
fn is_observed(alloc: Global, net: &Net, window: &Window, on: u64, care: u64) -> bool
    requires { Belongs net.now window.now }
{
    match observed_spec(alloc, net, window) {
        Ok(spec) => is_one(spec.on(), on) && is_one(spec.care(), care),
        Err(_) => false,
    }
}

/// Whether the window of `root` alone with `count` gates has one output with the values `on`, and
/// the care rows `care`, with observability don't-cares where `observed`.
fn has_words(
    alloc: Global,
    net: &Net,
    root: u32,
    count: u32,
    observed: bool,
    on: u64,
    care: u64,
) -> bool {
    let Ok(Some(window)) = alone(alloc, net, root, count) else {
        return false;
    };
    if observed {
        return is_observed(alloc, net, &window, on, care);
    }
    is_specified(alloc, net, &window, on, care)
}

/// XOR of AND and OR: the row AND = 1, OR = 0 is a satisfiability don't-care.
const HALVES: Plan = Plan {
    sources: 2,
    gates: &[
        (1, Sig::Node(1), Sig::Node(2)),
        (7, Sig::Node(1), Sig::Node(2)),
        (6, Sig::Node(3), Sig::Node(4)),
    ],
    sinks: &[Sig::Node(5)],
};

/// Gates on constants alone: 0, 1, and the XOR of both.
const CONSTANTS: Plan = Plan {
    sources: 1,
    gates: &[
        (1, Sig::One, Sig::Zero),
        (7, Sig::Node(2), Sig::One),
        (6, Sig::Node(2), Sig::Node(3)),
    ],
    sinks: &[Sig::Node(4)],
};

/// XNOR of two sources; AND with the first source is its fanout.
const HIDDEN: Plan = Plan {
    sources: 2,
    gates: &[
        (9, Sig::Node(1), Sig::Node(2)),
        (1, Sig::Node(3), Sig::Node(1)),
    ],
    sinks: &[Sig::Node(4)],
};

/// The same, where XNOR is a sink too.
const DIRECTLY_OBSERVABLE: Plan = Plan {
    sources: 2,
    gates: &[
        (9, Sig::Node(1), Sig::Node(2)),
        (1, Sig::Node(3), Sig::Node(1)),
    ],
    sinks: &[Sig::Node(4), Sig::Node(3)],
};

/// Nets, roots, counts, whether with observability don't-cares, the values, and the care rows.
const WORDS: &[(&str, &Plan, u32, u32, bool, u64, u64)] = &[
    (
        "XOR of AND and OR, alone",
        &HALVES,
        5,
        1,
        false,
        0b0010,
        0b1011,
    ),
    (
        "XOR of AND and OR, with both",
        &HALVES,
        5,
        3,
        false,
        0b0110,
        0b1111,
    ),
    ("AND of two sources", &HALVES, 3, 1, false, 0b1000, 0b1111),
    // constants alone have one row
    (
        "XOR of constants, alone",
        &CONSTANTS,
        4,
        1,
        false,
        0b10,
        0b10,
    ),
    (
        "XOR of constants, with one",
        &CONSTANTS,
        4,
        2,
        false,
        0b1,
        0b1,
    ),
    (
        "XOR of constants, with both",
        &CONSTANTS,
        4,
        3,
        false,
        0b1,
        0b1,
    ),
    // the first source is 1 on the rows 2 and 3, counted from 0; where XNOR is a sink itself all
    // rows are observed
    (
        "a gate that one source hides",
        &HIDDEN,
        3,
        1,
        true,
        0b1000,
        0b1100,
    ),
    (
        "a hidden gate that is a sink too",
        &DIRECTLY_OBSERVABLE,
        3,
        1,
        true,
        0b1001,
        0b1111,
    ),
];

/// Whether the window in the net of `plan` has these words.
fn has_planned_words(
    alloc: Global,
    plan: &Plan,
    root: u32,
    count: u32,
    observed: bool,
    on: u64,
    care: u64,
) -> bool {
    match planned(alloc, plan) {
        Some(net) => has_words(alloc, &net, root, count, observed, on, care),
        None => false,
    }
}

#[test]
fn specifications_have_these_values_and_care_rows(rt: HostRuntime) {
    for &(name, plan, root, count, observed, on, care) in WORDS {
        let well = has_planned_words(rt.alloc(), plan, root, count, observed, on, care);
        assert!(rt; well, "{name}");
    }
}

/// The gate at `index` in a chain of gates over `sources` sources.
fn gate_in_row(sources: u32, index: u32) -> Gate
    requires sources { sources ≤ 100 }
    requires index { index ≤ sources }
{
    if index == 0 {
        return gate(7, Sig::Node(1), Sig::Node(2));
    }
    if index == 1 {
        return gate(1, Sig::Node(1), Sig::Node(2));
    }
    if index == sources {
        return gate(6, Sig::Node(sources + 1), Sig::Node(2 * sources));
    }
    gate(1, Sig::Node(sources + index), Sig::Node(index + 1))
}

/// The OR of the first two of `sources` sources, the AND of all of them by a chain of gates, and
/// the XOR of both.
fn row_of_ands(alloc: Global, sources: u32) -> Result<Vec<Gate>, AllocError>
    requires { sources ≤ 100 }
{
    let mut gates = Vec::new(alloc);
    for index in 0..=sources {
        gates.push(gate_in_row(sources, index))?;
    }
    Ok(gates)
}

/// The net of these gates, whose sink is the XOR.
fn net_of_ands(alloc: Global, sources: u32) -> Option<Net>
    requires { sources ≤ 100 }
{
    let Ok(gates) = row_of_ands(alloc, sources) else {
        return None;
    };
    match Vec::from_slice(alloc, &[Sig::Node(2 * sources + 1)]) {
        Ok(sinks) => net_of(sources, gates, sinks),
        Err(_) => None,
    }
}

/// Whether the window of the XOR over `sources` sources has `count` leaves, the values `on`, and
/// the care rows `care`.
fn has_row(alloc: Global, sources: u32, count: u32, on: u64, care: u64) -> bool {
    if sources > 100 {
        return false;
    }
    let Some(net) = net_of_ands(alloc, sources) else {
        return false;
    };
    let found = leaves(&net, only(sources + 1) | only(2 * sources));
    found.count_ones() == count && has_words(alloc, &net, 2 * sources + 1, 1, false, on, care)
}

/// Numbers of sources and of leaves, values, and care rows. AND = 1, OR = 0 is a satisfiability
/// don't-care. It is found where the leaves are expanded down to the first AND and that too: beside
/// the OR all sources are leaves then, one more leaf than there are sources.
const ROWS: &[(u32, u32, u64, u64)] = &[
    (10, 10, 0b0100, 0b1101),
    (11, 11, 0b0100, 0b1101),
    (12, 12, 0b0110, 0b1111),
    (13, 12, 0b0110, 0b1111),
];

#[test]
fn a_fanin_cone_has_no_more_than_twelve_leaves(rt: HostRuntime) {
    for &(sources, count, on, care) in ROWS {
        assert!(rt;
            has_row(rt.alloc(), sources, count, on, care),
            "{sources} sources"
        );
    }
}
