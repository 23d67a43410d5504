//! Netlists where only dangling gates are removed, and documents that are refused.

use crate::asking::{Asked, is_improved, refused};
use improve_windows::NetError;
use std::alloc::Global;

/// As BLIF, with cap 0.
const IDLE: Asked = Asked::Blif(0, 1000, 100_000, false);

/// The word of a document's fault, and the name in it.
fn named(error: &NetError) -> (&'static str, &[u8]) {
    match error {
        NetError::DrivenTwice(reported) => ("DrivenTwice", reported.get()),
        NetError::Undriven(reported) => ("Undriven", reported.get()),
        NetError::Cycle(reported) => ("Cycle", reported.get()),
        NetError::NotSupported(_, reported) => ("NotSupported", reported.get()),
        _ => ("another", b""),
    }
}

/// Whether a netlist is refused with this word and this name.
fn is_refused(alloc: Global, bytes: &[u8], word: &str, name: &[u8]) -> bool {
    match refused(alloc, bytes, IDLE) {
        None => false,
        Some(error) => {
            let (reported, at) = named(&error);
            let same = reported == word && at == name;
            drop(error);
            same
        }
    }
}

/// Netlists, and the improved ones with their reports.
const IMPROVED: &[(&str, &[u8], &[u8])] = &[
    (
        "each cover of two rows is one gate",
        b".model x\n.inputs a b\n.outputs y\n.names a b p\n10 1\n.names a b q\n01 1\n.names p q y\n1- 1\n-1 1\n.end\n",
        b".model x\n.inputs a b\n.outputs y\n.names a b g1\n10 1\n.names a b g2\n01 1\n.names g1 g2 y\n01 1\n10 1\n11 1\n.end\ngates 3 -> 3\nsettled\n",
    ),
    (
        "gates that no sink depends on are removed",
        b".model x\n.inputs a b\n.outputs p\n.names a b p\n10 1\n.names a b q\n01 1\n.names p q y\n1- 1\n-1 1\n.end\n",
        b".model x\n.inputs a b\n.outputs p\n.names a b p\n10 1\n.end\ngates 3 -> 1\nsettled\n",
    ),
    (
        "a continued line, an output that is an input, an off-set cover",
        b".model m\n.inputs a b \\\nclk\n.outputs a y z\n.latch d q re clk 2\n.names a b w\n00 0\n.names w q d\n11 1\n.names d y\n1 1\n.names d z\n1 1\n.end\n",
        b".model m\n.inputs a b clk\n.outputs a y z\n.latch y q re clk 2\n.names a b g1\n01 1\n10 1\n11 1\n.names g1 q y\n11 1\n.names y z\n1 1\n.end\ngates 2 -> 2\nsettled\n",
    ),
    (
        "a table that is constant by its cubes",
        b".model t\n.inputs a b c\n.outputs y\n.names a b c y\n--- 1\n.end\n",
        b".model t\n.inputs a b c\n.outputs y\n.names y\n1\n.end\ngates 0 -> 0\nsettled\n",
    ),
    (
        "a loop through a latch is no cycle",
        b".model c\n.inputs a\n.outputs n1\n.latch n1 n2 0\n.names a n2 n1\n11 1\n.end\n",
        b".model c\n.inputs a\n.outputs n1\n.latch n1 n2 0\n.names a n2 n1\n11 1\n.end\ngates 1 -> 1\nsettled\n",
    ),
    (
        "constants that latches need",
        b".inputs\n.outputs\n.latch k q\n.latch l r\n.names k\n1\n.names l\n.end\n",
        b".model top\n.inputs\n.outputs\n.latch g2 q\n.latch g1 r\n.names g1\n.names g2\n1\n.end\ngates 0 -> 0\nsettled\n",
    ),
];

#[test]
fn with_cap_0_only_dangling_gates_are_removed(rt: HostRuntime) {
    for &(name, text, wanted) in IMPROVED {
        assert!(rt; is_improved(rt.alloc(), text, IDLE, wanted), "{name}");
    }
}

/// Documents that are refused, with the word and the name of the fault.
const REFUSED: &[(&str, &[u8], &str, &[u8])] = &[
    (
        "a cycle",
        b".model c\n.inputs a\n.outputs n1\n.names a n2 n1\n11 1\n.names n1 n2\n1 1\n.end\n",
        "Cycle",
        b"n1",
    ),
    (
        "an output without a driver",
        b".model u\n.inputs a\n.outputs y\n.end\n",
        "Undriven",
        b"y",
    ),
    (
        "an input listed twice",
        b".model u\n.inputs a a\n.outputs a\n.end\n",
        "DrivenTwice",
        b"a",
    ),
    (
        "a subcircuit",
        b".model u\n.subckt x\n.end\n",
        "NotSupported",
        b".subckt",
    ),
];

#[test]
fn cycles_wrong_drivers_and_subcircuits_are_refused_by_name(rt: HostRuntime) {
    for &(case, text, word, name) in REFUSED {
        assert!(rt; is_refused(rt.alloc(), text, word, name), "{case}");
    }
}
