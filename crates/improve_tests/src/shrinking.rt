//! Netlists that become smaller by windows, with settings, and what stays undecided.

use crate::asking::{Asked, improved, is_improved};
use std::alloc::Global;

const EXCLUSIVE: &[u8] =
    b".model x\n.inputs a b\n.outputs y\n.names a b p\n10 1\n.names a b q\n01 1\n.names p q y\n1- 1\n-1 1\n.end\n";

const EQUAL: &[u8] =
    b".model d\n.inputs a b\n.outputs y z\n.names a b y\n11 1\n.names a b z\n11 1\n.end\n";

// y and z are equal, but more than eight fanouts of a are between them, so neither is a partner of the other
const FAR: &[u8] =
    b".model w\n.inputs a b c1 c2 c3 c4 c5 c6 c7 c8 c9\n.outputs y g1 g2 g3 g4 g5 g6 g7 g8 g9 z\n.names a b y\n11 1\n.names a c1 g1\n11 1\n.names a c2 g2\n11 1\n.names a c3 g3\n11 1\n.names a c4 g4\n11 1\n.names a c5 g5\n11 1\n.names a c6 g6\n11 1\n.names a c7 g7\n11 1\n.names a c8 g8\n11 1\n.names a c9 g9\n11 1\n.names b a z\n11 1\n.end\n";

// y depends on p only where a is 1, and there p is b
const HIDDEN: &[u8] =
    b".model o\n.inputs a b\n.outputs y\n.names a b p\n00 1\n11 1\n.names p a y\n11 1\n.end\n";

// the same, with p as an output
const BARE: &[u8] =
    b".model o\n.inputs a b\n.outputs y p\n.names a b p\n00 1\n11 1\n.names p a y\n11 1\n.end\n";

const ADDER: &[u8] =
    b".model a\n.inputs a b c\n.outputs s k\n.names a b p\n01 1\n10 1\n.names p c s\n01 1\n10 1\n.names a b q\n11 1\n.names p c r\n11 1\n.names q r k\n1- 1\n-1 1\n.end\n";

/// Netlists, how they are improved, and the improved ones with their reports.
const IMPROVED: &[(&str, &[u8], Asked, &[u8])] = &[
    (
        "three gates become one",
        EXCLUSIVE,
        Asked::Blif(5, 1000, 100_000, false),
        b".model x\n.inputs a b\n.outputs y\n.names a b y\n01 1\n10 1\n.end\ngates 3 -> 1\nsettled\n",
    ),
    (
        "the only round changed something",
        EXCLUSIVE,
        Asked::Blif(5, 1, 100_000, false),
        b".model x\n.inputs a b\n.outputs y\n.names a b y\n01 1\n10 1\n.end\ngates 3 -> 1\nstopped\n",
    ),
    (
        "two structurally equal gates become one",
        EQUAL,
        Asked::Blif(5, 1000, 100_000, false),
        b".model d\n.inputs a b\n.outputs y z\n.names a b y\n11 1\n.names y z\n1 1\n.end\ngates 2 -> 1\nsettled\n",
    ),
    (
        "also where they are no window with a partner",
        FAR,
        Asked::Blif(5, 1000, 100_000, false),
        b".model w\n.inputs a b c1 c2 c3 c4 c5 c6 c7 c8 c9\n.outputs y g1 g2 g3 g4 g5 g6 g7 g8 g9 z\n.names a b y\n11 1\n.names a c1 g1\n11 1\n.names a c2 g2\n11 1\n.names a c3 g3\n11 1\n.names a c4 g4\n11 1\n.names a c5 g5\n11 1\n.names a c6 g6\n11 1\n.names a c7 g7\n11 1\n.names a c8 g8\n11 1\n.names a c9 g9\n11 1\n.names y z\n1 1\n.end\ngates 11 -> 10\nsettled\n",
    ),
    (
        "but not where each is attempted alone",
        EQUAL,
        Asked::Blif(1, 1000, 100_000, false),
        b".model d\n.inputs a b\n.outputs y z\n.names a b y\n11 1\n.names a b z\n11 1\n.end\ngates 2 -> 2\nsettled\n",
    ),
    (
        "unobservable rows are free",
        HIDDEN,
        Asked::Blif(1, 1000, 100_000, true),
        b".model o\n.inputs a b\n.outputs y\n.names b a y\n11 1\n.end\ngates 2 -> 1\nsettled\n",
    ),
    (
        "they aren't without observability don't-cares",
        HIDDEN,
        Asked::Blif(1, 1000, 100_000, false),
        b".model o\n.inputs a b\n.outputs y\n.names a b g1\n00 1\n11 1\n.names g1 a y\n11 1\n.end\ngates 2 -> 2\nsettled\n",
    ),
    (
        "they aren't where the window is an output",
        BARE,
        Asked::Blif(1, 1000, 100_000, true),
        b".model o\n.inputs a b\n.outputs y p\n.names a b p\n00 1\n11 1\n.names p a y\n11 1\n.end\ngates 2 -> 2\nsettled\n",
    ),
    (
        "windows of one gate",
        ADDER,
        Asked::Blif(1, 1000, 1, false),
        b".model a\n.inputs a b c\n.outputs s k\n.names a b g1\n01 1\n10 1\n.names g1 c s\n01 1\n10 1\n.names a b g2\n11 1\n.names g1 c g3\n11 1\n.names g2 g3 k\n01 1\n10 1\n11 1\n.end\ngates 5 -> 5\nsettled\n",
    ),
    (
        "BENCH: four gates are one",
        b"INPUT(a)\nINPUT(b)\nOUTPUT(y)\nn = NAND(a, b)\np = NAND(a, n)\nq = NAND(b, n)\ny = NAND(p, q)\n",
        Asked::Bench,
        b"INPUT(a)\nINPUT(b)\nOUTPUT(y)\ny = XOR(a, b)\ngates 4 -> 1\nsettled\n",
    ),
    (
        "BENCH: an input and a constant are left",
        b"INPUT(a)\nOUTPUT(y)\nOUTPUT(z)\nn = NOT(a)\ny = AND(n, a)\nz = NOT(n)\n",
        Asked::Bench,
        b"INPUT(a)\nOUTPUT(y)\nOUTPUT(z)\ny = XOR(a, a)\nz = BUFF(a)\ngates 3 -> 0\nsettled\n",
    ),
    (
        "BENCH: a latch, and a NOT that only it reads",
        b"INPUT(a)\nOUTPUT(q)\nq = DFF(d)\nd = NOT(a)\n",
        Asked::Bench,
        b"INPUT(a)\nOUTPUT(q)\nq = DFF(g1)\ng1 = NOT(a)\ngates 1 -> 1\nsettled\n",
    ),
    (
        "BENCH: a gate that no other can replace stays",
        b"INPUT(a)\nINPUT(b)\nOUTPUT(y)\nn = NOT(b)\ny = AND(a, n)\n",
        Asked::Bench,
        b"INPUT(a)\nINPUT(b)\nOUTPUT(y)\ng1 = NOT(b)\ny = AND(a, g1)\ngates 2 -> 2\nsettled\n",
    ),
];

#[test]
fn windows_are_replaced_by_smaller_ones(rt: HostRuntime) {
    for &(name, text, asked, wanted) in IMPROVED {
        assert!(rt; is_improved(rt.alloc(), text, asked, wanted), "{name}");
    }
}

/// Two full adders in a row.
const ADDERS: &[u8] =
    b".model a\n.inputs a b c d e\n.outputs s t k\n.names a b p\n01 1\n10 1\n.names p c s\n01 1\n10 1\n.names a b q\n11 1\n.names p c r\n11 1\n.names q r h\n1- 1\n-1 1\n.names d e u\n01 1\n10 1\n.names u h t\n01 1\n10 1\n.names d e v\n11 1\n.names u h w\n11 1\n.names v w k\n1- 1\n-1 1\n.end\n";

/// Whether with a conflict limit of 1 some window of six gates stays undecided, and none of up to five.
fn is_undecided(alloc: Global) -> bool {
    let Some(five) = improved(alloc, ADDERS, Asked::Blif(5, 1000, 1, false)) else {
        return false;
    };
    let Some(six) = improved(alloc, ADDERS, Asked::Blif(6, 1000, 1, false)) else {
        return false;
    };
    let prefix = six.report.starts_with(b"gates 10 -> 10\nundecided ");
    let none = five.report.as_slice() == b"gates 10 -> 10\nsettled\n".as_slice();
    none && prefix && six.report.ends_with(b"\nsettled\n")
}

#[test]
fn a_conflict_limit_of_1_leaves_windows_of_six_gates_undecided(rt: HostRuntime) {
    assert!(rt; is_undecided(rt.alloc()));
}
