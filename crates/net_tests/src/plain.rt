//! Tests of `plain`: values of cubes and nodes, computed from the definitions.

use net_theory::plain::{matches_bits, node_value};
use net_theory::{Gate, Sig};
use op_basis::Op;

/// Minterms, and whether `1-0` covers them: the first input must be 1 and the third 0 (the Berkeley BLIF manual).
const MATCHED: &[(&str, [bool; 3], bool)] = &[
    ("100", [true, false, false], true),
    ("110", [true, true, false], true),
    ("101", [true, false, true], false),
    ("010", [false, true, false], false),
];

#[test]
fn a_cube_covers_its_minterms_alone(rt: HostRuntime) {
    for (name, bits, wanted) in MATCHED {
        assert!(rt; matches_bits(b"1-0", bits) == *wanted, "{name}");
    }
}

/// Sum and carry of three bits: XOR, XOR, AND, AND, OR.
#[test]
fn a_full_adder_adds(rt: HostRuntime) {
    let gates = [
        Gate {
            op: Op::new(6),
            a: Sig::Node(1),
            b: Sig::Node(2),
        },
        Gate {
            op: Op::new(6),
            a: Sig::Node(3),
            b: Sig::Node(4),
        },
        Gate {
            op: Op::new(1),
            a: Sig::Node(1),
            b: Sig::Node(2),
        },
        Gate {
            op: Op::new(1),
            a: Sig::Node(3),
            b: Sig::Node(4),
        },
        Gate {
            op: Op::new(7),
            a: Sig::Node(6),
            b: Sig::Node(7),
        },
    ];
    for row in 0..8u32 {
        let given = [(row & 1) == 1, (row >> 1) & 1 == 1, (row >> 2) & 1 == 1];
        let sum = (row & 1) + ((row >> 1) & 1) + (row >> 2);
        let odd = node_value(&given, &gates, 5) == (sum & 1 == 1);
        let carry = node_value(&given, &gates, 8) == (sum > 1);
        assert!(rt; odd && carry, "{row}");
    }
}
