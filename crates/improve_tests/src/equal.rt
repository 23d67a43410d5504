//! Functional hashing: gates with the same value under every assignment become one.

use crate::nets::{Plan, is_planned, planned};
use merge_core::functional_reduction;
use net_core::Sig::{Node, One, Zero};
use std::alloc::Global;

/// A net with its name, and the net after merging.
struct Row {
    name: &'static str,
    net: Plan,
    left: Plan,
}

/// Nets and their merged nets, worked out by hand.
const ROWS: &[Row] = &[
    Row {
        name: "NOR of complements is AND, and XOR of equal gates is 0",
        net: Plan {
            sources: 2,
            gates: &[
                (12, Node(1), Zero),
                (12, Node(2), Zero),
                (1, Node(1), Node(2)),
                (8, Node(3), Node(4)),
                (6, Node(5), Node(6)),
            ],
            sinks: &[Node(6), Node(7), Node(4), Node(1)],
        },
        left: Plan {
            sources: 2,
            gates: &[
                (12, Node(1), Zero),
                (12, Node(2), Zero),
                (1, Node(1), Node(2)),
            ],
            sinks: &[Node(5), Zero, Node(4), Node(1)],
        },
    },
    Row {
        name: "NOT of NOT is the source, and XNOR of a node with itself is 1",
        net: Plan {
            sources: 1,
            gates: &[
                (12, Node(1), Zero),
                (12, Node(2), Zero),
                (9, Node(3), Node(3)),
                (1, Node(3), Node(4)),
            ],
            sinks: &[Node(5), Node(4), Node(2)],
        },
        left: Plan {
            sources: 1,
            gates: &[(12, Node(1), Zero)],
            sinks: &[Node(1), One, Node(2)],
        },
    },
    Row {
        name: "constants alone",
        net: Plan {
            sources: 0,
            gates: &[(7, Zero, One), (1, Node(1), One)],
            sinks: &[Node(2)],
        },
        left: Plan {
            sources: 0,
            gates: &[],
            sinks: &[One],
        },
    },
    Row {
        name: "two words a node, and a gate that read a merged gate",
        net: Plan {
            sources: 7,
            gates: &[
                (1, Node(1), Node(7)),
                (1, Node(7), Node(1)),
                (7, Node(1), Node(7)),
                (6, Node(9), Node(2)),
            ],
            sinks: &[Node(11), Node(10)],
        },
        left: Plan {
            sources: 7,
            gates: &[
                (1, Node(1), Node(7)),
                (7, Node(1), Node(7)),
                (6, Node(8), Node(2)),
            ],
            sinks: &[Node(10), Node(9)],
        },
    },
    Row {
        name: "13 sources: the net stays as it is",
        net: Plan {
            sources: 13,
            gates: &[(1, Node(1), Node(2)), (1, Node(2), Node(1))],
            sinks: &[Node(14), Node(15)],
        },
        left: Plan {
            sources: 13,
            gates: &[(1, Node(1), Node(2)), (1, Node(2), Node(1))],
            sinks: &[Node(14), Node(15)],
        },
    },
];

/// Whether merging the net of a row leaves its other net.
fn is_left(alloc: Global, row: &Row) -> bool {
    let Some(net) = planned(alloc, &row.net) else {
        return false;
    };
    match functional_reduction(alloc, &net) {
        Ok(left) => is_planned(&left, &row.left),
        Err(_) => false,
    }
}

#[test]
fn gates_with_equal_tables_become_one(rt: HostRuntime) {
    for row in ROWS {
        assert!(rt; is_left(rt.alloc(), row), "{}", row.name);
    }
}
