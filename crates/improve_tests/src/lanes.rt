//! Bit-parallel simulation: words of cones and patterns of signals, some counted by hand, and those of
//! pseudorandom cones, compared with a plain program that evaluates one assignment after the other.

ghost use Rattle.std.specs.Prelude.{IsTrue, All};
ghost use Rattle.lane_sim.specs.Cone.{IsSigAmong, nodes};

use crate::fanin_cones::bit_of;
use crate::nets::gate;
use crate::plain::{has, only};
use lane_sim::{Cone, cone_words, lanes_of, patterns};
use net_core::{Gate, Sig};
use std::alloc::{AllocError, Global};

/// Whether all signals are constants or nodes of `cone`.
fn are_among(cone: &Cone, signals: &[Sig]) -> bool
    ensures { IsTrue result → All (IsSigAmong (nodes cone.now)) signals.now }
{
    signals.iter().all(|sig| cone.has(*sig))
}

/// A gate as a constant: its node, its operator's truth table, below 16, and its operands.
type Step = (u32, u8, Sig, Sig);

/// The gates of `steps`.
fn gates_of(alloc: Global, steps: &[Step]) -> Result<Vec<(u32, Gate)>, AllocError> {
    let mut gates = Vec::new(alloc);
    for &(node, op, a, b) in steps {
        gates.push((node, gate(op, a, b)))?;
    }
    Ok(gates)
}

/// The cone with `leaves` and `steps`, if they make one.
fn cone_of(alloc: Global, leaves: &[u32], steps: &[Step]) -> Option<Cone> {
    let Ok(gates) = gates_of(alloc, steps) else {
        return None;
    };
    match Vec::from_slice(alloc, leaves) {
        Ok(leaves) => Cone::checked(leaves, gates),
        Err(_) => None,
    }
}

/// Whether `signals` take the patterns of `mask` in `cone`, and no others.
fn shows(alloc: Global, cone: &Cone, signals: &[Sig], mask: u64) -> bool {
    if signals.len() > 6 || !are_among(cone, signals) {
        return false;
    }
    match cone_words(alloc, cone) {
        Ok(words) => patterns(&words, cone, signals) == mask,
        Err(_) => false,
    }
}

/// The AND of twelve leaves, by a chain of gates.
const TWELVE: &[Step] = &[
    (13, 1, Sig::Node(1), Sig::Node(2)),
    (14, 1, Sig::Node(13), Sig::Node(3)),
    (15, 1, Sig::Node(14), Sig::Node(4)),
    (16, 1, Sig::Node(15), Sig::Node(5)),
    (17, 1, Sig::Node(16), Sig::Node(6)),
    (18, 1, Sig::Node(17), Sig::Node(7)),
    (19, 1, Sig::Node(18), Sig::Node(8)),
    (20, 1, Sig::Node(19), Sig::Node(9)),
    (21, 1, Sig::Node(20), Sig::Node(10)),
    (22, 1, Sig::Node(21), Sig::Node(11)),
    (23, 1, Sig::Node(22), Sig::Node(12)),
];

/// The AND of seven leaves.
const SEVEN: &[Step] = &[
    (8, 1, Sig::Node(1), Sig::Node(2)),
    (9, 1, Sig::Node(8), Sig::Node(3)),
    (10, 1, Sig::Node(9), Sig::Node(4)),
    (11, 1, Sig::Node(10), Sig::Node(5)),
    (12, 1, Sig::Node(11), Sig::Node(6)),
    (13, 1, Sig::Node(12), Sig::Node(7)),
];

/// Leaves, steps, signals, and the mask of the patterns that the signals take: constants and leaves, and the
/// one assignment of seven leaves, and of twelve, under which AND is 1.
const SHOWN: &[(&str, &[u32], &[Step], &[Sig], u64)] = &[
    ("a constant", &[], &[], &[Sig::One], 2),
    ("no signal", &[], &[], &[], 1),
    (
        "two of three leaves",
        &[1, 2, 3],
        &[],
        &[Sig::Node(1), Sig::Node(3)],
        15,
    ),
    (
        "nodes after the first word of a set",
        &[63, 64, 97],
        &[],
        &[Sig::Node(64), Sig::Node(97)],
        15,
    ),
    (
        "AND of seven leaves",
        &[1, 2, 3, 4, 5, 6, 7],
        SEVEN,
        &[Sig::Node(13)],
        3,
    ),
    (
        "AND of twelve leaves",
        &[1, 2, 3, 4, 5, 6, 7, 8, 9, 10, 11, 12],
        TWELVE,
        &[Sig::Node(23)],
        3,
    ),
];

/// Whether the signals of the cone take the patterns of `mask`.
fn is_shown(alloc: Global, leaves: &[u32], steps: &[Step], signals: &[Sig], mask: u64) -> bool {
    match cone_of(alloc, leaves, steps) {
        Some(cone) => shows(alloc, &cone, signals, mask),
        None => false,
    }
}

#[test]
fn signals_take_these_patterns_and_no_others(rt: HostRuntime) {
    for &(name, leaves, steps, signals, mask) in SHOWN {
        assert!(rt;
            is_shown(rt.alloc(), leaves, steps, signals, mask),
            "{name}"
        );
    }
}

/// The leaves that are 1 under the assignment `row`, whose last bit is that of the last leaf.
fn leaf_ones(leaves: &[u32], row: u32) -> u64 {
    let mut ones = 0;
    let mut digits = row;
    for leaf in leaves.iter().rev() {
        if digits % 2 == 1 {
            ones |= only(*leaf);
        }
        digits /= 2;
    }
    ones
}

/// The nodes of `cone` that are 1 under the assignment `row`.
fn ones_of(cone: &Cone, row: u32) -> u64 {
    let mut ones = leaf_ones(cone.leaves(), row);
    for (node, gate) in cone.gates() {
        if gate.op.apply(bit_of(ones, gate.a), bit_of(ones, gate.b)) {
            ones |= only(*node);
        }
    }
    ones
}

/// Whether bit `row` of the words of each of the first `count` nodes is the node's bit.
fn are_digits(lanes: &[u64], width: usize, row: u32, ones: u64, count: u32) -> bool {
    let mut start = (row / 64) as usize;
    for index in 0..count {
        let Some(word) = lanes.get(start) else {
            return false;
        };
        if has(*word, row % 64) != has(ones, node_of(index)) {
            return false;
        }
        start = start.saturating_add(width);
    }
    true
}

/// Whether `lanes` are the bits of the first `count` nodes of `cone` under each assignment.
fn are_plain(cone: &Cone, lanes: &[u64], count: u32) -> bool {
    let rows = 1u32 << cone.leaves().len();
    let width = (rows as usize).div_ceil(64);
    for row in 0..rows {
        if !are_digits(lanes, width, row, ones_of(cone, row), count) {
            return false;
        }
    }
    true
}

/// The next pseudorandom number.
fn next(state: &mut u32) -> u32 {
    *state = state.wrapping_mul(1_664_525).wrapping_add(1_013_904_223);
    *state >> 8
}

/// A node for each number below 61, not in ascending order.
fn node_of(index: u32) -> u32 {
    index.wrapping_mul(35) % 61
}

/// A constant or one of the first `count` nodes.
fn any_signal(state: &mut u32, count: u32) -> Sig {
    let number = next(state) % 64;
    match number {
        0 => Sig::Zero,
        1 => Sig::One,
        _ if count == 0 => Sig::One,
        _ => Sig::Node(node_of(number % count)),
    }
}

/// The nodes of `count` leaves.
fn some_leaves(alloc: Global, count: u32) -> Result<Vec<u32>, AllocError> {
    let mut leaves = Vec::new(alloc);
    for index in 0..count {
        leaves.push(node_of(index))?;
    }
    Ok(leaves)
}

/// `count` gates after `leaves` leaves.
fn any_gates(
    alloc: Global,
    state: &mut u32,
    leaves: u32,
    count: u32,
) -> Result<Vec<(u32, Gate)>, AllocError> {
    let mut gates = Vec::new(alloc);
    for i in 0..count {
        let index = leaves.wrapping_add(i);
        let op = (next(state) % 16) as u8;
        let a = any_signal(state, index);
        let b = any_signal(state, index);
        gates.push((node_of(index), gate(op, a, b)))?;
    }
    Ok(gates)
}

/// A pseudorandom cone of `leaves` leaves and `gates` gates.
fn any_cone(alloc: Global, state: &mut u32, leaves: u32, gates: u32) -> Option<Cone> {
    let Ok(gates) = any_gates(alloc, state, leaves, gates) else {
        return None;
    };
    match some_leaves(alloc, leaves) {
        Ok(leaves) => Cone::checked(leaves, gates),
        Err(_) => None,
    }
}

/// Whether the next cone, of `leaves` leaves and twelve gates, has the words of the plain program.
fn is_plain(alloc: Global, state: &mut u32, leaves: u32) -> bool {
    let Some(cone) = any_cone(alloc, state, leaves, 12) else {
        return false;
    };
    match cone_words(alloc, &cone) {
        Ok(words) => are_plain(&cone, lanes_of(&words), leaves.wrapping_add(12)),
        Err(_) => false,
    }
}

#[test]
fn cones_have_the_words_of_the_plain_program(rt: HostRuntime) {
    let mut state = 1;
    for &leaves in LEAVES {
        assert!(rt; is_plain(rt.alloc(), &mut state, leaves), "{leaves} leaves");
    }
}

/// The numbers of leaves that a cone may have.
const LEAVES: &[u32] = &[0, 1, 2, 3, 4, 5, 6, 7, 8, 9, 10, 11, 12];
