//! The roots of the trees of a kind, and the row of literals of each.

use crate::kind::TreeKind;
use rows::{at, bit_at, put, raise};
use std::alloc::{AllocError, Global};
use thresholds::{MOST_ROW_LITERALS, MOST_VISITED_OF_TREE};
use xag_core::{Xag, XagGate};

/// The most literals of a row where trees go through gates that several gates read: then a literal may be in the
/// rows of all gates above it.
const MOST_SHARED_LITERALS: usize = 32;

/// A root and the literals of its tree, ascending.
#[derive(Drop)]
pub struct LiteralRow {
    pub root: u32,
    pub literals: Vec<u32>,
}

/// How many gates and sinks read each node.
fn reference_counts(alloc: Global, xag: &Xag) -> Result<Vec<u32>, AllocError> {
    let mut references = vec![in alloc; 0u32; xag.nodes() as usize]?;
    for sink in xag.sinks() {
        raise(&mut references, sink >> 1);
    }
    for gate in xag.gates() {
        raise(&mut references, gate.first >> 1);
        raise(&mut references, gate.second >> 1);
    }
    Ok(references)
}

/// Marks the node of an operand as a root where its tree isn't part of the gate's tree.
fn mark_operand(
    roots: &mut [bool],
    xag: &Xag,
    references: &[u32],
    kind: TreeKind,
    gate: XagGate,
    literal: u32,
) {
    let node = literal >> 1;
    let operand = xag.gate(node);
    if !xag.is_gate(node) || operand.is_xor != kind.is_xor {
        return;
    }
    let leaves_kind = gate.is_xor != kind.is_xor || !kind.goes_on(operand, literal);
    if leaves_kind || (!kind.through_all && at(references, node) > 1) {
        put(roots, node, true);
    }
}

/// The roots: gates of the kind that a sink or a gate of another kind reads, or, unless trees go through
/// them, that several gates read.
fn mark_roots(
    alloc: Global,
    xag: &Xag,
    references: &[u32],
    kind: TreeKind,
) -> Result<Vec<bool>, AllocError> {
    let mut roots = vec![in alloc; false; xag.nodes() as usize]?;
    for sink in xag.sinks() {
        let node = sink >> 1;
        if xag.is_gate(node) && xag.gate(node).is_xor == kind.is_xor {
            put(&mut roots, node, true);
        }
    }
    for gate in xag.gates() {
        mark_operand(&mut roots, xag, references, kind, *gate, gate.first);
        mark_operand(&mut roots, xag, references, kind, *gate, gate.second);
    }
    Ok(roots)
}

/// The most literals of a row of trees of a kind.
fn most_literals(kind: TreeKind) -> usize {
    if kind.through_all {
        MOST_SHARED_LITERALS
    } else {
        MOST_ROW_LITERALS
    }
}

/// Puts an operand on the stack of gates to visit, or among the literals.
fn sort_operand(
    xag: &Xag,
    roots: &[bool],
    kind: TreeKind,
    literal: u32,
    pending: &mut Vec<u32>,
    literals: &mut Vec<u32>,
) -> Result<(), AllocError> {
    let node = literal >> 1;
    let goes_on = xag.is_gate(node)
        && kind.goes_on(xag.gate(node), literal)
        && (kind.through_all || !bit_at(roots, node));
    if goes_on && pending.len() + literals.len() < most_literals(kind) {
        pending.push(node)?;
    } else {
        literals.push(literal)?;
    }
    Ok(())
}

/// The literals of the tree of a root, with repetitions.
fn tree_literals(
    alloc: Global,
    xag: &Xag,
    roots: &[bool],
    kind: TreeKind,
    root: u32,
) -> Result<Vec<u32>, AllocError> {
    let mut literals = Vec::new(alloc);
    let mut pending = Vec::new(alloc);
    pending.push(root)?;
    for _step in 0..MOST_VISITED_OF_TREE {
        let Some(node) = pending.pop() else {
            return Ok(literals);
        };
        let gate = xag.gate(node);
        sort_operand(xag, roots, kind, gate.first, &mut pending, &mut literals)?;
        sort_operand(xag, roots, kind, gate.second, &mut pending, &mut literals)?;
    }
    for node in &pending {
        literals.push(node.wrapping_mul(2))?;
    }
    Ok(literals)
}

/// The literals that occur in a sorted row an odd number of times (x XOR x = 0).
fn odd_ones(alloc: Global, sorted: &[u32]) -> Result<Vec<u32>, AllocError> {
    let mut odd: Vec<u32> = Vec::with_capacity(alloc, sorted.len())?;
    for literal in sorted {
        if odd.last() == Some(literal) {
            odd.pop();
            continue;
        }
        odd.push(*literal)?;
    }
    Ok(odd)
}

/// The distinct literals of a sorted row; none where both a literal and its complement occur, since the AND
/// is 0 then.
fn distinct_ones(alloc: Global, sorted: &[u32]) -> Result<Vec<u32>, AllocError> {
    let mut distinct: Vec<u32> = Vec::with_capacity(alloc, sorted.len())?;
    for literal in sorted {
        if distinct.last() == Some(&(literal ^ 1)) {
            distinct.clear();
            return Ok(distinct);
        }
        if distinct.last() != Some(literal) {
            distinct.push(*literal)?;
        }
    }
    Ok(distinct)
}

/// The row of a root. An empty row is the constant 0.
fn row_of(
    alloc: Global,
    xag: &Xag,
    roots: &[bool],
    kind: TreeKind,
    root: u32,
) -> Result<LiteralRow, AllocError> {
    let mut all = tree_literals(alloc, xag, roots, kind, root)?;
    all.sort()?;
    let literals = if kind.is_xor {
        odd_ones(alloc, &all)?
    } else {
        distinct_ones(alloc, &all)?
    };
    Ok(LiteralRow { root, literals })
}

/// The rows of all roots of a kind, in topological order of the roots.
pub fn rows_of(alloc: Global, xag: &Xag, kind: TreeKind) -> Result<Vec<LiteralRow>, AllocError> {
    let references = reference_counts(alloc, xag)?;
    let roots = mark_roots(alloc, xag, &references, kind)?;
    let mut rows = Vec::new(alloc);
    for node in 0..xag.nodes() {
        if bit_at(&roots, node) {
            rows.push(row_of(alloc, xag, &roots, kind, node)?)?;
        }
    }
    Ok(rows)
}
