//! The rows of leaves. A leaf's value under an assignment is a bit of the assignment's number. So the words of the
//! last six leaves are six fixed words, and each word of an earlier leaf is all ones or all zeros.

ghost use Rattle.std.specs.Prelude.{◌≡◌, ℕ, ◌+◌, ◌*◌, ◌≤◌, ◌<◌, [], length, OnOk};
ghost use Rattle.chain_theory.specs.Operator.{digit};
ghost use Rattle.lane_sim.specs.Rows.{IsRowWritten, IsRowAppended, AreLeaves};

use crate::cone::Cone;
use indexmap::IndexSet;
use op_basis::{input_word, spread};
use std::alloc::AllocError;

/// The number of leaves, the last ones, that vary within a word (2^6 = 64); the others are constant in each word.
const LEAVES_OF_WORD: usize = 6;

/// Word `j` of a leaf whose value is bit `k` of the assignment.
#[tactic(auto, using(crate::specs::WordLaws::leaves))]
fn leaf_word(j: usize, k: usize) -> u64
    requires { k < 64 }
    ensures { (b : ℕ) → b < 64 → digit result b ≡ digit (64 * j + b) k }
{
    if k < LEAVES_OF_WORD {
        input_word(k as u32)
    } else {
        spread((j >> (k - LEAVES_OF_WORD)) & 1 == 1)
    }
}

/// Writes the row of a leaf whose value is bit `k` of the assignment.
#[tactic(auto, using(crate::specs::RowLaws::filling))]
fn write_leaf(lanes: &mut [u64], start: usize, width: usize, k: usize)
    requires room { start + width ≡ length lanes.old }
    requires digit { k < 64 }
    ensures { IsRowWritten (λ row. digit row k) start width lanes.old lanes.new }
{
    for j in 0..width {
        lanes[start + j] = leaf_word(j, k);
    }
}

/// Appends the row of a leaf whose value is bit `k` of the assignment.
#[tactic(auto, using(crate::specs::RowLaws::filling))]
fn push_leaf(lanes: &mut Vec<u64>, width: usize, k: usize) -> Result<(), AllocError>
    requires width { width ≤ 64 }
    requires digit { k < 64 }
    ensures { OnOk result (IsRowAppended (λ row. digit row k) width lanes.old.items lanes.new.items) }
{
    let start = lanes.len();
    lanes.resize(start + width, 0)?;
    write_leaf(lanes, start, width, k);
    Ok(())
}

/// Appends the rows of all leaves and adds their nodes to the index.
pub fn simulate_leaves(
    lanes: &mut Vec<u64>,
    nodes: &mut IndexSet<u32>,
    width: usize,
    cone: &Cone,
) -> Result<(), AllocError>
    requires width { width ≤ 64 }
    requires lanes { lanes.old.items ≡ [] }
    requires nodes { nodes.old.keys ≡ [] }
    ensures { OnOk result (AreLeaves cone.now width nodes.new.keys lanes.new.items []) }
{
    let mut left = cone.leaves();
    while let Some((node, rest)) = left.split_first() {
        push_leaf(lanes, width, rest.len())?;
        nodes.insert(*node)?;
        left = rest;
    }
    Ok(())
}
