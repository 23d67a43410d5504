//! Simulation of further gates above a cone that is already simulated. The cone's rows are kept and the gates'
//! rows are appended, so that different gates can be simulated above the same cone, such as a transitive fanout
//! with different values at its inputs.

ghost use Rattle.std.specs.Prelude.{◌≡◌, ◌*◌, ◌≤◌, ◌^◌, [], ◌++◌, length, map, take, IfOk, OnOk};
ghost use Rattle.lane_sim.specs.Above.{with_gates, BeginsWithWords, AreDone};
ghost use Rattle.lane_sim.specs.Cone.{IsCone, AreApart, node_of, nodes as nodes_in};
ghost use Rattle.lane_sim.specs.Words.{AreWords};

use crate::cone::Cone;
use crate::simulation::{operand, push_row};
use crate::words::{Words, width_of};
use indexmap::IndexSet;
use net_theory::Gate;
use std::alloc::{AllocError, Global};
use std::marker::Model;

/// The initial capacity of the index, in nodes.
const ROOM: usize = 32;

/// The nodes of a cone and of gates above it, in the order of their rows.
#[derive(Drop)]
pub struct Index {
    nodes: IndexSet<u32>,
}

impl Model for Index {
    ghost use Rattle.std.specs.Prelude.{ℕ, List};

    ghost Value = { List ℕ };

    ghost view = { λ i. i.nodes.keys };
}

/// Adds new nodes to the index.
fn note(nodes: &mut IndexSet<u32>, more: &[u32]) -> Result<(), AllocError>
    requires { AreApart (nodes.old.keys ++ more.now) }
    ensures { OnOk result (nodes.new.keys ≡ nodes.old.keys ++ more.now) }
{
    let mut left = more;
    while let Some((node, rest)) = left.split_first() {
        nodes.insert(*node)?;
        left = rest;
    }
    Ok(())
}

/// Adds the nodes of gates, which are new.
fn note_gates(nodes: &mut IndexSet<u32>, gates: &[(u32, Gate)]) -> Result<(), AllocError>
    requires { AreApart (nodes.old.keys ++ map node_of gates.now) }
    ensures { OnOk result (nodes.new.keys ≡ nodes.old.keys ++ map node_of gates.now) }
{
    let mut left = gates;
    while let Some((first, rest)) = left.split_first() {
        nodes.insert(first.0)?;
        left = rest;
    }
    Ok(())
}

/// The index of a cone's nodes, followed by the nodes `above`.
pub fn index_of(alloc: Global, cone: &Cone, above: &[u32]) -> Result<Index, AllocError>
    requires { AreApart (nodes_in cone.now ++ above.now) }
    ensures { IfOk result (λ index. index ≡ nodes_in cone.now ++ above.now) }
{
    let mut nodes = IndexSet::with_capacity(alloc, ROOM)?;
    note(&mut nodes, cone.leaves())?;
    note_gates(&mut nodes, cone.gates())?;
    note(&mut nodes, above)?;
    Ok(Index { nodes })
}

/// A copy of the words, with capacity for `more` further words.
pub fn copy_words(alloc: Global, words: &Words, more: usize) -> Result<Words, AllocError>
    ensures { IfOk result (λ copy. copy ≡ words.now) }
{
    let mut lanes = Vec::with_capacity(alloc, words.lanes.len().saturating_add(more))?;
    lanes.extend_from_slice(&words.lanes)?;
    Ok(Words {
        lanes,
        rows: words.rows,
    })
}

/// Replaces the rows after those of a cone by the rows of the gates `above` it.
fn simulate_rest(
    lanes: &mut Vec<u64>,
    nodes: &IndexSet<u32>,
    width: usize,
    cone: &Cone,
    above: &[(u32, Gate)],
) -> Result<(), AllocError>
    requires width { width ≤ 64 }
    requires rows { 2 ^ length cone.now.leaves ≤ 64 * width }
    requires cone { IsCone (with_gates cone.now above.now) }
    requires nodes { nodes.now.keys ≡ nodes_in (with_gates cone.now above.now) }
    requires base { AreDone (with_gates cone.now above.now) width
        (take (length (nodes_in cone.now) * width) lanes.old.items) above.now }
    ensures { OnOk result (AreDone (with_gates cone.now above.now) width lanes.new.items []) }
{
    lanes.truncate((cone.leaves().len() + cone.gates().len()) * width);
    let mut left = above;
    while let Some((first, rest)) = left.split_first() {
        let a = operand(nodes, width, first.1.a);
        let b = operand(nodes, width, first.1.b);
        push_row(lanes, width, first.1.op, a, b)?;
        left = rest;
    }
    Ok(())
}

/// Simulates the gates `above` a simulated cone: the cone's rows are kept, and all rows after them are replaced
/// by the rows of `above`. The index has the nodes of the cone, followed by those of `above`.
pub fn simulate_above(
    words: &mut Words,
    index: &Index,
    cone: &Cone,
    above: &[(u32, Gate)],
) -> Result<(), AllocError>
    requires cone { IsCone (with_gates cone.now above.now) }
    requires index { index.now ≡ nodes_in (with_gates cone.now above.now) }
    requires words { BeginsWithWords cone.now words.old }
    ensures words { OnOk result (AreWords (with_gates cone.now above.now) words.new) }
    ensures below { OnOk result (BeginsWithWords cone.now words.new) }
{
    let _gates = cone.gates(); // for the prover: the cone's invariant
    let width = width_of(words.rows);
    simulate_rest(&mut words.lanes, &index.nodes, width, cone, above)?;
    Ok(())
}
