//! Which steps differ on the edges.
ghost use Rattle.std.specs.Prelude.{◌+◌, ◌*◌, ◌≤◌, All, OnOk, length};
ghost use Rattle.clause_core.specs.Clauses.{Appends};
ghost use Rattle.enc_base.specs.Room.{HasRoom, HasSlots};
ghost use Rattle.strong_theory.specs.Strong.{edge_steps, differences};
ghost use Rattle.enc_strong.specs.Room.{HasEdge, HasRows};

use crate::edge_steps::{EdgeVars, push_edge_step};
use clause_core::ClauseList;
use enc_base::StepSlots;
use enc_theory::Dimensions;
use std::alloc::{AllocError, Global};
use strong_theory::Edge;

/// The clauses of an edge.
#[tactic(auto, using(clause_core::specs::RangeLaws::loops), unfolding(strong_theory::specs::Strong::edge_steps))]
fn push_edge_steps(
    alloc: Global,
    list: &mut ClauseList,
    z: Dimensions,
    steps: &[StepSlots],
    at: EdgeVars,
) -> Result<(), AllocError>
    requires room { HasRoom z list.old.vars }
    requires edge { HasEdge z list.old.vars at.edge at.before }
    requires steps { All (HasSlots z list.old.vars) steps.now }
    ensures { OnOk result (Appends list.old list.new (edge_steps z steps.now at.edge at.before)) }
{
    for step in steps {
        push_edge_step(alloc, list, z, steps, at, step)?;
    }
    Ok(())
}

/// Appends the clauses of all edges, whose variables follow `before`.
#[tactic(auto, using(crate::proofs::Walks::difference_walk))]
pub(crate) fn push_differences(
    alloc: Global,
    list: &mut ClauseList,
    z: Dimensions,
    steps: &[StepSlots],
    before: u32,
    edges: &[Edge],
) -> Result<(), AllocError>
    requires room { HasRoom z list.old.vars }
    requires steps { All (HasSlots z list.old.vars) steps.now }
    requires edges { All (HasRows z) edges.now }
    requires vars { before + length edges.now * z.r ≤ list.old.vars }
    ensures { OnOk result (Appends list.old list.new (differences z steps.now before edges.now)) }
{
    let mut next = before;
    let mut left = edges;
    while let Some((edge, rest)) = left.split_first() {
        let at = EdgeVars {
            edge: *edge,
            before: next,
        };
        push_edge_steps(alloc, list, z, steps, at)?;
        next += z.r;
        left = rest;
    }
    Ok(())
}
