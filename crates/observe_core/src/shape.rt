//! Fanout cones, as functions return them.

use std::marker::Model;

/// The most gates of a fanout cone.
pub(crate) const MOST_OF_FANOUT_CONE: usize = 16;

/// The most gates of a window and its fanout cone together.
pub(crate) const MOST_GATES_IN_BOTH: usize = 24;

/// The fanout cone of a window: at most 16 gates of its transitive fanout, their fanins outside the window
/// and the cone (side inputs), and the gates of the cone that a sink or a gate outside reads (its outputs);
/// and whether a sink or a gate outside reads the window itself. Each list is ascending.
#[derive(Drop)]
pub struct FanoutCone {
    pub gates: Vec<u32>,
    pub side_inputs: Vec<u32>,
    pub cone_outputs: Vec<u32>,
    pub directly_observable: bool,
}

impl Model for FanoutCone {
    ghost use Rattle.observe_theory.specs.FanoutCone as fanout_cone;

    ghost Value = { fanout_cone.FanoutCone };

    ghost view = { λ t. record {
      gates = t.gates.items;
      side_inputs = t.side_inputs.items;
      cone_outputs = t.cone_outputs.items;
      directly_observable = t.directly_observable;
    } };
}
