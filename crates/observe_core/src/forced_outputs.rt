//! What is simulated: the observing fanin cone, and above it the fanout cone with the window's outputs forced.

ghost use Rattle.std.specs.Prelude.{◌≡◌, ℕ, ◌≤◌, ◌++◌, true, length};
ghost use Rattle.lane_sim.specs.Cone.{nodes};
ghost use Rattle.window_theory.specs.Nodes.{among};
ghost use Rattle.chain_theory.specs.Limits.{most_outputs};

use lane_sim::{Cone, Index};
use window_core::Net;

/// The outputs of a window that are forced, at most eight, the observing fanin cone, and the fanout cone
/// above it with those of its gates that are its outputs. The index finds the nodes of both cones.
#[derive(Clone, Copy)]
pub(crate) struct Forced<'a> {
    pub(crate) net: &'a Net,
    pub(crate) outputs: &'a [u32],
    pub(crate) fanin_cone: &'a Cone,
    pub(crate) fanout_cone: &'a [u32],
    pub(crate) cone_outputs: &'a [u32],
    pub(crate) index: &'a Index,
    ghost few: { length outputs.now ≤ most_outputs },
    ghost outputs_within: { (p : ℕ) → among cone_outputs.now p ≡ true → among fanout_cone.now p ≡ true },
    ghost indexed: { index.now ≡ nodes fanin_cone.now ++ fanout_cone.now },
}
