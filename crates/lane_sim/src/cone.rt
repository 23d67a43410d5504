//! Cones. By the type's invariant the nodes are distinct, and operands are leaves or earlier gates, so that one
//! pass over the gates finds each operand simulated.

ghost use Rattle.std.specs.Prelude.{◌≡◌, IsTrue, IsFalse, IfSome, IfNone};
ghost use Rattle.lane_sim.specs.Cone.{IsCone, IsSigAmong, nodes};

use crate::checking::{are_new, are_next, is_known};
use net_theory::{Gate, Sig};
use std::marker::Model;

/// The maximal number of leaves of a cone. With 12 leaves a signal has 2^12 bits, which are 64 words.
pub const MOST_LEAVES: usize = 12;

/// A part of a net: at most 12 leaves, and gates above them in topological order, each with its node. All nodes
/// are distinct, and a gate's operands are constants, leaves or earlier gates.
#[derive(Drop)]
pub struct Cone {
    leaves: Vec<u32>,
    gates: Vec<(u32, Gate)>,
}

impl Model for Cone {
    ghost use Rattle.lane_sim.specs.Cone as cone;
    ghost use Rattle.lane_sim.specs.Cone.{IsCone};

    ghost Value = { cone.Cone };

    ghost view = { λ c. record { leaves = c.leaves.items; gates = c.gates.items } };

    ghost invariant = { λ c. IsCone (record { leaves = c.leaves.items; gates = c.gates.items }) };
}

impl Cone {
    /// The cone of these leaves and gates.
    pub fn new(leaves: Vec<u32>, gates: Vec<(u32, Gate)>) -> Cone
        requires { IsCone (record { leaves = leaves.items; gates = gates.items }) }
        ensures { result ≡ record { leaves = leaves.items; gates = gates.items } }
    {
        Cone { leaves, gates }
    }

    /// The cone of these leaves and gates, or None if they form none. Allocates nothing and takes time quadratic
    /// in the number of nodes.
    #[tactic(auto, using(crate::specs::CheckingLaws::checked_cone, crate::specs::CheckingLaws::cone_next))]
    pub fn checked(leaves: Vec<u32>, gates: Vec<(u32, Gate)>) -> Option<Cone>
        ensures some { IfSome result (λ c. c ≡ record { leaves = leaves.items; gates = gates.items }) }
        ensures is { IfSome result (λ c. IsCone (record { leaves = leaves.items; gates = gates.items })) }
        ensures none { IfNone result (IsCone (record { leaves = leaves.items; gates = gates.items }) → ⊥) }
    {
        if leaves.len() > MOST_LEAVES {
            return None;
        }
        if !are_new(&leaves) {
            return None;
        }
        if !are_next(&leaves, &gates) {
            return None;
        }
        Some(Cone { leaves, gates })
    }

    /// The leaves, by their nodes.
    pub fn leaves(&self) -> &[u32]
        ensures value { result.now ≡ self.now.leaves }
        ensures whole { IsCone self.now }
    {
        &self.leaves
    }

    /// The gates with their nodes.
    pub fn gates(&self) -> &[(u32, Gate)]
        ensures value { result.now ≡ self.now.gates }
        ensures whole { IsCone self.now }
    {
        &self.gates
    }

    /// Whether a signal is a constant, a leaf or a gate of the cone.
    pub fn has(&self, sig: Sig) -> bool
        ensures yes { IsTrue result → IsSigAmong (nodes self.now) sig }
        ensures no { IsFalse result → IsSigAmong (nodes self.now) sig → ⊥ }
    {
        is_known(&self.leaves, &self.gates, sig)
    }
}
