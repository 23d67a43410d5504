//! Theorems about the definitions. Each is the contract of a function with an empty body.

ghost use Rattle.std.specs.Prelude.{◌≡◌, ℕ, ◌-◌, length, slice_get, Some};
ghost use Rattle.chain_theory.specs.Operator.{digit};
ghost use Rattle.net_theory.specs.declared.data.Gate.{Gate};
ghost use Rattle.net_theory.specs.Net.{gate_value};
ghost use Rattle.lane_sim.specs.Cone.{Cone, IsCone, value_in};

/// The value of a leaf is its bit of the assignment's number, the first leaf's being the most significant; the
/// value of a gate is its operator applied to the values of its operands.
#[tactic(auto, using(crate::specs::ConeLaws::cone_leaf, crate::specs::ConeLaws::cone_gate))]
pub fn values_of_cones()
    ensures leaf { (c : Cone) (row i p : ℕ) → IsCone c → slice_get c.leaves i ≡ Some p →
        value_in c row p ≡ digit row (length c.leaves - 1 - i) }
    ensures gate { (c : Cone) (row i : ℕ) (x : ℕ × Gate) → IsCone c → slice_get c.gates i ≡ Some x →
        value_in c row x.0 ≡ gate_value (value_in c row) x.1 }
{}
