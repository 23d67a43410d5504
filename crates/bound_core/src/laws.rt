//! The laws of the lower bound, and what its tests mean. Each law is the contract of a function that
//! does nothing.
ghost use Rattle.std.specs.Prelude.{◌≡◌, ◌↔◌, true, ℕ, ◌+◌, ◌≤◌, List, length};
ghost use Rattle.chain_theory.specs.Operator.{Basis};
ghost use Rattle.chain_theory.specs.Specification.{Specification};
ghost use Rattle.chain_theory.specs.Agreement.{HasChain};
ghost use Rattle.bound_core.specs.Counts.{uses, differ};
ghost use Rattle.bound_core.specs.Support.{IsInSupport, AreInSupports, OutputsDiffer, AreLiveApart};

/// Let a list of outputs use a number of inputs together. A chain has at least as many steps as that
/// number, less the number of the outputs.
pub fn inputs_in_use_need_steps()
    ensures { (s : Specification) (basis : Basis) (r : ℕ) (inputs outputs : List ℕ) →
        AreInSupports s inputs outputs →
        HasChain s basis r →
        length inputs ≤ length outputs + r }
{}

/// A chain has at least as many steps as there are live outputs that differ pairwise.
pub fn live_outputs_need_steps()
    ensures { (s : Specification) (basis : Basis) (r : ℕ) (outputs : List ℕ) →
        AreLiveApart s outputs →
        HasChain s basis r →
        length outputs ≤ r }
{}

/// The test `uses` passes exactly where two rows that differ in that input alone have the cells 0
/// and 1. The test `differ` passes exactly where the two outputs have the cells 0 and 1 on some row.
pub fn tests_are_rows()
    ensures uses { (s : Specification) (h j : ℕ) →
        1 ≤ j →
        j ≤ s.inputs →
        (uses s h j ≡ true) ↔ IsInSupport s j h }
    ensures differ { (s : Specification) (g h : ℕ) → (differ s g h ≡ true) ↔ OutputsDiffer s g h }
{}
