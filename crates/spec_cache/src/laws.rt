//! The law of input permutations, as the contract of a function that does nothing.
ghost use Rattle.std.specs.Prelude.{ℕ, List};
ghost use Rattle.chain_theory.specs.Operator.{Basis};
ghost use Rattle.chain_theory.specs.Specification.{Specification};
ghost use Rattle.chain_theory.specs.Agreement.{HasChain};
ghost use Rattle.spec_cache.specs.Order.{IsOrder, IsPermuted};

/// If a chain of q steps implements a specification, a chain of q steps implements the specification with its
/// inputs permuted.
#[tactic(auto, using(crate::specs::OrderLaws::permute))]
pub fn the_order_of_inputs_costs_no_step()
    ensures { (s r : Specification) (order : List ℕ) (basis : Basis) (q : ℕ) →
        IsOrder s.inputs order → IsPermuted s r order → HasChain s basis q → HasChain r basis q }
{}
