//! What it means that a basis can't express an operator, as the contract of a function that does nothing.
ghost use Rattle.std.specs.Prelude.{ℕ, ◌<◌};
ghost use Rattle.chain_theory.specs.Operator.{Basis};
ghost use Rattle.chain_theory.specs.Agreement.{HasChain};
ghost use Rattle.net_basis.specs.OverBasis.{IsInexpressible};
ghost use Rattle.net_basis.specs.InexpressibleLaws.{table_of};

/// No chain of any size over a basis has the table of an operator that the basis can't express.
pub fn no_chain_is_an_inexpressible_operator()
    ensures { (basis : Basis) (op r : ℕ) → op < 16 → IsInexpressible basis op → HasChain (table_of op) basis r → ⊥ }
{}
