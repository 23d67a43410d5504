//! Why a search for least chains may be restricted to chains in normal form. These are facts about
//! chains, independent of any encoding. Each law is the contract of a function that does nothing.
ghost use Rattle.std.specs.Prelude.{ℕ, ◌<◌};
ghost use Rattle.chain_theory.specs.Operator.{Basis};
ghost use Rattle.chain_theory.specs.Specification.{Specification};
ghost use Rattle.chain_theory.specs.Agreement.{HasChain};
ghost use Rattle.chain_theory.specs.Levels.{HasChainOfLevels};
ghost use Rattle.chain_laws.specs.NormalForm.{HasNormalFormChain};
ghost use Rattle.chain_laws.specs.Fences.{HasFencedChain};

/// If a chain of r steps and at most d levels over a basis implements a specification, and no chain of
/// fewer steps does, then a chain in normal form of r steps and at most d levels over the basis
/// implements it. A chain in normal form satisfies all symmetry-breaking and pruning constraints, each
/// under the closure property of the basis that it needs.
pub fn some_least_chain_is_in_normal_form()
    ensures { (s : Specification) (basis : Basis) (r d : ℕ) → HasChainOfLevels s basis r d →
        ((q : ℕ) → q < r → HasChain s basis q → ⊥) → HasNormalFormChain s basis r d }
{}

/// Under the same conditions some chain in normal form has its steps ordered by level, and its fence
/// has at most d levels and is listed for the number of outputs.
pub fn some_normal_form_chain_has_a_listed_fence()
    ensures { (s : Specification) (basis : Basis) (r d : ℕ) → HasChainOfLevels s basis r d →
        ((q : ℕ) → q < r → HasChain s basis q → ⊥) → HasFencedChain s basis r d }
{}
