//! Why a search for least chains may ask for the exchange cut with complements. These are facts about chains,
//! independent of any encoding. Each law is the contract of a function that does nothing.
ghost use Rattle.std.specs.Prelude.{◌≡◌, ℕ, ◌^◌, ◌≤◌, ◌<◌};
ghost use Rattle.chain_theory.specs.Operator.{Basis};
ghost use Rattle.chain_theory.specs.Specification.{Specification, input};
ghost use Rattle.chain_theory.specs.Agreement.{HasChain};
ghost use Rattle.chain_theory.specs.Levels.{HasChainOfLevels};
ghost use Rattle.npn_laws.specs.Exchange.{image, image_bit};
ghost use Rattle.npn_laws.specs.Least.{HasExchangeCutChain, HasExchangeCutFence};

/// The image of a row is a row, and gives each input the bit of its exchanged partner, complemented where row k has
/// a 1.
pub fn rows_have_images()
    ensures within { (n p q k t : ℕ) → image n p q k t < 2 ^ n }
    ensures bits { (n p q k t j : ℕ) → 1 ≤ j → j ≤ n → input n (image n p q k t) j ≡ image_bit n p q k t j }
{}

/// If a chain of r steps and at most d levels over a basis implements a specification, and no chain of fewer steps
/// does, then a chain in normal form of r steps and at most d levels over the basis implements it that meets the cut.
pub fn some_least_chain_meets_the_exchange_cut()
    ensures { (s : Specification) (basis : Basis) (r d : ℕ) → HasChainOfLevels s basis r d →
        ((q : ℕ) → q < r → HasChain s basis q → ⊥) → HasExchangeCutChain s basis r d }
{}

/// Under the same conditions some such chain has its steps ordered by level, and its fence has at most d levels and is
/// listed for the number of outputs.
pub fn some_chain_with_the_exchange_cut_has_a_listed_fence()
    ensures { (s : Specification) (basis : Basis) (r d : ℕ) → HasChainOfLevels s basis r d →
        ((q : ℕ) → q < r → HasChain s basis q → ⊥) → HasExchangeCutFence s basis r d }
{}
