//! Laws of the grammar of chain blocks, each the contract of a function that does nothing.

ghost use Rattle.std.specs.Prelude.{◌≡◌, ℕ, List, ◌++◌, length, Ok};
ghost use Rattle.text_core.specs.Lines.{lines_of};
ghost use Rattle.chain_theory.specs.Chain.{Chain};
ghost use Rattle.chain_core.specs.Steps.{IsSmallChain};
ghost use Rattle.chain_core.specs.Block.{Read, chain_of};
ghost use Rattle.chain_core.specs.Spelling.{chain_text, SpellsChain};

/// A chain block is read exactly where it is the spelling of a chain, byte for byte. The chain that
/// is read is the one that was spelled, whatever text follows.
pub fn laws_of_blocks()
    ensures back { (first : ℕ) (c : Chain) (rest : List ℕ) →
        IsSmallChain c →
        chain_of first c.n (length c.outs) (lines_of (chain_text c ++ rest))
        ≡ Ok (record { chain = c; rest = lines_of rest }) }
    ensures only { (first n m : ℕ) (bytes : List ℕ) (x : Read) →
        chain_of first n m (lines_of bytes) ≡ Ok x →
        SpellsChain n m bytes x }
{}
