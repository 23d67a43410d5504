//! Laws of generated netlists, each the contract of a function that does nothing. The lemmas behind them are on blocks:
//! the names of a block, the topological order of its tables, their costs and the length of their text.
ghost use Rattle.std.specs.Prelude.{ℕ, ◌≤◌, length};
ghost use Rattle.net_document.specs.Format.{IsNetlist};
ghost use Rattle.blif_core.specs.Blif.{blif_format};
ghost use Rattle.gen_core.specs.Generated.{generated_text};
ghost use Rattle.settings.specs.Limits.{most_blocks};
ghost use Rattle.net_theory.specs.Limits.{most_of_netlist};

use blif_laws::documents_are_read_back;

/// A generated netlist of at most 10,000 blocks is well formed: no name is driven twice, each used name is driven,
/// there is no combinational loop, and there are at most 100,000 gates.
pub fn generated_netlists_are_netlists()
    ensures { (blocks : ℕ) → blocks ≤ most_blocks → IsNetlist blif_format (generated_text blocks) }
{
    // for the prover: this follows from the law of documents
    documents_are_read_back();
}

/// The text of a generated netlist of at most 10,000 blocks has at most 16,777,216 bytes.
pub fn generated_netlists_are_small()
    ensures { (blocks : ℕ) → blocks ≤ most_blocks → length (generated_text blocks) ≤ most_of_netlist }
{}
