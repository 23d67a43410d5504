//! Laws of the definitions, each the contract of a function with an empty body.

ghost use Rattle.std.specs.Prelude.{◌≡◌, Ok};
ghost use Rattle.aiger_text.specs.File.{AigFile};
ghost use Rattle.aiger_text.specs.Spelling.{spelled};
ghost use Rattle.aiger_text.specs.Statements.{file_of};
ghost use Rattle.aiger_text.specs.Valid.{IsAig};

/// A file whose literals are those of its variables, and whose symbols name its positions, is read back from its text.
/// Each file that is parsed is one (`read_ascii`).
pub fn files_are_read_back()
    ensures { (f : AigFile) → IsAig f → file_of (spelled f) ≡ Ok f }
{}
