//! Theorems about AIGER texts, each the contract of a function with an empty body: the text of a circuit is read back
//! as a well-formed document that is equivalent to the circuit, so AIGER is a format. The definitions are those of
//! `net_theory`, `net_document`, `aiger_text` and `aiger_core`.
#![tactic(auto)]

ghost use Rattle.net_theory.specs.Circuit.{Circuit};
ghost use Rattle.net_document.specs.Format.{IsTextOf, IsFormat};
ghost use Rattle.aiger_text.specs.Spelling.{spelled};
ghost use Rattle.aiger_text.specs.Valid.{IsAig};
ghost use Rattle.aiger_core.specs.Aiger.{aiger_format};
ghost use Rattle.aiger_core.specs.Written.{file_of};
ghost use Rattle.aiger_laws.specs.Writable.{CanWriteAiger};

use aiger_text::files_are_read_back;

/// The file of a circuit that can be written is one that can be spelled.
pub fn files_of_circuits_can_be_spelled()
    ensures { (c : Circuit) → CanWriteAiger c → IsAig (file_of c) }
{}

/// The text of a circuit that can be written lists a well-formed document that is equivalent to the circuit and costs
/// at most as many gates as the circuit has.
pub fn circuits_are_read_back()
    ensures { (c : Circuit) → CanWriteAiger c → IsTextOf aiger_format (spelled (file_of c)) c }
{
    // for the prover: a file is read back from its text
    files_are_read_back();
}

/// AIGER is a format: texts are parsed within the limits, the text of a circuit that can be written is read back, and
/// the circuit of every text can be written, also after its net is replaced by one that implements it with AND gates
/// with complements.
pub fn aiger_is_a_format()
    ensures { IsFormat aiger_format CanWriteAiger }
{
    // for the prover: a file is read back from its text
    files_are_read_back();
}
