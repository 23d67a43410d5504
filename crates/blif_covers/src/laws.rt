//! Theorems about texts with the least covers, each the contract of a function that does nothing.
ghost use Rattle.std.specs.Prelude.{◌≡◌};
ghost use Rattle.net_theory.specs.Behaviour.{IsEquivalent};
ghost use Rattle.net_theory.specs.WellFormed.{IsWellFormed};
ghost use Rattle.net_theory.specs.Cost.{cost};
ghost use Rattle.net_theory.specs.Circuit.{Circuit, Describes};
ghost use Rattle.net_document.specs.Format.{IsFormat};
ghost use Rattle.blif_core.specs.Written.{written};
ghost use Rattle.blif_core.specs.Blif.{CanWriteBlif};
ghost use Rattle.blif_covers.specs.Least.{least_written, least_format};

use blif_laws::{blif_is_a_format, documents_are_read_back};

/// With the least covers the document of a circuit is well formed, equivalent to the circuit, and equivalent to the
/// document with the rows with 1.
pub fn least_documents_do_the_same()
    ensures well { (c : Circuit) → CanWriteBlif c → IsWellFormed (least_written c) }
    ensures describes { (c : Circuit) → CanWriteBlif c → Describes (least_written c) c }
    ensures equivalent { (c : Circuit) → CanWriteBlif c → IsEquivalent (written c) (least_written c) }
{
    // for the prover: this follows from the laws of BLIF
    blif_is_a_format();
}

/// The cost of a circuit is the same with the least covers.
pub fn least_circuits_cost_the_same()
    ensures { (c : Circuit) → CanWriteBlif c → cost (least_written c) ≡ cost (written c) }
{
    // for the prover: this follows from the laws of BLIF
    blif_is_a_format();
}

/// BLIF with the least covers is a format: it is read as all BLIF is, and the text of a proper circuit is read back.
pub fn least_is_a_format()
    ensures { IsFormat least_format CanWriteBlif }
{
    // for the prover: this follows from the laws of BLIF
    blif_is_a_format();
    documents_are_read_back();
}
