//! Theorems about BLIF texts, each the contract of a function with an empty body: the text of a circuit is read
//! back as a well-formed document that is equivalent to the circuit, so BLIF is a format; and every document
//! whose names, latches and tables are within their limits is read back from its text. The definitions are those
//! of `net_theory`, `net_document`, `blif_text` and `blif_core`.
#![tactic(auto)]

ghost use Rattle.net_theory.specs.Document.{Document};
ghost use Rattle.net_theory.specs.Circuit.{Circuit, IsProper};
ghost use Rattle.net_core.specs.Names.{HasRoomForNames};
ghost use Rattle.net_document.specs.Listed.{AreControlsFree};
ghost use Rattle.net_document.specs.Format.{IsReadBack, IsTextOf, IsFormat};
ghost use Rattle.blif_core.specs.Spelling.{spelled, circuit_text};
ghost use Rattle.blif_core.specs.Blif.{blif_format, CanWriteBlif};
ghost use Rattle.blif_laws.specs.Spelled.{IsBlifSpelling};

/// A document whose names, latches and tables are within their limits, with all tables given by cubes, is read
/// back from its text if no table drives a control.
pub fn documents_are_read_back()
    ensures { (d : Document) → IsBlifSpelling d → AreControlsFree d → IsReadBack blif_format (spelled d) d }
{}

/// The text of a proper circuit lists a well-formed document that is equivalent to the circuit and costs at most
/// as many gates as the circuit has.
pub fn circuits_are_read_back()
    ensures { (c : Circuit) → IsProper c → HasRoomForNames c → IsTextOf blif_format (circuit_text c) c }
{}

/// BLIF is a format: texts are parsed within the limits, and the text of a proper circuit is read back.
pub fn blif_is_a_format()
    ensures { IsFormat blif_format CanWriteBlif }
{}
