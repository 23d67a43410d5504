//! The reader: parsing, the document of the file, then elaboration. A text is refused with the error of the stage that
//! fails.

ghost use Rattle.std.specs.Prelude.{◌≡◌, ◌+◌, ◌*◌, ◌≤◌, ◌<◌, ◌^◌, length, IfOk, IfErr};
ghost use Rattle.net_theory.specs.Limits.{most_gates};
ghost use Rattle.net_core.specs.declared.error.NetError.TheVariants.{Memory};
ghost use Rattle.net_document.specs.Format.{up_to, IsNetlist, IsCircuitOfText, IsRefusedText};
ghost use Rattle.net_document.specs.Listed.{IsWellListed, AreControlsFree};
ghost use Rattle.net_theory.specs.Cost.{cost};
ghost use Rattle.net_theory.specs.NetOf.{source_count};
ghost use Rattle.aiger_text.specs.Reading.{Gives};
ghost use Rattle.aiger_core.specs.Aiger as aiger;
ghost use Rattle.aiger_core.specs.Aiger.{aiger_format};

use aiger_text::{listed_of, read_ascii};
use net_build::circuit_of;
use net_core::{Circuit, NetError};
use net_document::Listed;
use net_theory::DEFAULT_GATES;
use std::alloc::Global;

/// What a text lists, or the first fault of its lines.
#[tactic(auto, using(crate::proofs::Readings::listings))]
fn read_listed(alloc: Global, bytes: &[u8]) -> Result<Listed, NetError>
    requires { length bytes.now < 2 ^ 31 }
    ensures exact { Gives (λ l. l) result (aiger.listed_of bytes.now) }
    ensures listed { IfOk result IsWellListed }
    ensures free { IfOk result (λ l. AreControlsFree l.document) }
    ensures few { IfOk result (λ l. length l.document.tables < 2 ^ 31) }
    ensures small { IfOk result (λ l. 2 * source_count l.document + cost l.document < 2 ^ 31) }
{
    let file = read_ascii(alloc, bytes)?;
    let listed = listed_of(alloc, &file)?;
    Ok(listed)
}

/// Reads the circuit of an AIGER text (the ASCII form of the AIGER 1.9 report), or returns the error.
///
/// Lines are checked in order, and the first fault is reported; then more gates than `most`, which is at most
/// 1,000,000, a name that is driven twice, an undriven name, and a combinational loop. For a text that lists a
/// well-formed document within this limit the only possible error is out of memory. The circuit has the names of the
/// symbols and is equivalent to the document; its model's name is `top`. Takes time linear in the text, except for
/// combinational loops.
#[tactic(auto, using(crate::proofs::Readings::refusals))]
pub fn read_aiger_up_to(alloc: Global, bytes: &[u8], most: u32) -> Result<Circuit, NetError>
    requires length { length bytes.now < 2 ^ 31 }
    requires limit { most ≤ most_gates }
    ensures circuit { IfOk result (IsCircuitOfText (up_to most aiger_format) bytes.now) }
    ensures refused { IfErr result (IsRefusedText (up_to most aiger_format) bytes.now) }
    ensures complete { IfErr result (λ e. IsNetlist (up_to most aiger_format) bytes.now → e ≡ Memory) }
{
    let listed = read_listed(alloc, bytes)?;
    Ok(circuit_of(alloc, listed, most)?)
}

/// The circuit of a text of at most 100,000 gates, or the error (`read_aiger_up_to`).
pub fn read_aiger(alloc: Global, bytes: &[u8]) -> Result<Circuit, NetError>
    requires { length bytes.now < 2 ^ 31 }
    ensures circuit { IfOk result (IsCircuitOfText aiger_format bytes.now) }
    ensures refused { IfErr result (IsRefusedText aiger_format bytes.now) }
    ensures complete { IfErr result (λ e. IsNetlist aiger_format bytes.now → e ≡ Memory) }
{
    read_aiger_up_to(alloc, bytes, DEFAULT_GATES)
}
