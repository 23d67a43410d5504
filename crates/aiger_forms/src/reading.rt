//! The reader of both forms.

ghost use Rattle.std.specs.Prelude.{◌≡◌, ◌≤◌, ◌<◌, ◌^◌, length, IfOk, IfErr};
ghost use Rattle.net_theory.specs.Limits.{most_gates};
ghost use Rattle.net_core.specs.declared.error.NetError.TheVariants.{Memory};
ghost use Rattle.net_document.specs.Format.{up_to, IsNetlist, IsCircuitOfText, IsRefusedText};
ghost use Rattle.aiger_core.specs.Aiger.{aiger_format};
ghost use Rattle.aiger_forms.specs.Forms.{aiger_forms};

use aiger_core::read_aiger_up_to;
use aiger_sections::plain_text;
use net_core::{Circuit, NetError};
use net_theory::DEFAULT_GATES;
use std::alloc::Global;

/// The most bytes of an ASCII text. That of a binary text has at most some 80,000,000 more than the binary one.
const MOST_BYTES: usize = 2_147_483_647;

/// Reads the circuit of a text that may be too long for memory.
fn read_long(alloc: Global, text: &[u8], most: u32) -> Result<Circuit, NetError>
    requires { most ≤ most_gates }
    ensures circuit { IfOk result (IsCircuitOfText (up_to most aiger_format) text.now) }
    ensures refused { IfErr result (IsRefusedText (up_to most aiger_format) text.now) }
    ensures complete { IfErr result (λ e. IsNetlist (up_to most aiger_format) text.now → e ≡ Memory) }
{
    if text.len() > MOST_BYTES {
        return Err(NetError::Memory);
    }
    read_aiger_up_to(alloc, text, most)
}

/// Reads the circuit of an AIGER text in either form, which its first three bytes say: `aag` or `aig`. Bad states and
/// invariant constraints are further outputs of the circuit, after the outputs, and one without a symbol has the name
/// of the output that it is: after 2 outputs the first bad state is `o2`. Errors are those of `read_aiger_up_to`; where
/// a binary text is faulty, the line is that which the same input, latch, output, gate or symbol has in the ASCII form.
/// The limit `most` of gates is at most 1,000,000.
#[tactic(auto, using(crate::proofs::Binaries::plains))]
pub fn read_forms_up_to(alloc: Global, bytes: &[u8], most: u32) -> Result<Circuit, NetError>
    requires length { length bytes.now < 2 ^ 31 }
    requires limit { most ≤ most_gates }
    ensures circuit { IfOk result (IsCircuitOfText (up_to most aiger_forms) bytes.now) }
    ensures refused { IfErr result (IsRefusedText (up_to most aiger_forms) bytes.now) }
    ensures complete { IfErr result (λ e. IsNetlist (up_to most aiger_forms) bytes.now → e ≡ Memory) }
{
    let text = plain_text(alloc, bytes)?;
    read_long(alloc, &text, most)
}

/// The circuit of a text of at most 100,000 gates, or the error (`read_forms_up_to`).
pub fn read_forms(alloc: Global, bytes: &[u8]) -> Result<Circuit, NetError>
    requires { length bytes.now < 2 ^ 31 }
    ensures circuit { IfOk result (IsCircuitOfText aiger_forms bytes.now) }
    ensures refused { IfErr result (IsRefusedText aiger_forms bytes.now) }
    ensures complete { IfErr result (λ e. IsNetlist aiger_forms bytes.now → e ≡ Memory) }
{
    read_forms_up_to(alloc, bytes, DEFAULT_GATES)
}
