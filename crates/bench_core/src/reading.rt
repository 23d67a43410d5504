//! The reader: parsing, then elaboration. A text is refused with the error of the stage that fails.

ghost use Rattle.std.specs.Prelude.{◌≡◌, ◌≤◌, ◌<◌, ◌^◌, length, IfOk, IfErr};
ghost use Rattle.net_theory.specs.Limits.{most_gates};
ghost use Rattle.net_core.specs.declared.error.NetError.TheVariants.{Memory};
ghost use Rattle.net_document.specs.Format.{up_to, IsNetlist, IsCircuitOfText, IsRefusedText};
ghost use Rattle.bench_core.specs.Bench.{bench_format};

use bench_text::read_listed;
use net_build::circuit_of;
use net_core::{Circuit, NetError};
use net_theory::DEFAULT_GATES;
use std::alloc::Global;

/// Reads the circuit of a BENCH text (the ISCAS benchmark files), or returns the error.
///
/// Lines are checked in order, and the first fault is reported; then more gates than `most`, which is at most
/// 1,000,000, a name that is driven twice, an undriven name, and a combinational loop. For a text that lists a
/// well-formed document within this limit the only possible error is out of memory. The circuit has the document's
/// names and is equivalent to it; its model's name is `top`. Takes time linear in the text, except for combinational
/// loops.
#[tactic(auto, using(blif_core::specs::RefusedLaws::refusals))]
pub fn read_bench_up_to(alloc: Global, bytes: &[u8], most: u32) -> Result<Circuit, NetError>
    requires length { length bytes.now < 2 ^ 31 }
    requires limit { most ≤ most_gates }
    ensures circuit { IfOk result (IsCircuitOfText (up_to most bench_format) bytes.now) }
    ensures refused { IfErr result (IsRefusedText (up_to most bench_format) bytes.now) }
    ensures complete { IfErr result (λ e. IsNetlist (up_to most bench_format) bytes.now → e ≡ Memory) }
{
    let listed = read_listed(alloc, bytes)?;
    Ok(circuit_of(alloc, listed, most)?)
}

/// The circuit of a text of at most 100,000 gates, or the error (`read_bench_up_to`).
pub fn read_bench(alloc: Global, bytes: &[u8]) -> Result<Circuit, NetError>
    requires { length bytes.now < 2 ^ 31 }
    ensures circuit { IfOk result (IsCircuitOfText bench_format bytes.now) }
    ensures refused { IfErr result (IsRefusedText bench_format bytes.now) }
    ensures complete { IfErr result (λ e. IsNetlist bench_format bytes.now → e ≡ Memory) }
{
    read_bench_up_to(alloc, bytes, DEFAULT_GATES)
}
