//! The reader of a text in any format.

ghost use Rattle.std.specs.Prelude.{◌≡◌, ◌≤◌, ◌<◌, ◌^◌, length, IfOk, IfErr};
ghost use Rattle.net_theory.specs.Limits.{most_gates};
ghost use Rattle.net_core.specs.declared.error.NetError.TheVariants.{Memory};
ghost use Rattle.net_document.specs.Format.{up_to, IsNetlist, IsCircuitOfText, IsRefusedText};
ghost use Rattle.net_formats.specs.Formats.{format_of};

use aiger_forms::{read_forms, read_forms_up_to};
use bench_core::{read_bench, read_bench_up_to};
use blif_core::{read_blif, read_blif_up_to};
use format_names::NetFormat;
use net_core::{Circuit, NetError};
use std::alloc::Global;

/// Reads the circuit of a text of at most `most` gates in a format, or returns the error of the format's reader. `most`
/// is at most 1,000,000. For a text that lists a well-formed document within this limit the only possible error is out
/// of memory.
pub fn read_netlist_up_to(
    alloc: Global,
    format: NetFormat,
    bytes: &[u8],
    most: u32,
) -> Result<Circuit, NetError>
    requires length { length bytes.now < 2 ^ 31 }
    requires limit { most ≤ most_gates }
    ensures circuit { IfOk result (IsCircuitOfText (up_to most (format_of format)) bytes.now) }
    ensures refused { IfErr result (IsRefusedText (up_to most (format_of format)) bytes.now) }
    ensures complete { IfErr result (λ e. IsNetlist (up_to most (format_of format)) bytes.now → e ≡ Memory) }
{
    match format {
        NetFormat::Blif => read_blif_up_to(alloc, bytes, most),
        NetFormat::Bench => read_bench_up_to(alloc, bytes, most),
        NetFormat::Aiger => read_forms_up_to(alloc, bytes, most),
    }
}

/// The circuit of a text of at most 100,000 gates in a format, or the error of the format's reader. For a text that
/// lists a well-formed document the only possible error is out of memory.
pub fn read_netlist(alloc: Global, format: NetFormat, bytes: &[u8]) -> Result<Circuit, NetError>
    requires { length bytes.now < 2 ^ 31 }
    ensures circuit { IfOk result (IsCircuitOfText (format_of format) bytes.now) }
    ensures refused { IfErr result (IsRefusedText (format_of format) bytes.now) }
    ensures complete { IfErr result (λ e. IsNetlist (format_of format) bytes.now → e ≡ Memory) }
{
    match format {
        NetFormat::Blif => read_blif(alloc, bytes),
        NetFormat::Bench => read_bench(alloc, bytes),
        NetFormat::Aiger => read_forms(alloc, bytes),
    }
}
