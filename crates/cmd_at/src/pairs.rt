//! The values of the netlists of two texts, each in its format.
ghost use Rattle.std.specs.Prelude.{◌≤◌, ◌<◌, ◌^◌, length, IfOk, IfErr};
ghost use Rattle.net_theory.specs.Limits.{most_of_netlist};
ghost use Rattle.net_document.specs.Format.{IsCircuitOfText};
ghost use Rattle.net_formats.specs.Formats.{format_of};
ghost use Rattle.equiv_formats.specs.Comparison.{IsFormatsRefused, IsFirstRefused, IsSecondRefused};
ghost use Rattle.cmd_at.specs.AtReport.{IsValued};

use crate::circuits::{Valued, value_circuits};
use equiv_formats::check_sections;
use equiv_run::CompareError;
use format_names::{FormatPair, NetFormat};
use net_core::{Circuit, NetError};
use net_formats::read_netlist;
use std::alloc::Global;

/// Reads the first netlist.
fn read_first(alloc: Global, format: NetFormat, bytes: &[u8]) -> Result<Circuit, CompareError>
    requires { length bytes.now < 2 ^ 31 }
    ensures circuit { IfOk result (IsCircuitOfText (format_of format) bytes.now) }
    ensures refused { IfErr result (IsFirstRefused (format_of format) bytes.now) }
{
    match read_netlist(alloc, format, bytes) {
        Ok(circuit) => Ok(circuit),
        Err(NetError::Memory) => Err(CompareError::Memory),
        Err(error) => Err(CompareError::First(error)),
    }
}

/// Reads the second netlist.
fn read_second(alloc: Global, format: NetFormat, bytes: &[u8]) -> Result<Circuit, CompareError>
    requires { length bytes.now < 2 ^ 31 }
    ensures circuit { IfOk result (IsCircuitOfText (format_of format) bytes.now) }
    ensures refused { IfErr result (IsSecondRefused (format_of format) bytes.now) }
{
    match read_netlist(alloc, format, bytes) {
        Ok(circuit) => Ok(circuit),
        Err(NetError::Memory) => Err(CompareError::Memory),
        Err(error) => Err(CompareError::Second(error)),
    }
}

/// The values of two netlists, each of a text of its own, under `bits` of their sources. Texts that `equiv` doesn't
/// compare are refused as by `equiv`.
pub(crate) fn value_texts(
    alloc: Global,
    formats: FormatPair,
    first: &[u8],
    second: &[u8],
    bits: &[bool],
) -> Result<Valued, CompareError>
    requires first { length first.now ≤ most_of_netlist }
    requires second { length second.now ≤ most_of_netlist }
    ensures valued { IfOk result (IsValued formats bits.now first.now second.now) }
    ensures refused { IfErr result (IsFormatsRefused formats first.now second.now) }
{
    let one = read_first(alloc, formats.first, first)?;
    let other = read_second(alloc, formats.second, second)?;
    check_sections(alloc, formats, first, second)?;
    let valued = value_circuits(alloc, &one, &other, bits)?;
    Ok(valued)
}
