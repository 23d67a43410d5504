//! Reads two netlists, each in its format, and compares them.
ghost use Rattle.std.specs.Prelude.{◌≡◌, ◌≤◌, ◌<◌, ◌^◌, length, IfOk, IfErr};
ghost use Rattle.sat_theory.specs.Limits.{most_conflicts};
ghost use Rattle.net_theory.specs.Limits.{most_of_two};
ghost use Rattle.net_document.specs.Format.{IsCircuitOfText};
ghost use Rattle.net_formats.specs.Formats.{format_of};
ghost use Rattle.equiv_run.specs.Two.{lacks_sinks as lacks_sinks_of};
ghost use Rattle.equiv_values.specs.Told.{told_in};
ghost use Rattle.equiv_formats.specs.Comparison.{first_format, IsFormatsAnswer, IsFormatsRefused, SaysNoSink};
ghost use Rattle.equiv_formats.specs.Comparison.{IsFirstRefused, IsSecondRefused};

use crate::sections::check_sections;
use equiv_run::{CompareError, Compared};
use equiv_values::{ComparedNamed, compare_named};
use format_names::{FormatPair, NetFormat};
use net_core::{Circuit, NetError};
use net_formats::read_netlist;
use progress::Tell;
use sat_solve::Solver;
use std::alloc::Global;

/// The comparison of two netlists, each in its format.
#[derive(Drop)]
pub struct NamedTwo {
    /// The result.
    pub compared: Compared,
    /// The values of a counterexample by names; None if no difference was found.
    pub told: Option<Vec<u8>>,
    /// Whether neither netlist has an output or a latch, so that nothing was compared.
    pub no_sink: bool,
}

/// Reads the first netlist.
fn read_first(alloc: Global, format: NetFormat, bytes: &[u8]) -> Result<Circuit, CompareError>
    requires { length bytes.now < 2 ^ 31 }
    ensures circuit { IfOk result (IsCircuitOfText (format_of format) bytes.now) }
    ensures refused { IfErr result (IsFirstRefused (format_of format) bytes.now) }
{
    match read_netlist(alloc, format, bytes) {
        Ok(circuit) => Ok(circuit),
        Err(NetError::Memory) => Err(CompareError::Memory),
        Err(error) => Err(CompareError::First(error)),
    }
}

/// Reads the second netlist.
fn read_second(alloc: Global, format: NetFormat, bytes: &[u8]) -> Result<Circuit, CompareError>
    requires { length bytes.now < 2 ^ 31 }
    ensures circuit { IfOk result (IsCircuitOfText (format_of format) bytes.now) }
    ensures refused { IfErr result (IsSecondRefused (format_of format) bytes.now) }
{
    match read_netlist(alloc, format, bytes) {
        Ok(circuit) => Ok(circuit),
        Err(NetError::Memory) => Err(CompareError::Memory),
        Err(error) => Err(CompareError::Second(error)),
    }
}

/// Whether a circuit has neither an output nor a latch.
fn lacks_sinks(circuit: &Circuit) -> bool
    ensures { result ≡ lacks_sinks_of circuit.now.outputs circuit.now.latches }
{
    circuit.outputs.is_empty() && circuit.latches.is_empty()
}

/// Decides with the solver `S` whether two netlists are equivalent, each in its format and of at most 33,554,432 bytes.
/// The budget is 1 to 10,000,000 `conflicts`, as of `equiv_run`. It says whether the first has no output and no latch;
/// the second then has none either, and nothing is compared.
///
/// Two texts that can't be compared are refused with the first fault of the first, that of the second, or different
/// interfaces, never with `NoSecond`; the interfaces of two AIGER texts also differ by how many outputs, bad states or
/// constraints there are. Two netlists of one interface are refused only if memory runs out. `tell`
/// hears of each gate that is compared.
pub fn compare_netlists<S: Solver, T: Tell>(
    alloc: Global,
    formats: FormatPair,
    first: &[u8],
    second: &[u8],
    conflicts: u32,
    tell: &T,
) -> Result<NamedTwo, CompareError>
    requires first { length first.now ≤ most_of_two }
    requires second { length second.now ≤ most_of_two }
    requires budget { (1 ≤ conflicts) × (conflicts ≤ most_conflicts) }
    ensures answer { IfOk result (λ c. IsFormatsAnswer formats conflicts first.now second.now c.compared.text.items
        (told_in c.told) c.compared.outcome) }
    ensures no_sink { IfOk result (λ c. SaysNoSink (first_format formats) first.now c.no_sink) }
    ensures refused { IfErr result (IsFormatsRefused formats first.now second.now) }
{
    let one = read_first(alloc, formats.first, first)?;
    let other = read_second(alloc, formats.second, second)?;
    check_sections(alloc, formats, first, second)?;
    let named = compare_named::<S, T>(alloc, &one, &other, conflicts, tell)?;
    let no_sink = lacks_sinks(&one);
    let ComparedNamed { compared, told } = named;
    Ok(NamedTwo {
        compared,
        told,
        no_sink,
    })
}
