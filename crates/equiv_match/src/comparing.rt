//! Reads two netlists, each in its format, and compares them by names.
ghost use Rattle.std.specs.Prelude.{◌≡◌, ◌≤◌, ◌<◌, ◌^◌, length, IfOk, IfErr, OnOk};
ghost use Rattle.sat_theory.specs.Limits.{most_conflicts};
ghost use Rattle.net_theory.specs.Limits.{most_of_two};
ghost use Rattle.net_theory.specs.Circuit.{IsProper};
ghost use Rattle.net_document.specs.Format.{IsCircuitOfText};
ghost use Rattle.net_formats.specs.Formats.{format_of};
ghost use Rattle.equiv_core.specs.Limits.{IsSmall};
ghost use Rattle.equiv_run.specs.Two.{lacks_sinks as lacks_sinks_of};
ghost use Rattle.equiv_values.specs.Named.{IsNamedCircuitAnswer};
ghost use Rattle.equiv_values.specs.Told.{told_in, told_text};
ghost use Rattle.equiv_formats.specs.Comparison.{first_format, SaysNoSink};
ghost use Rattle.equiv_match.specs.MatchComparison.{IsMatchedAnswer, IsMatchRefused};
ghost use Rattle.equiv_match.specs.ReadingLaws.{IsReadFirst, IsReadSecond, IsChecked, IsUnchecked, IsUncompared};

use crate::error::MatchError;
use crate::ordering::ordered_circuit;
use equiv_formats::NamedTwo;
use equiv_run::CompareError;
use equiv_values::{ComparedNamed, compare_named};
use format_names::{FormatPair, NetFormat};
use match_core::first_lack;
use net_core::{Circuit, NetError};
use net_formats::read_netlist;
use progress::Tell;
use sat_solve::Solver;
use std::alloc::Global;

/// Reads the first netlist.
fn read_first(alloc: Global, format: NetFormat, bytes: &[u8]) -> Result<Circuit, MatchError>
    requires { length bytes.now < 2 ^ 31 }
    ensures circuit { IfOk result (IsCircuitOfText (format_of format) bytes.now) }
    ensures refused { IfErr result (IsReadFirst (format_of format) bytes.now) }
{
    match read_netlist(alloc, format, bytes) {
        Ok(circuit) => Ok(circuit),
        Err(NetError::Memory) => Err(MatchError::Refused(CompareError::Memory)),
        Err(error) => Err(MatchError::Refused(CompareError::First(error))),
    }
}

/// Reads the second netlist.
fn read_second(alloc: Global, format: NetFormat, bytes: &[u8]) -> Result<Circuit, MatchError>
    requires { length bytes.now < 2 ^ 31 }
    ensures circuit { IfOk result (IsCircuitOfText (format_of format) bytes.now) }
    ensures refused { IfErr result (IsReadSecond (format_of format) bytes.now) }
{
    match read_netlist(alloc, format, bytes) {
        Ok(circuit) => Ok(circuit),
        Err(NetError::Memory) => Err(MatchError::Refused(CompareError::Memory)),
        Err(error) => Err(MatchError::Refused(CompareError::Second(error))),
    }
}

/// Reads the second netlist, and looks for names that one of the two lacks.
#[tactic(auto, using(crate::specs::ReadingLaws::checking))]
fn check_second(
    alloc: Global,
    format: NetFormat,
    bytes: &[u8],
    first: &Circuit,
) -> Result<(), MatchError>
    requires { length bytes.now < 2 ^ 31 }
    ensures checked { OnOk result (IsChecked (format_of format) bytes.now first.now) }
    ensures refused { IfErr result (IsUnchecked (format_of format) bytes.now first.now) }
{
    let second = read_second(alloc, format, bytes)?;
    match first_lack(alloc, first, &second)? {
        Some(lack) => Err(MatchError::Lacks(lack)),
        None => Ok(()),
    }
}

/// Whether a circuit has neither an output nor a latch.
fn lacks_sinks(circuit: &Circuit) -> bool
    ensures { result ≡ lacks_sinks_of circuit.now.outputs circuit.now.latches }
{
    circuit.outputs.is_empty() && circuit.latches.is_empty()
}

/// Compares two circuits of one order.
fn compare_ordered<S: Solver, T: Tell>(
    alloc: Global,
    first: &Circuit,
    second: &Circuit,
    conflicts: u32,
    tell: &T,
) -> Result<ComparedNamed, MatchError>
    requires first { IsProper first.now }
    requires second { IsProper second.now }
    requires small { IsSmall first.now.net }
    requires other { IsSmall second.now.net }
    requires budget { (1 ≤ conflicts) × (conflicts ≤ most_conflicts) }
    ensures reported { IfOk result (λ c.
        IsNamedCircuitAnswer conflicts first.now second.now c.compared.text.items (told_text c) c.compared.outcome) }
    ensures refused { IfErr result (IsUncompared first.now second.now) }
{
    match compare_named::<S, T>(alloc, first, second, conflicts, tell) {
        Ok(named) => Ok(named),
        Err(error) => Err(MatchError::Refused(error)),
    }
}

/// Decides with the solver `S` whether two netlists are equivalent by the names of their inputs, outputs and latches,
/// each in its format and of at most 33,554,432 bytes. The budget is 1 to 10,000,000 `conflicts`, as of `equiv_run`. It
/// says whether the first has no output and no latch; the second then has none either, and nothing is compared.
///
/// Two texts that can't be compared are refused with the first fault of the first, that of the second, the first name
/// that one of them lacks, or different clocks or latches (`DifferentInterface`), never with `NoSecond`. Otherwise they
/// are refused only if memory runs out. `tell` hears of each gate that is compared.
pub fn compare_matched<S: Solver, T: Tell>(
    alloc: Global,
    formats: FormatPair,
    first: &[u8],
    second: &[u8],
    conflicts: u32,
    tell: &T,
) -> Result<NamedTwo, MatchError>
    requires first { length first.now ≤ most_of_two }
    requires second { length second.now ≤ most_of_two }
    requires budget { (1 ≤ conflicts) × (conflicts ≤ most_conflicts) }
    ensures answer { IfOk result (λ c. IsMatchedAnswer formats conflicts first.now second.now c.compared.text.items
        (told_in c.told) c.compared.outcome) }
    ensures no_sink { IfOk result (λ c. SaysNoSink (first_format formats) first.now c.no_sink) }
    ensures refused { IfErr result (IsMatchRefused formats first.now second.now) }
{
    let one = read_first(alloc, formats.first, first)?;
    check_second(alloc, formats.second, second, &one)?;
    let other = ordered_circuit(alloc, formats.second, second, &one)?;
    let named = compare_ordered::<S, T>(alloc, &one, &other, conflicts, tell)?;
    let no_sink = lacks_sinks(&one);
    let ComparedNamed { compared, told } = named;
    Ok(NamedTwo {
        compared,
        told,
        no_sink,
    })
}
