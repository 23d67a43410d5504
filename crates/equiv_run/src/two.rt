//! Compares two netlists, each in a text of its own.
ghost use Rattle.std.specs.Prelude.{◌≡◌, ◌≤◌, length, IfOk, IfErr};
ghost use Rattle.sat_theory.specs.Limits.{most_conflicts};
ghost use Rattle.net_theory.specs.Limits.{most_of_two};
ghost use Rattle.equiv_run.specs.Two.{lacks_sinks as lacks_sinks_of, IsTwoAnswer, IsTwoRefused, SaysNoSink};

use crate::answer::{CompareError, ComparedTwo};
use crate::reading::{compare_circuits, read_first, read_second};
use blif_core::Circuit;
use progress::Tell;
use sat_solve::Solver;
use std::alloc::Global;

/// Whether a circuit has neither an output nor a latch.
fn lacks_sinks(circuit: &Circuit) -> bool
    ensures { result ≡ lacks_sinks_of circuit.now.outputs circuit.now.latches }
{
    circuit.outputs.is_empty() && circuit.latches.is_empty()
}

/// Decides with the solver `S` whether two BLIF netlists are equivalent, each of at most 33,554,432 bytes. They
/// aren't joined: neither can supply what the other lacks. The budget and the answers are those of `compare_texts`. It
/// says whether the first has no output and no latch; the second then has none either, and nothing is compared.
///
/// Two texts that can't be compared are refused with the first fault of the first, that of the second, or different
/// interfaces, never with `NoSecond`. Two netlists of one interface are refused only if memory runs out. `tell`
/// hears of each gate that is compared.
pub fn compare_two<S: Solver, T: Tell>(
    alloc: Global,
    first: &[u8],
    second: &[u8],
    conflicts: u32,
    tell: &T,
) -> Result<ComparedTwo, CompareError>
    requires first { length first.now ≤ most_of_two }
    requires second { length second.now ≤ most_of_two }
    requires budget { (1 ≤ conflicts) × (conflicts ≤ most_conflicts) }
    ensures answer { IfOk result (λ c. IsTwoAnswer conflicts first.now second.now c.compared.text.items
        c.compared.outcome) }
    ensures no_sink { IfOk result (λ c. SaysNoSink first.now c.no_sink) }
    ensures refused { IfErr result (IsTwoRefused first.now second.now) }
{
    let one = read_first(alloc, first)?;
    let other = read_second(alloc, second)?;
    let compared = compare_circuits::<S, T>(alloc, &one, &other, conflicts, tell)?;
    let no_sink = lacks_sinks(&one);
    Ok(ComparedTwo { compared, no_sink })
}
