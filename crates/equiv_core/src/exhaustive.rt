//! Exhaustive comparison of two nets with few sources, which takes less time than a solver: both are simulated
//! under each assignment.
ghost use Rattle.std.specs.Prelude.{◌≡◌, ◌≤◌, ◌↔◌, ◌++◌, ◌∷◌, [], ℕ, Bool, true, false, length, IfOk, IsTrue};
ghost use Rattle.net_theory.specs.Net.{sink_values};
ghost use Rattle.equiv_theory.specs.Counterexample.{AreComparable, Differ as AreDifferent};
ghost use Rattle.equiv_core.specs.Exhaustive.{HasNoneUnder, IsNarrow};

use crate::values::first_difference;
use net_core::Net;
use std::alloc::{AllocError, Global};

/// The most sources of nets that are compared exhaustively.
const MOST_SOURCES: u32 = 12;

/// The most values of gates and sinks that are computed: a few seconds at most.
const MOST_VALUES: usize = 1_000_000_000;

/// Whether two nets have few enough sources, gates and sinks for exhaustive comparison.
pub(crate) fn are_narrow(first: &Net, second: &Net) -> bool
    ensures { IsTrue result ↔ IsNarrow first.now second.now }
{
    let sources = first.sources();
    if sources > MOST_SOURCES {
        return false;
    }
    let gates = first.gates().len().saturating_add(second.gates().len());
    let sinks = first.sinks().len().saturating_add(second.sinks().len());
    gates.saturating_add(sinks).saturating_mul(1 << sources) <= MOST_VALUES
}

/// A copy of `bits` with `bit` appended.
fn with_bit(alloc: Global, bits: &[bool], bit: bool) -> Result<Vec<bool>, AllocError>
    ensures { IfOk result (λ longer. longer.items ≡ bits.now ++ bit ∷ []) }
{
    let mut longer = Vec::with_capacity(alloc, bits.len().saturating_add(1))?;
    longer.extend_from_slice(bits)?;
    longer.push(bit)?;
    Ok(longer)
}

/// Whether all sinks of two nets agree if the sources have the values `bits`.
#[tactic(auto, using(crate::specs::ExhaustiveLaws::none_at_all_bits, crate::specs::ExhaustiveLaws::difference_found))]
fn agree_at(alloc: Global, first: &Net, second: &Net, bits: &[bool]) -> Result<bool, AllocError>
    requires comparable { AreComparable first.now second.now }
    requires bits { length bits.now ≡ first.now.sources }
    ensures none { IfOk result (λ agree. agree ≡ true → HasNoneUnder first.now second.now bits.now) }
    ensures differ { IfOk result (λ agree. agree ≡ false → AreDifferent first.now second.now) }
{
    match first_difference(alloc, first, second, bits)? {
        Some(_) => Ok(false),
        None => Ok(true),
    }
}

/// Whether all sinks of two nets agree under every assignment that gives the first sources the values `bits`.
fn agree_under(alloc: Global, first: &Net, second: &Net, bits: &[bool]) -> Result<bool, AllocError>
    requires comparable { AreComparable first.now second.now }
    requires bits { length bits.now ≤ first.now.sources }
    ensures none { IfOk result (λ agree. agree ≡ true → HasNoneUnder first.now second.now bits.now) }
    ensures differ { IfOk result (λ agree. agree ≡ false → AreDifferent first.now second.now) }
{
    if bits.len() == first.sources() as usize {
        return agree_at(alloc, first, second, bits);
    }
    let low = with_bit(alloc, bits, false)?;
    if !agree_under(alloc, first, second, &low)? {
        return Ok(false);
    }
    let high = with_bit(alloc, bits, true)?;
    let agree = agree_under(alloc, first, second, &high)?;
    Ok(agree)
}

/// Whether all sinks of two nets agree under every assignment.
pub(crate) fn agree(alloc: Global, first: &Net, second: &Net) -> Result<bool, AllocError>
    requires comparable { AreComparable first.now second.now }
    ensures same { IfOk result (λ agree. agree ≡ true → (given : ℕ → Bool) →
        sink_values first.now given ≡ sink_values second.now given) }
    ensures differ { IfOk result (λ agree. agree ≡ false → AreDifferent first.now second.now) }
{
    let nothing = Vec::new(alloc);
    let agree = agree_under(alloc, first, second, &nothing)?;
    Ok(agree)
}
