//! Combinational equivalence of two circuits. A SAT sweep has the solver of their miter derive internal
//! equivalences, and then the solver decides. Its log refutes the miter or has spent the budget; its assignment is
//! an input at which the circuits differ. A counterexample from the sweep is believed only after simulation. The
//! budget bounds the log: the sweep may add some clauses for each variable, and more of them than that cost the
//! search after it as many.
ghost use Rattle.std.specs.Prelude.{◌≡◌, ◌≤◌, ◌<◌, ◌+◌, ◌-◌, ◌*◌, ◌^◌, ℕ, length, max, Err};
ghost use Rattle.std.specs.Prelude.{IfOk, IfErr, IfSome, OnOk};
ghost use Rattle.sat_theory.specs.Formula.{Formula, bits_of, Satisfies};
ghost use Rattle.sat_theory.specs.Log.{Refutes, ReachesBudget, KeepsHalf, BoundsLiveAdditions};
ghost use Rattle.sat_theory.specs.Limits.{most_conflicts};
ghost use Rattle.net_theory.specs.Circuit.{IsProper};
ghost use Rattle.net_document.specs.Equivalence.{AreEquivalentCircuits};
ghost use Rattle.equiv_theory.specs.Miter.{miter as miter_of, variables};
ghost use Rattle.equiv_theory.specs.Counterexample.{AreComparable, HaveSameInterface, IsCounterexample};
ghost use Rattle.equiv_core.specs.declared.answer.EquivError.TheVariants.{DifferentInterface};
ghost use Rattle.sat_sweep.specs.KeepsFormula.{most_after};
ghost use Rattle.equiv_core.specs.Limits.{IsSmall, IsWithinBudget};
ghost use Rattle.equiv_core.specs.Comparing.{IfEqual, IfDiffer, IfUndecided, IfLogged, IsDecided};

use crate::answer::{EquivError, EquivResult};
use crate::interface::same_interface;
use crate::mitering::miter;
use crate::values::first_difference;
use cnf_core::{Assign, Cnf};
use net_core::{Circuit, Net};
use progress::Tell;
use sat_solve::{Solved, Solver};
use sat_sweep::{Swept, sweep};
use std::alloc::{AllocError, Global};

/// A sweep may add so many clauses for each variable of the miter before they count against the budget. Mostly it
/// adds two or three.
const FOR_EACH_VARIABLE: u32 = 100;

/// A counterexample: under the values `at` of the sources the values of the sink `sink`, counted from 1, differ.
#[derive(Drop)]
struct Counterexample {
    sink: u32,
    at: Assign,
}

/// The counterexample in an assignment that satisfies the miter of two nets.
fn counterexample_of(
    alloc: Global,
    first: &Net,
    second: &Net,
    assign: &Assign,
) -> Result<Counterexample, AllocError>
    requires comparable { AreComparable first.now second.now }
    requires small { IsSmall first.now }
    requires long { length assign.now ≡ variables first.now second.now }
    requires solution { Satisfies (bits_of assign.now) (miter_of first.now second.now) }
    ensures { IfOk result (λ d. IsCounterexample first.now second.now d.sink d.at) }
{
    let (front, _) = assign.bits().split_at(first.sources() as usize);
    let Some(node) = first_difference(alloc, first, second, front)? else {
        unreachable!()
    };
    let mut at = Vec::new(alloc);
    at.extend_from_slice(front)?;
    Ok(Counterexample {
        sink: node as u32 + 1,
        at: Assign::new(at),
    })
}

/// Simulates the values `at` of the sources. Returns the counterexample that they are, if they are one.
fn simulated(
    alloc: Global,
    first: &Net,
    second: &Net,
    at: Vec<bool>,
) -> Result<Option<Counterexample>, AllocError>
    requires comparable { AreComparable first.now second.now }
    requires small { IsSmall first.now }
    ensures { IfOk result (λ simulated. IfSome simulated (λ d. IsCounterexample first.now second.now d.sink d.at)) }
{
    if at.len() != first.sources() as usize {
        return Ok(None);
    }
    let Some(node) = first_difference(alloc, first, second, &at)? else {
        return Ok(None);
    };
    Ok(Some(Counterexample {
        sink: node as u32 + 1,
        at: Assign::new(at),
    }))
}

/// Sweeps two nets with `solver`, a solver of their miter, until its log has `most` additions. Returns a
/// counterexample, or else the number of conflicts of the budget that were spent. The solver stays a solver of its
/// formula.
fn swept<S: Solver, T: Tell>(
    alloc: Global,
    first: &Net,
    second: &Net,
    solver: &mut S,
    budget: u32,
    most: u32,
    tell: &T,
) -> Result<(Option<Counterexample>, u32), AllocError>
    requires comparable { AreComparable first.now second.now }
    requires small { IsSmall first.now }
    requires vars { S.vars_of solver.old ≡ variables first.now second.now }
    requires room { S.vars_of solver.old < 2 ^ 31 }
    ensures stays { (f : Formula) (least : ℕ) → S.IsSolverOf f least solver.old →
        OnOk result (S.IsSolverOf f least solver.new) }
    ensures few { OnOk result (S.additions_of solver.new ≤
        max (S.additions_of solver.old) (most_after most (S.vars_of solver.old))) }
    ensures differ { IfOk result (λ r. IfSome r.0 (λ d. IsCounterexample first.now second.now d.sink d.at)) }
{
    match sweep(alloc, first, second, solver, budget, most, tell)? {
        Swept::Differ(at) => {
            let difference = simulated(alloc, first, second, at)?;
            Ok((difference, 0))
        }
        Swept::Swept { spent } => Ok((None, spent)),
    }
}

/// The share of a budget that a sweep may spend: half of it, so that the search after it has the other half.
fn share_of(budget: u32) -> u32
    ensures { 2 * result ≤ budget }
{
    budget / 2
}

/// How many additions of a sweep don't count against the budget.
fn free_additions(vars: u32) -> u32
    ensures { result ≤ 100 * vars }
{
    vars.saturating_mul(FOR_EACH_VARIABLE)
}

/// What a sweep leaves of a budget, of which its share was `share`. It takes the conflicts that it spent, or the log's
/// `added` additions without `free` ones, whichever are more, and at most its share.
fn left_of(budget: u32, share: u32, spent: u32, added: u32, free: u32) -> u32
    requires some { 1 ≤ budget }
    requires half { 2 * share ≤ budget }
    ensures some { 1 ≤ result }
    ensures half { budget ≤ 2 * result }
    ensures most { result ≤ budget }
    ensures few { added + result ≤ max (budget + free) (added + budget - share) }
{
    let counted = added.saturating_sub(free);
    budget - spent.max(counted).min(share)
}

/// The answer of `solver`, a solver of the miter of two nets, in whose search `left` conflicts are left.
#[tactic(auto, using(crate::specs::SinkLaws::miter_variables))]
fn finished<S: Solver>(
    alloc: Global,
    first: &Net,
    second: &Net,
    solver: S,
    budget: u32,
    left: u32,
) -> Result<EquivResult, AllocError>
    requires comparable { AreComparable first.now second.now }
    requires small { IsSmall first.now }
    requires solver { S.IsSolverOf (miter_of first.now second.now) budget solver }
    requires budget { (1 ≤ budget) × (budget ≤ most_conflicts) }
    requires left { (1 ≤ left) × (left ≤ budget) }
    requires few { S.additions_of solver + left ≤ budget + 101 * variables first.now second.now + 2 }
    ensures equal { IfOk result (λ e. IfEqual e (Refutes (miter_of first.now second.now))) }
    ensures differ { IfOk result (λ e. IfDiffer e (IsCounterexample first.now second.now)) }
    ensures undecided { IfOk result (λ e. IfUndecided e (λ lines.
        ReachesBudget (miter_of first.now second.now) lines budget)) }
    ensures kept { IfOk result (λ e. IfUndecided e (KeepsHalf (miter_of first.now second.now))) }
    ensures live_bounded { IfOk result (λ e. IfLogged e (BoundsLiveAdditions (miter_of first.now second.now))) }
    ensures within_budget { IfOk result (λ e. IfLogged e (IsWithinBudget budget (miter_of first.now second.now))) }
    ensures decides { 2 * 3 ^ variables first.now second.now ≤ budget → IfOk result IsDecided }
{
    match solver.finish(alloc, left)? {
        Solved::Unsat(log) => Ok(EquivResult::Equal(log)),
        Solved::Open(log) => Ok(EquivResult::Undecided(log)),
        Solved::Sat(assign) => {
            let Counterexample { sink, at } = counterexample_of(alloc, first, second, &assign)?;
            Ok(EquivResult::Differ { sink, at })
        }
    }
}

/// The answer of the solver `S` on the miter `cnf` of two nets, after a sweep.
#[tactic(auto, using(crate::specs::SinkLaws::miter_variables))]
pub(crate) fn compare<S: Solver, T: Tell>(
    alloc: Global,
    first: &Net,
    second: &Net,
    cnf: &Cnf,
    budget: u32,
    tell: &T,
) -> Result<EquivResult, AllocError>
    requires comparable { AreComparable first.now second.now }
    requires small { IsSmall first.now }
    requires miter { cnf.now ≡ miter_of first.now second.now }
    requires budget { (1 ≤ budget) × (budget ≤ most_conflicts) }
    ensures equal { IfOk result (λ e. IfEqual e (Refutes (miter_of first.now second.now))) }
    ensures differ { IfOk result (λ e. IfDiffer e (IsCounterexample first.now second.now)) }
    ensures undecided { IfOk result (λ e. IfUndecided e (λ lines.
        ReachesBudget (miter_of first.now second.now) lines budget)) }
    ensures kept { IfOk result (λ e. IfUndecided e (KeepsHalf (miter_of first.now second.now))) }
    ensures live_bounded { IfOk result (λ e. IfLogged e (BoundsLiveAdditions (miter_of first.now second.now))) }
    ensures within_budget { IfOk result (λ e. IfLogged e (IsWithinBudget budget (miter_of first.now second.now))) }
    ensures decides { 2 * 3 ^ variables first.now second.now ≤ budget → IfOk result IsDecided }
{
    let vars = cnf.vars();
    let free = free_additions(vars);
    let mut solver = S::new(alloc, cnf, budget)?;
    let share = share_of(budget);
    let most = share.saturating_add(free);
    let (difference, spent) = swept(alloc, first, second, &mut solver, share, most, tell)?;
    if let Some(Counterexample { sink, at }) = difference {
        return Ok(EquivResult::Differ { sink, at });
    }
    let left = left_of(budget, share, spent, solver.additions(), free);
    finished(alloc, first, second, solver, budget, left)
}

/// Decides with the solver `S` whether two proper circuits of one interface, each with fewer than 300,000,000
/// sources and sinks (combinational inputs and outputs), are equivalent, unless that takes more than a `budget` of
/// 1 to 10,000,000 conflicts. In the sweep each pair of signals or sink that is given up counts with its conflict
/// limit, or the learnt clauses count past 100 for each variable of the miter, whichever are more, up to half of the
/// budget; in the search after it each learnt clause counts.
///
/// They are equal only with a log that refutes their miter, which anybody can check. They differ only with an
/// input that shows it, at the first sink that differs. They are undecided only with a log that has spent the
/// budget. Circuits of different interfaces aren't compared; no others are refused, but if memory runs out. `tell`
/// hears of each gate that the sweep compares.
#[tactic(auto, using(equiv_theory::specs::CircuitLaws::comparable))]
pub fn equiv<S: Solver, T: Tell>(
    alloc: Global,
    first: &Circuit,
    second: &Circuit,
    budget: u32,
    tell: &T,
) -> Result<EquivResult, EquivError>
    requires first { IsProper first.now }
    requires second { IsProper second.now }
    requires small { IsSmall first.now.net }
    requires other { IsSmall second.now.net }
    requires budget { (1 ≤ budget) × (budget ≤ most_conflicts) }
    ensures equal { IfOk result (λ e. IfEqual e (Refutes (miter_of first.now.net second.now.net))) }
    ensures equivalent { IfOk result (λ e. IfEqual e (λ _. AreEquivalentCircuits first.now second.now)) }
    ensures differ { IfOk result (λ e. IfDiffer e (IsCounterexample first.now.net second.now.net)) }
    ensures undecided { IfOk result (λ e. IfUndecided e (λ lines.
        ReachesBudget (miter_of first.now.net second.now.net) lines budget)) }
    ensures kept { IfOk result (λ e. IfUndecided e (KeepsHalf (miter_of first.now.net second.now.net))) }
    // At the end of either log at most three quarters of its additions, plus 2,000, plus the number of the miter's
    // variables, are live; and it deletes no clause of the miter.
    ensures live_bounded { IfOk result (λ e. IfLogged e (BoundsLiveAdditions (miter_of first.now.net second.now.net))) }
    // The budget bounds either log.
    ensures within_budget { IfOk result (λ e.
        IfLogged e (IsWithinBudget budget (miter_of first.now.net second.now.net))) }
    ensures decides { 2 * 3 ^ variables first.now.net second.now.net ≤ budget → IfOk result IsDecided }
    ensures interface { IfOk result (λ _. HaveSameInterface first.now second.now) }
    ensures refused { IfErr result (λ e. e ≡ DifferentInterface → HaveSameInterface first.now second.now → ⊥) }
    ensures other { (HaveSameInterface first.now second.now → ⊥) → result ≡ Err DifferentInterface }
{
    if !same_interface(first, second) {
        return Err(EquivError::DifferentInterface);
    }
    let cnf = miter(alloc, first, second)?;
    Ok(compare::<S, T>(alloc, &first.net, &second.net, &cnf, budget, tell)?)
}
