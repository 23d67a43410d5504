//! The decision variables of a call under assumptions. The variables of the assumptions are decision
//! variables. Justification: once a decision variable has a value, the fanins of its gate become decision variables
//! too (the J-frontier moves to them), unless the value is one of level 0. Of those without a value, one of greatest
//! rank is decided first: the last gate in topological order, if each gate ranks above its fanins. Everything
//! else is left to propagation. A variable is called open while it is a decision variable of the current
//! call.
//!
//! A call has a work limit: the trail literals that `scan` reads and the hints of learnt clauses are counted, since a
//! few conflicts far from the assumptions may cost as much as many.
//!
//! The contracts promise only that a decision has no value: which variable is decided has no effect on
//! soundness.
ghost use Rattle.std.specs.Prelude.{◌≡◌, ◌+◌, length, IfOk, IfSome};
ghost use Rattle.sat_theory.specs.Formula.{IsWithin};
ghost use Rattle.trail_core.specs.Values.{IsOver, IsFree};

use cnf_core::Lit;
use sat_solve::Cones;
use std::alloc::{AllocError, Global};
use trail_core::Trail;
use var_heap::VarHeap;

/// The work that a call may do for each conflict of its limit, in trail literals read.
const WORK: u64 = 200;

/// The work counted for a hint of a learnt clause; a trail literal read counts 1.
const HINT_WORK: u64 = 4;

/// The decision variables of the current call under assumptions.
#[derive(Drop)]
pub(crate) struct Scope {
    /// the decision variables, except those that had a value when they were taken out
    pub(crate) heap: VarHeap,
    /// by variable, the number of the last call that had it as a decision variable; 0: none
    pub(crate) opened: Vec<u32>,
    /// the number of the current call
    pub(crate) call: u32,
    /// the trail index up to which the fanins of decision variables were added
    pub(crate) scanned: usize,
    /// the number of literals of level 0 when the current call began
    pub(crate) fixed: usize,
    /// the work list of `open`: variables still to be added
    pub(crate) left: Vec<u32>,
    /// the number of trail literals that `scan` has read in the current call
    pub(crate) seen: u64,
    /// the number of hints of all clauses learnt before the call
    pub(crate) hints: u64,
    /// the work limit of the call
    pub(crate) most: u64,
    ghost sized: { length opened.items ≡ heap.vars + 1 },
}

impl Scope {
    /// No decision variable.
    fn new(alloc: Global, vars: u32) -> Result<Scope, AllocError> {
        Ok(Scope {
            heap: VarHeap::new(alloc, vars)?,
            opened: vec![in alloc; 0u32; vars as usize + 1]?,
            call: 0,
            scanned: 0,
            fixed: 0,
            left: Vec::new(alloc),
            seen: 0,
            hints: 0,
            most: 0,
        })
    }

    /// Removes all decision variables.
    fn clear(&mut self) {
        for _turn in 0..self.opened.len() {
            if self.heap.pop().is_none() {
                return;
            }
        }
    }

    /// Begins a call, with the variables of its assumptions as decision variables.
    fn begin(
        &mut self,
        trail: &Trail,
        assumptions: &[Lit],
        cones: &Cones,
    ) -> Result<(), AllocError> {
        self.clear();
        self.call = self.call.wrapping_add(1);
        self.scanned = trail.len();
        self.fixed = trail.len();
        for assumption in assumptions {
            self.begin_at(trail, assumption.variable(), cones)?;
        }
        Ok(())
    }

    /// Makes the variable of an assumption a decision variable, and if it has a value its fanins too, even if
    /// the value is one of level 0.
    fn begin_at(&mut self, trail: &Trail, variable: u32, cones: &Cones) -> Result<(), AllocError> {
        self.open(trail, variable, cones)?;
        if position_of(trail, variable) > 0 {
            self.open(trail, entry(cones.first, variable), cones)?;
            self.open(trail, entry(cones.second, variable), cones)?;
        }
        Ok(())
    }

    /// Sets the work limit for a limit of conflicts; `hints` is the number of hints of all clauses learnt so
    /// far.
    fn allow(&mut self, hints: u64, limit: u32) {
        self.seen = 0;
        self.hints = hints;
        self.most = u64::from(limit) * WORK;
    }

    /// Whether the work limit is reached, given the number of hints so far.
    fn is_spent(&self, hints: u64) -> bool {
        let derived = hints.saturating_sub(self.hints);
        self.seen / HINT_WORK >= (self.most / HINT_WORK).saturating_sub(derived)
    }

    /// Makes a variable a decision variable, and transitively the fanins of those that have a value. Values
    /// of level 0 need no justification by fanins.
    fn open(&mut self, trail: &Trail, variable: u32, cones: &Cones) -> Result<(), AllocError> {
        self.left.push(variable)?;
        for _turn in 0..u64::MAX {
            let Some(next) = self.left.pop() else {
                return Ok(());
            };
            if !self.mark(next, cones) {
                continue;
            }
            let position = position_of(trail, next);
            if position == 0 {
                self.hold(next);
                continue;
            }
            if position as usize <= self.fixed {
                continue;
            }
            self.left.push(entry(cones.first, next))?;
            self.left.push(entry(cones.second, next))?;
        }
        Ok(())
    }

    /// Marks a variable as a decision variable, and returns whether it wasn't one. It gets its rank the first
    /// time.
    fn mark(&mut self, variable: u32, cones: &Cones) -> bool {
        let before = entry(&self.opened, variable);
        if variable == 0 || variable as usize >= self.opened.len() || before == self.call {
            return false;
        }
        if before == 0 {
            let rank = entry(cones.rank, variable);
            self.heap.bump(variable, u64::from(rank));
        }
        self.opened[variable as usize] = self.call;
        true
    }

    /// Puts a decision variable into the heap.
    fn hold(&mut self, variable: u32) {
        if variable > 0 && (variable as usize) < self.opened.len() {
            self.heap.push(variable);
        }
    }

    /// Adds the fanins of the decision variables that got values since the last scan of the trail.
    fn scan(&mut self, trail: &Trail, cones: &Cones) -> Result<(), AllocError> {
        let fresh = trail.len().saturating_sub(self.scanned);
        self.seen = self.seen.saturating_add(fresh as u64);
        for index in self.scanned..trail.len() {
            let variable = trail.at(index).variable();
            if entry(&self.opened, variable) != self.call {
                continue;
            }
            self.open(trail, entry(cones.first, variable), cones)?;
            self.open(trail, entry(cones.second, variable), cones)?;
        }
        self.scanned = trail.len();
        Ok(())
    }

    /// Takes out a decision variable without a value, of greatest rank, and returns its literal with the
    /// saved phase.
    fn pick_decision(&mut self, trail: &Trail, phases: &[bool]) -> Option<Lit>
        ensures over { IfSome result (IsOver trail.now.vars) }
        ensures free { IfSome result (IsFree trail.now) }
    {
        for _turn in 0..self.opened.len() {
            let variable = self.heap.pop()?;
            if variable > trail.vars() {
                continue;
            }
            let lit = Lit::of(variable, phase(phases, variable));
            if trail.is_free(lit) {
                return Some(lit);
            }
        }
        None
    }

    /// Puts the decision variables on the trail from index `from` on back into the heap, before backtracking
    /// to there.
    fn release(&mut self, trail: &Trail, from: usize) {
        self.scanned = self.scanned.min(from);
        for index in from..trail.len() {
            let variable = trail.at(index).variable();
            if entry(&self.opened, variable) == self.call {
                self.hold(variable);
            }
        }
    }
}

/// The entry of a variable; 0 beyond the end of the table.
fn entry(row: &[u32], variable: u32) -> u32 {
    match row.get(variable as usize) {
        Some(number) => *number,
        None => 0,
    }
}

/// The saved phase of a variable; true beyond the end of the table.
fn phase(phases: &[bool], variable: u32) -> bool {
    match phases.get(variable as usize) {
        Some(positive) => *positive,
        None => true,
    }
}

/// The position of a variable: 1 + the trail index of its literal; 0 if it has no value, or the trail lacks
/// it.
fn position_of(trail: &Trail, variable: u32) -> u32 {
    if variable == 0 || variable > trail.vars() {
        return 0;
    }
    let positive = trail.falsified_at(Lit::of(variable, true));
    positive.max(trail.falsified_at(Lit::of(variable, false)))
}

/// Begins a call, with the variables of its assumptions as decision variables.
pub(crate) fn open_assumptions(
    scope: &mut Option<Scope>,
    alloc: Global,
    trail: &Trail,
    assumptions: &[Lit],
    cones: &Cones,
) -> Result<(), AllocError> {
    if scope.is_none() {
        *scope = Some(Scope::new(alloc, trail.vars())?);
    }
    match scope {
        Some(scope) => scope.begin(trail, assumptions, cones),
        None => Ok(()),
    }
}

/// Sets the work limit of the call, if one is running, for a limit of conflicts; `hints` is the number of
/// hints so far.
pub(crate) fn limit_work(scope: &mut Option<Scope>, hints: u64, limit: u32) {
    if let Some(scope) = scope {
        scope.allow(hints, limit);
    }
}

/// Whether the work limit of the call is reached, if one is running, given the number of hints so far.
pub(crate) fn is_over_work(scope: &Option<Scope>, hints: u64) -> bool {
    match scope {
        Some(scope) => scope.is_spent(hints),
        None => false,
    }
}

/// The first assumption without a value.
fn free_assumption(trail: &Trail, assumptions: &[Lit]) -> Option<Lit>
    requires within { IsWithin trail.now.vars assumptions.now }
    ensures over { IfSome result (IsOver trail.now.vars) }
    ensures free { IfSome result (IsFree trail.now) }
{
    for assumption in assumptions {
        // for the prover: no variable is 0
        let _variable = assumption.variable();
        if trail.is_free(*assumption) {
            return Some(*assumption);
        }
    }
    None
}

/// The next decision under assumptions: an assumption, or a decision variable; None if all have values.
pub(crate) fn next_assuming(
    scope: &mut Option<Scope>,
    trail: &Trail,
    phases: &[bool],
    assumptions: &[Lit],
    cones: &Cones,
) -> Result<Option<Lit>, AllocError>
    requires within { IsWithin trail.now.vars assumptions.now }
    ensures over { IfOk result (λ next. IfSome next (IsOver trail.now.vars)) }
    ensures free { IfOk result (λ next. IfSome next (IsFree trail.now)) }
{
    if let Some(assumption) = free_assumption(trail, assumptions) {
        return Ok(Some(assumption));
    }
    let Some(scope) = scope else {
        return Ok(None);
    };
    scope.scan(trail, cones)?;
    Ok(scope.pick_decision(trail, phases))
}

/// Puts decision variables back into the heap before backtracking, if a call is running.
pub(crate) fn release_decisions(scope: &mut Option<Scope>, trail: &Trail, from: usize) {
    if let Some(scope) = scope {
        scope.release(trail, from);
    }
}
