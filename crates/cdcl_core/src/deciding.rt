//! Decisions: which variable a search decides, and with which phase. It is a variable without a value with
//! the greatest score; a conflict bumps its variables, and late conflicts count more (VSIDS: Moskewicz and
//! others, "Chaff", 2001; Eén and Sörensson, "An extensible SAT-solver", 2003). It gets the value that it had
//! last (phase saving: Pipatsrisawat and Darwiche, "A lightweight component caching scheme for satisfiability
//! solvers", 2007). The variables in the reasons of the learnt clause's other literals are bumped by half of
//! the increment, once for each reason (after the reason side rate of Liang, Ganesh, Poupart and Czarnecki,
//! "Learning rate based branching heuristic for SAT solvers", 2016).
//!
//! Backtracking puts the variables that lose their values back into the heap, and only decisions take any
//! out. So if the heap is empty, all variables have values.
ghost use Rattle.std.specs.Prelude.{◌≡◌, ℕ, ℤ, ◌+◌, ◌-◌, ◌<◌, ◌≤◌, length, All, IfOk, IfSome, IfNone};
ghost use Rattle.sat_theory.specs.Formula.{variable as variable_of, IsWithin};
ghost use Rattle.cdcl_theory.specs.Trails.{TrailState, IsTrail, IsExplained, IsBacktracked, pushed};
ghost use Rattle.cdcl_theory.specs.Trails.{falsified_at as falsified_in};
ghost use Rattle.clause_db.specs.Stored.{live_in};
ghost use Rattle.trail_core.specs.Values.{IsOver, IsFree, HaveValues};
ghost use Rattle.var_heap.specs.Held.{score_of};

use clause_db::ClauseDb;
use cnf_core::Lit;
use std::alloc::{AllocError, Global};
use trail_core::Trail;
use var_heap::VarHeap;

/// What the first conflict adds to the scores of its variables (the increment).
const FIRST_INCREMENT: u64 = 1 << 40;

/// The increment above which all scores and the increment are divided (rescaling).
const GREATEST_INCREMENT: u64 = 1 << 56;

/// The exponent of 2 of a rescaling for few variables: little is lost by rounding.
const SMALL_SCALE: u32 = 1;

/// The exponent for many variables. A rescaling goes over all of them while short calls under assumptions
/// touch few, so it has to be rare: once in some hundreds of conflicts.
const GREAT_SCALE: u32 = 32;

/// The number of variables from which on they count as many.
const MANY_VARS: usize = 1 << 13;

/// After each conflict the increment grows by itself divided by this (the decay of older bumps).
const INCREMENT_DIVISOR: u64 = 16;

/// The variables of a reason are bumped by the increment divided by this.
const REASON_DIVISOR: u64 = 2;

/// The decision variables, with their scores and saved phases.
#[derive(Drop)]
pub(crate) struct DecisionHeap {
    pub(crate) heap: VarHeap,
    /// by variable, the saved phase: whether it was true when it last had a value
    pub(crate) phases: Vec<bool>,
    /// what a conflict adds to the scores of its variables (the activity increment)
    pub(crate) increment: u64,
}

impl DecisionHeap {
    ghost use Rattle.cdcl_core.specs.Deciding.{IsDecisionHeap};

    /// All variables with the score 0; the first phase of each is true.
    pub(crate) fn new(alloc: Global, vars: u32) -> Result<DecisionHeap, AllocError>
        ensures { IfOk result (λ c. (t : TrailState) → t.vars ≡ vars → IsDecisionHeap t c) }
    {
        Ok(DecisionHeap {
            heap: VarHeap::new(alloc, vars)?,
            phases: vec![in alloc; true; vars as usize + 1]?,
            increment: FIRST_INCREMENT,
        })
    }

    /// Takes out a variable without a value of greatest score, and returns the literal to decide.
    pub(crate) fn pick_decision(&mut self, trail: &Trail) -> Option<Lit>
        requires whole { IsTrail trail.now }
        requires deciding { IsDecisionHeap trail.now self.old }
        ensures over { IfSome result (IsOver trail.now.vars) }
        ensures free { IfSome result (IsFree trail.now) }
        ensures deciding { IfSome result (λ l. (reason : ℕ) → IsDecisionHeap (pushed trail.now l reason) self.new) }
        ensures greatest { IfSome result (λ l. (m : ℤ) → IsOver trail.now.vars m → IsFree trail.now m →
            score_of self.old.heap (variable_of m) ≤ score_of self.old.heap (variable_of l)) }
        ensures none { IfNone result (HaveValues trail.now (1 + trail.now.vars)) }
    {
        while let Some(variable) = self.heap.pop() {
            let lit = Lit::of(variable, self.phases[variable as usize]);
            if trail.is_free(lit) {
                return Some(lit);
            }
        }
        None
    }

    /// Backtracks to the first `len` literals of the trail: each variable that loses its value goes back into
    /// the heap, and its phase is saved.
    pub(crate) fn backtrack(&mut self, trail: &mut Trail, len: usize)
        requires whole { IsTrail trail.old }
        requires deciding { IsDecisionHeap trail.old self.old }
        requires low { len ≤ length trail.old.lits }
        ensures back { IsBacktracked len trail.old trail.new }
        ensures whole { IsTrail trail.new }
        ensures deciding { IsDecisionHeap trail.new self.new }
    {
        for _taken in len..trail.len() {
            self.unassign_last(trail);
        }
    }

    /// Unassigns the last literal of the trail in this way.
    fn unassign_last(&mut self, trail: &mut Trail)
        requires whole { IsTrail trail.old }
        requires deciding { IsDecisionHeap trail.old self.old }
        requires some { 0 < length trail.old.lits }
        ensures back { IsBacktracked (length trail.old.lits - 1) trail.old trail.new }
        ensures whole { IsTrail trail.new }
        ensures deciding { IsDecisionHeap trail.new self.new }
    {
        let lit = trail.at(trail.len() - 1);
        self.phases[lit.variable() as usize] = lit.is_positive();
        self.heap.push(lit.variable());
        trail.pop();
    }

    /// Adds `score` to the scores of the variables of `lits`.
    fn add(&mut self, lits: &[Lit], score: u64)
        requires { IsWithin self.old.heap.vars lits.now }
        ensures { (t : TrailState) → IsDecisionHeap t self.old → IsDecisionHeap t self.new }
    {
        for lit in lits {
            self.heap.bump(lit.variable(), score);
        }
    }

    /// Bumps the variables of `lits`: adds the increment to their scores.
    pub(crate) fn bump(&mut self, lits: &[Lit])
        requires { IsWithin self.old.heap.vars lits.now }
        ensures { (t : TrailState) → IsDecisionHeap t self.old → IsDecisionHeap t self.new }
    {
        let increment = self.increment;
        self.add(lits, increment);
    }

    /// Bumps the variables in the reasons of false literals by a part of the increment.
    pub(crate) fn bump_reasons(&mut self, trail: &Trail, clauses: &ClauseDb, lits: &[Lit])
        requires vars { clauses.now.vars ≡ trail.now.vars }
        requires explained { IsExplained (live_in clauses.now) trail.now }
        requires within { IsWithin trail.now.vars lits.now }
        requires falsified { All (λ l. 0 < falsified_in trail.now l) lits.now }
        requires deciding { IsDecisionHeap trail.now self.old }
        ensures { (t : TrailState) → IsDecisionHeap t self.old → IsDecisionHeap t self.new }
    {
        let part = self.increment / REASON_DIVISOR;
        for lit in lits {
            let id = trail.reason(lit.opposite());
            if id == 0 {
                continue;
            }
            self.add(clauses.arranged(id), part);
        }
    }

    /// Increases the increment, so that the next conflict counts more than those before, with rescaling.
    pub(crate) fn grow(&mut self)
        ensures { (t : TrailState) → IsDecisionHeap t self.old → IsDecisionHeap t self.new }
    {
        self.increment = self
            .increment
            .saturating_add(self.increment / INCREMENT_DIVISOR);
        if self.increment <= GREATEST_INCREMENT {
            return;
        }
        let power = if self.phases.len() > MANY_VARS {
            GREAT_SCALE
        } else {
            SMALL_SCALE
        };
        self.increment >>= power;
        self.heap.divide(power);
    }
}
