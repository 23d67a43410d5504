//! Guesses which literals are redundant, implied by the clause's others (MiniSat's `litRedundant`): the recursion
//! promises only to stay in bounds. Each literal found is then resolved away by a step of the analysis, which is sound
//! whatever was guessed.
ghost use Rattle.std.specs.Prelude.{◌≡◌, ℤ, ◌+◌, ◌<◌, ◌≤◌, true, length, All, IfOk, IfSome};
ghost use Rattle.sat_theory.specs.Formula.{variable as variable_of, IsWithin};
ghost use Rattle.cdcl_theory.specs.Codes.{marked_in};
ghost use Rattle.cdcl_theory.specs.Trails.{IsExplained, falsified_at as falsified_in};
ghost use Rattle.clause_db.specs.Stored.{live_in};
ghost use Rattle.conflict_core.specs.Markings.{HasRoom};

use crate::marks::LitSet;
use clause_db::ClauseDb;
use cnf_core::Lit;
use std::alloc::{AllocError, Global};
use trail_core::Trail;

/// The greatest depth of the recursion over reasons, which bounds the call stack.
const DEPTH: u32 = 1000;

/// What is known of a false literal.
#[derive(Clone, Copy)]
enum Removability {
    Unknown,
    /// redundant: the literals of the clause imply it
    Removable,
    /// it isn't, or the recursion reached its greatest depth
    Failed,
}

/// The redundant literals of a clause, which may be resolved away, found by a search over reasons. Only the
/// length of the clause depends on the result.
#[derive(Drop)]
pub(crate) struct Redundancy {
    /// by variable
    verdicts: Vec<Removability>,
    /// the literals that have a verdict
    judged: Vec<Lit>,
    /// the redundant ones, each after all that imply it
    redundant: Vec<Lit>,
    ghost judged_inside: { All (λ l. variable_of l < length verdicts.items) judged.items },
    ghost redundant_inside: { All (λ l. variable_of l < length verdicts.items) redundant.items },
}

impl Redundancy {
    /// Room for the variables 1 to `vars`.
    pub(crate) fn new(alloc: Global, vars: u32) -> Result<Redundancy, AllocError>
        ensures { IfOk result (λ r. length r.verdicts.items ≡ vars + 1) }
    {
        Ok(Redundancy {
            verdicts: vec![in alloc; Removability::Unknown; vars as usize + 1]?,
            judged: Vec::new(alloc),
            redundant: Vec::new(alloc),
        })
    }

    fn clear(&mut self)
        ensures { length self.new.verdicts.items ≡ length self.old.verdicts.items }
    {
        while let Some(lit) = self.judged.pop() {
            self.verdicts[lit.variable() as usize] = Removability::Unknown;
        }
        self.redundant.clear();
    }

    fn note(&mut self, lit: Lit, verdict: Removability) -> Result<(), AllocError>
        requires { variable_of lit < length self.old.verdicts.items }
        ensures { length self.new.verdicts.items ≡ length self.old.verdicts.items }
    {
        self.judged.push(lit)?;
        self.verdicts[lit.variable() as usize] = verdict;
        Ok(())
    }

    /// Decides whether the marked literals imply a false literal without a verdict, by a recursion over
    /// reasons of at most `depth` steps.
    fn judge(
        &mut self,
        trail: &Trail,
        clauses: &ClauseDb,
        marks: &LitSet,
        lit: Lit,
        depth: u32,
    ) -> Result<bool, AllocError>
        requires vars { clauses.now.vars ≡ trail.now.vars }
        requires explained { IsExplained (live_in clauses.now) trail.now }
        requires marks { HasRoom trail.now.vars marks.now }
        requires over { variable_of lit ≤ trail.now.vars }
        requires falsified { 0 < falsified_in trail.now lit }
        requires room { length self.old.verdicts.items ≡ trail.now.vars + 1 }
        ensures { length self.new.verdicts.items ≡ length self.old.verdicts.items }
    {
        let implied = lit.opposite();
        let id = trail.reason(implied);
        if depth == 0 || id == 0 {
            self.note(lit, Removability::Failed)?;
            return Ok(false);
        }
        for other in clauses.arranged(id) {
            if *other == implied {
                continue;
            }
            let follows = match self.verdicts[other.variable() as usize] {
                Removability::Removable => true,
                Removability::Failed => false,
                Removability::Unknown => self.judge(trail, clauses, marks, *other, depth - 1)?,
            };
            if !follows && !marks.has(*other) {
                self.note(lit, Removability::Failed)?;
                return Ok(false);
            }
        }
        self.note(lit, Removability::Removable)?;
        self.redundant.push(lit)?;
        Ok(true)
    }

    /// Finds the redundant ones among the marked literals of a list that were falsified before trail index
    /// `start`.
    pub(crate) fn find(
        &mut self,
        trail: &Trail,
        clauses: &ClauseDb,
        marks: &LitSet,
        lits: &[Lit],
        start: usize,
    ) -> Result<(), AllocError>
        requires vars { clauses.now.vars ≡ trail.now.vars }
        requires explained { IsExplained (live_in clauses.now) trail.now }
        requires marks { HasRoom trail.now.vars marks.now }
        requires falsified { (l : ℤ) → marked_in marks.now l ≡ true → 0 < falsified_in trail.now l }
        requires within { IsWithin trail.now.vars lits.now }
        requires room { length self.old.verdicts.items ≡ trail.now.vars + 1 }
        ensures { length self.new.verdicts.items ≡ length self.old.verdicts.items }
    {
        self.clear();
        for lit in lits {
            if !marks.has(*lit) || trail.falsified_at(*lit) as usize > start {
                continue;
            }
            if let Removability::Unknown = self.verdicts[lit.variable() as usize] {
                self.judge(trail, clauses, marks, *lit, DEPTH)?;
            }
        }
        Ok(())
    }

    /// Removes and returns the last of the redundant literals.
    pub(crate) fn pop(&mut self) -> Option<Lit>
        ensures inside { IfSome result (λ l. variable_of l < length self.new.verdicts.items) }
        ensures fewer { IfSome result (λ _. length self.new.redundant.items < length self.old.redundant.items) }
        ensures room { length self.new.verdicts.items ≡ length self.old.verdicts.items }
    {
        self.redundant.pop()
    }
}
