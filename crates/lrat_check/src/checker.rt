//! The checker: the state after the lines so far, whether the empty clause was reached, and scratch marks. A
//! line is checked first and applied only if it holds, so a refusal changes nothing.
ghost use Rattle.std.specs.Prelude.{◌≡◌, ◌↔◌, ◌||◌, ◌++◌, ◌∷◌, [], List, IsTrue, IfOk, OnOk, OnErr, IsOkUnless};
ghost use Rattle.sat_theory.specs.Formula.{Formula, IsClause};
ghost use Rattle.sat_theory.specs.Line as theory;
ghost use Rattle.sat_theory.specs.Line.{IsLine, HasClause};
ghost use Rattle.sat_theory.specs.State.{start, next, without};
ghost use Rattle.sat_theory.specs.Holding.{Holds};
ghost use Rattle.sat_theory.specs.Log.{HasEmpty, IsUnsubsumed};
ghost use Rattle.lrat_text.specs.Values.{line_value};
ghost use Rattle.lrat_check.specs.Live.{live_at, AreClauses};
ghost use Rattle.lrat_check.specs.Checked.{state_of, is_empty, adds_empty, HasAccepted};
ghost use Rattle.lrat_check.specs.Judging.{addition_fault, no_ids, deletion_fault, line_fault};
ghost use Rattle.lrat_check.specs.Seen.{Judges};

use crate::CheckError;
use crate::clauses::Clauses;
use crate::index::OccurrenceIndex;
use crate::judging::{judge_addition, judge_deletion};
use crate::marks::LiteralMarks;
use cnf_core::{Clause, Cnf, Lit};
use lrat_text::Line;
use std::alloc::{AllocError, Global};
use std::marker::Model;

/// A checker of refutation logs of one formula. Contracts see the live clauses with their ids, the number of the
/// formula's variables, the greatest id so far, and whether the empty clause was reached.
#[derive(Drop)]
pub struct Checker {
    clauses: Clauses,
    marks: LiteralMarks,
    vars: u32,
    greatest: u32,
    refuted: bool,
}

impl Model for Checker {
    ghost use Rattle.lrat_check.specs.Checked.{Checked, checked_code};
    ghost use Rattle.lrat_check.specs.Keeps.{IsChecker};

    ghost Value = { Checked };

    ghost coded = { checked_code };

    ghost view = { λ c. record { live = c.clauses; vars = c.vars; greatest = c.greatest; refuted = c.refuted } };

    ghost invariant = { λ c. IsChecker c.vars c.clauses c.marks };
}

impl Checker {
    /// A checker of a formula, whose clauses are live with the ids 1, 2 and so on. It finds clauses by hashing
    /// their ids with a fixed seed.
    pub fn new(alloc: Global, cnf: Cnf) -> Result<Checker, AllocError>
        ensures state { IfOk result (λ c. state_of c ≡ start cnf) }
        ensures accepted { IfOk result (HasAccepted cnf []) }
    {
        Checker::over(alloc, cnf, OccurrenceIndex::new(alloc))
    }

    /// As `new`, with occurrence lists (clauses by their literals), so that `is_unsubsumed` is fast. They take memory
    /// for each literal; an addition takes one more step for each of its literals, and a deletion one for each
    /// clause in the lists of its clauses' literals.
    pub fn indexed(alloc: Global, cnf: Cnf) -> Result<Checker, AllocError>
        ensures state { IfOk result (λ c. state_of c ≡ start cnf) }
        ensures accepted { IfOk result (HasAccepted cnf []) }
    {
        let index = OccurrenceIndex::by_literals(alloc, cnf.vars())?;
        Checker::over(alloc, cnf, index)
    }

    fn over(alloc: Global, cnf: Cnf, index: OccurrenceIndex) -> Result<Checker, AllocError>
        ensures state { IfOk result (λ c. state_of c ≡ start cnf) }
        ensures accepted { IfOk result (HasAccepted cnf []) }
    {
        let vars = cnf.vars();
        let greatest = cnf.clauses().len() as u32;
        let refuted = cnf.has_empty();
        let clauses = Clauses::of(alloc, index, cnf.into_clauses())?;
        let marks = LiteralMarks::new(alloc, vars)?;
        Ok(Checker {
            clauses,
            marks,
            vars,
            greatest,
            refuted,
        })
    }

    /// Checks a line of the log, and applies it. The time is linear in the length of the line and of the clauses
    /// of its hints; hints take no memory. The precondition holds for each line that was read from a text.
    pub fn feed(&mut self, line: Line) -> Result<(), CheckError>
        requires { HasClause (line_value line) }
        // A line is accepted only if it holds.
        ensures holds { OnOk result (Holds (state_of self.old) (line_value line)) }
        ensures accepts { Holds (state_of self.old) (line_value line) → IsOkUnless result CheckError.Memory }
        ensures next { OnOk result (state_of self.new ≡ next (state_of self.old) (line_value line)) }
        ensures refuted { OnOk result (self.new.refuted ≡ (self.old.refuted || adds_empty (line_value line))) }

        // A refusal is the first fault, and changes nothing.
        ensures exact { Judges result (line_fault (state_of self.old) (line_value line)) }
        ensures unchanged { OnErr result (self.new ≡ self.old) }

        // For whole logs: the accepted lines and this one are a log that holds.
        ensures accepted { (f : Formula) (lines : List theory.Line) → HasAccepted f lines self.old →
            IsLine (line_value line) →
            OnOk result (HasAccepted f (lines ++ line_value line ∷ []) self.new) }
    {
        self.take(line)
    }

    /// Whether the empty clause is in the formula or was added: the formula is refuted.
    pub fn refuted(&self) -> bool
        ensures value { result ≡ self.now.refuted }
        ensures log { (f : Formula) (lines : List theory.Line) → HasAccepted f lines self.now →
            (IsTrue result ↔ HasEmpty f lines) }
    {
        self.refuted
    }

    /// Whether a clause is unsubsumed: no live clause has all its literals among `lits`. Without an index every
    /// live clause is compared. With an index only those in the lists of `lits` are: each clause is in one list,
    /// that of the literal whose list was shortest when it was added. The entry also has a second literal of the
    /// clause, and the clause is compared only if that literal is among `lits` too.
    pub fn is_unsubsumed(&self, lits: &[Lit]) -> bool
        ensures { IsTrue result ↔ IsUnsubsumed (live_at self.now.live) lits.now }
    {
        self.clauses.is_unsubsumed(lits)
    }

    fn take(&mut self, line: Line) -> Result<(), CheckError>
        requires { HasClause (line_value line) }
        ensures whole { AreClauses (live_at self.old.live) }
        ensures exact { Judges result (line_fault (state_of self.old) (line_value line)) }
        ensures next { OnOk result (state_of self.new ≡ next (state_of self.old) (line_value line)) }
        ensures refuted { OnOk result (self.new.refuted ≡ (self.old.refuted || adds_empty (line_value line))) }
        ensures unchanged { OnErr result (self.new ≡ self.old) }
    {
        let _clauses = &self.clauses; // for the prover: brings in their invariant
        match line {
            Line::Add { id, lits, hints } => self.add(id, lits, &hints),
            Line::Delete { ids, .. } => self.delete(&ids),
        }
    }

    fn add(&mut self, id: u32, lits: Vec<Lit>, hints: &[u32]) -> Result<(), CheckError>
        requires { IsClause lits.items }
        ensures exact { Judges result (addition_fault (state_of self.old) id lits.items hints.now) }
        ensures next { OnOk result (state_of self.new ≡
            next (state_of self.old) (theory.Add id lits.items hints.now)) }
        ensures refuted { OnOk result (self.new.refuted ≡ (self.old.refuted || is_empty lits.items)) }
        ensures unchanged { OnErr result (self.new ≡ self.old) }
    {
        judge_addition(
            &self.clauses,
            &mut self.marks,
            self.vars,
            self.greatest,
            id,
            &lits,
            hints,
        )?;
        let empty = lits.is_empty();
        self.clauses.insert(id, Clause::new(lits))?;
        self.greatest = id;
        self.refuted = self.refuted || empty;
        Ok(())
    }

    fn delete(&mut self, ids: &Vec<u32>) -> Result<(), CheckError>
        ensures exact { Judges result (deletion_fault (live_at self.old.live) no_ids ids.now.items) }
        ensures next { OnOk result (state_of self.new ≡
            record (state_of self.old) { live = without (live_at self.old.live) ids.now.items }) }
        ensures refuted { self.new.refuted ≡ self.old.refuted }
        ensures unchanged { OnErr result (self.new ≡ self.old) }
    {
        judge_deletion(*ids.allocator(), &self.clauses, ids)?;
        remove_all(&mut self.clauses, ids);
        Ok(())
    }
}

/// Removes the clauses with these ids.
fn remove_all(clauses: &mut Clauses, ids: &[u32])
    ensures { live_at clauses.new ≡ without (live_at clauses.old) ids.now }
{
    for id in ids {
        clauses.remove(*id);
    }
}
