//! The definitions, computed literally: clauses are looked up by linear search, and a set of literals is a list.
//! It is there to be read, and to test faster checkers against.
ghost use Rattle.std.specs.Prelude.{◌≡◌, ℕ, ◌-◌, ◌^◌, ◌<◌, ◌↔◌, [], ℤ, IsTrue, IfOk, OnOk, OnErr, IfSome, IfNone};
ghost use Rattle.std.specs.Prelude.{Some};
ghost use Rattle.std.specs.Prelude.{None, All, List};
ghost use Rattle.std.specs.Option.{option_map};
ghost use Rattle.sat_theory.specs.Formula.{bits_of, variable, IsWithin, IsTrueClause};
ghost use Rattle.sat_theory.specs.Formula.{literal_value as literal_value_of, opposite as opposite_of};
ghost use Rattle.sat_theory.specs.Plain.{live_in, not_listed, Numbered, state_of};
ghost use Rattle.sat_theory.specs.Line.{Add, Delete};
ghost use Rattle.sat_theory.specs.State.{start, next, is_listed as is_listed_in};
ghost use Rattle.sat_theory.specs.Holding.{among, IsUnitOutside, HintsHold, AdditionHolds, DeletionHolds};

use std::alloc::{AllocError, Global};
use std::marker::Model;

/// A clause with its id. Literals are numbers as in DIMACS.
#[derive(Drop)]
pub struct PlainClause {
    id: u32,
    lits: Vec<i32>,
}

impl Model for PlainClause {
    ghost use Rattle.std.specs.Prelude.{◌-◌, ◌^◌};
    ghost use Rattle.sat_theory.specs.Plain.{Numbered};
    ghost use Rattle.sat_theory.specs.Formula.{IsWithin};

    ghost Value = { Numbered };

    ghost view = { λ c. record { id = c.id; lits = c.lits.items } };

    ghost invariant = { λ c. IsWithin (2 ^ 31 - 1) c.lits.items };
}

impl PlainClause {
    /// A clause with an id. No literal is -2^31, whose opposite isn't a number of 32 bits.
    pub fn new(id: u32, lits: Vec<i32>) -> PlainClause
        requires { IsWithin (2 ^ 31 - 1) lits.items }
        ensures { result ≡ record { id = id; lits = lits.items } }
    {
        PlainClause { id, lits }
    }

    /// Its id.
    pub fn id(&self) -> u32
        ensures { result ≡ self.now.id }
    {
        self.id
    }

    /// Its literals, in their order.
    pub fn lits(&self) -> &[i32]
        ensures value { result.now ≡ self.now.lits }
        ensures within { IsWithin (2 ^ 31 - 1) self.now.lits }
    {
        &self.lits
    }
}

/// The value of a literal, where bit v - 1 is the value of variable v.
pub fn literal_value(bits: &[bool], lit: i32) -> bool
    ensures { result ≡ literal_value_of (bits_of bits.now) lit }
{
    let variable = lit.unsigned_abs() as usize;
    if variable == 0 {
        return false;
    }
    match bits.get(variable - 1) {
        Some(bit) => *bit == (lit > 0),
        None => lit < 0,
    }
}

/// Whether a clause has a true literal under `bits`.
#[tactic(auto, unfolding(crate::specs::Formula::IsTrueClause))]
pub fn is_true(bits: &[bool], lits: &[i32]) -> bool
    ensures { IsTrue result ↔ IsTrueClause (bits_of bits.now) lits.now }
{
    lits.iter().any(|lit| literal_value(bits, *lit))
}

/// Whether each clause has a true literal under `bits`.
pub fn satisfies(bits: &[bool], clauses: &[PlainClause]) -> bool
    ensures { IsTrue result ↔ All (λ (c : Numbered). IsTrueClause (bits_of bits.now) c.lits) clauses.now }
{
    clauses.iter().all(|clause| is_true(bits, clause.lits()))
}

/// The literals of the first clause with this id.
#[tactic(auto, unfolding(crate::specs::Plain::live_in))]
fn find(clauses: &[PlainClause], id: u32) -> Option<&PlainClause>
    ensures lits { option_map (λ c. c.now.lits) result ≡ live_in clauses.now id }
{
    let mut left = clauses;
    while let Some((clause, rest)) = left.split_first() {
        if clause.id() == id {
            return Some(clause);
        }
        left = rest;
    }
    None
}

/// Whether a literal is in a list.
fn is_among(lits: &[i32], lit: i32) -> bool
    ensures { result ≡ among lits.now lit }
{
    lits.iter().any(|member| lit == *member)
}

/// The opposite literal.
fn opposite(lit: i32) -> i32
    requires { variable lit < 2 ^ 31 }
    ensures { result ≡ opposite_of lit }
{
    -lit
}

/// The only literal of a clause that isn't in `set`, if there is exactly one.
fn unit_outside(set: &[i32], lits: &[i32]) -> Option<i32>
    ensures found { IfSome result (IsUnitOutside (among set.now) lits.now) }
    ensures none { IfNone result ((l : ℤ) → IsUnitOutside (among set.now) lits.now l → ⊥) }
{
    let mut found: Option<i32> = None;
    for lit in lits {
        if !is_among(set, *lit) {
            match found {
                None => found = Some(*lit),
                Some(other) => {
                    if other != *lit {
                        return None;
                    }
                }
            }
        }
    }
    found
}

/// Whether `hints` hold from `set`, the set of falsified literals: the clause of each hint but the last is unit,
/// and the opposite of its literal joins the set; the clause of the last hint is a conflict.
#[tactic(auto, unfolding(crate::specs::Holding::HintsHold))]
fn hints_hold(
    clauses: &[PlainClause],
    set: &mut Vec<i32>,
    hints: &[u32],
) -> Result<bool, AllocError>
    ensures { IfOk result (λ yes. IsTrue yes ↔ HintsHold (live_in clauses.now) (among set.old.items) hints.now) }
{
    let mut left = hints;
    while let Some((hint, more)) = left.split_first() {
        let Some(clause) = find(clauses, *hint) else {
            return Ok(false);
        };
        if more.is_empty() {
            return Ok(clause.lits().iter().all(|lit| is_among(set, *lit)));
        }
        let Some(lit) = unit_outside(set, clause.lits()) else {
            return Ok(false);
        };
        set.push(opposite(lit))?;
        left = more;
    }
    Ok(false)
}

/// Whether an id is in a list.
fn is_listed(ids: &[u32], id: u32) -> bool
    ensures { result ≡ is_listed_in ids.now id }
{
    ids.iter().any(|other| id == *other)
}

/// Keeps the clauses whose ids aren't in `ids`.
fn take_out(clauses: &mut Vec<PlainClause>, ids: &[u32])
    ensures { clauses.new.items ≡ not_listed ids.now clauses.old.items }
{
    clauses.retain(|clause| !is_listed(ids, clause.id()));
}

/// The state of a log after some lines: its live clauses, the newest first.
#[derive(Drop)]
pub struct PlainState {
    clauses: Vec<PlainClause>,
    vars: u32,
    greatest: u32,
}

impl Model for PlainState {
    ghost use Rattle.sat_theory.specs.Plain.{PlainValue};

    ghost Value = { PlainValue };

    ghost view = { λ s. record { clauses = s.clauses.items; vars = s.vars; greatest = s.greatest } };
}

#[tactic(auto, using(crate::proofs::Listed::states))]
impl PlainState {
    /// The state before the first clause of a formula.
    pub fn new(alloc: Global, vars: u32) -> PlainState
        ensures { state_of result ≡ start (record { vars = vars; clauses = [] }) }
    {
        PlainState {
            clauses: Vec::new(alloc),
            vars,
            greatest: 0,
        }
    }

    /// Adds a clause of the formula or of a line, without checking that it holds.
    pub fn add(&mut self, id: u32, lits: Vec<i32>) -> Result<(), AllocError>
        requires { IsWithin (2 ^ 31 - 1) lits.items }
        ensures ok { OnOk result ((hints : List ℕ) →
            state_of self.new ≡ next (state_of self.old) (Add id lits.items hints)) }
        ensures err { OnErr result (self.new ≡ self.old) }
    {
        self.clauses.insert(0, PlainClause::new(id, lits))?;
        self.greatest = id;
        Ok(())
    }

    /// Removes the clauses with these ids; an id that isn't live is ignored.
    pub fn remove(&mut self, ids: &[u32])
        ensures { (id : ℕ) → state_of self.new ≡ next (state_of self.old) (Delete id ids.now) }
    {
        take_out(&mut self.clauses, ids);
    }

    /// Whether an addition holds. The state doesn't change.
    pub fn addition_holds(
        &self,
        alloc: Global,
        id: u32,
        lits: &[i32],
        hints: &[u32],
    ) -> Result<bool, AllocError>
        ensures { IfOk result (λ yes. IsTrue yes ↔ AdditionHolds (state_of self.now) id lits.now hints.now) }
    {
        if id <= self.greatest || lits.iter().any(|lit| lit.unsigned_abs() > self.vars) {
            return Ok(false);
        }
        let mut set = Vec::from_slice(alloc, lits)?;
        hints_hold(&self.clauses, &mut set, hints)
    }

    /// Whether a deletion holds. The state doesn't change.
    pub fn deletion_holds(&self, ids: &[u32]) -> bool
        ensures { IsTrue result ↔ DeletionHolds (live_in self.now.clauses) ids.now }
    {
        are_live(&self.clauses, ids)
    }
}

/// Whether `ids` are live and different.
#[tactic(auto, using(crate::proofs::Listed::deletions))]
fn are_live(clauses: &[PlainClause], ids: &[u32]) -> bool
    ensures { IsTrue result ↔ DeletionHolds (live_in clauses.now) ids.now }
{
    let mut left = ids;
    while let Some((id, more)) = left.split_first() {
        if find(clauses, *id).is_none() {
            return false;
        }
        if is_listed(more, *id) {
            return false;
        }
        left = more;
    }
    true
}
