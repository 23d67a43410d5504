//! Assignments, and the test whether one satisfies a formula: each clause needs a true literal.
ghost use Rattle.std.specs.Prelude.{◌≡◌, ◌↔◌, IsTrue, length};
ghost use Rattle.sat_theory.specs.Formula.{bits_of, literal_value as literal_value_of, IsTrueClause, Satisfies};
ghost use Rattle.sat_theory.specs.Formula.{variable};

use crate::{Clause, Cnf, Lit};
use std::marker::Model;

/// An assignment: `bits[v - 1]` is the bit of variable v. Contracts see it as the list of its bits.
#[derive(Drop)]
pub struct Assign {
    bits: Vec<bool>,
}

impl Model for Assign {
    ghost use Rattle.std.specs.Prelude.{List, Bool};

    ghost Value = { List Bool };

    ghost view = { λ a. a.bits.items };
}

impl Assign {
    /// The assignment of `bits`.
    pub fn new(bits: Vec<bool>) -> Assign
        ensures { result ≡ bits.items }
    {
        Assign { bits }
    }

    /// Its bits.
    pub fn bits(&self) -> &[bool]
        ensures { result.now ≡ self.now }
    {
        &self.bits
    }
}

/// Whether each clause of the formula has a true literal.
pub fn satisfied(cnf: &Cnf, assign: &Assign) -> bool
    requires { length assign.now ≡ cnf.now.vars }
    ensures { IsTrue result ↔ Satisfies (bits_of assign.now) cnf.now }
{
    let bits = assign.bits();
    cnf.clauses().iter().all(|clause| is_true(bits, clause))
}

#[tactic(auto, unfolding(sat_theory::specs::Formula::IsTrueClause))]
fn is_true(bits: &[bool], clause: &Clause) -> bool
    ensures { IsTrue result ↔ IsTrueClause (bits_of bits.now) clause.now }
{
    clause.lits().iter().any(|lit| literal_value(bits, *lit))
}

/// The value of a literal; a variable beyond the end of `bits` counts as false.
fn literal_value(bits: &[bool], lit: Lit) -> bool
    ensures { result ≡ literal_value_of (bits_of bits.now) lit }
{
    match bits.get(lit.variable() as usize - 1) {
        Some(bit) => *bit == lit.is_positive(),
        None => !lit.is_positive(),
    }
}
