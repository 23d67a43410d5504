//! Formulas in conjunctive normal form (CNF). The type's invariant bounds variables and clauses, so that ids
//! and variables fit in 32 bits even with all clauses that a log adds.
ghost use Rattle.std.specs.Prelude.{◌≡◌, ◌↔◌, ◌<◌, ◌+◌, [], ◌∷◌, ◌++◌, length, Contains, IsTrue, OnOk, OnErr};
ghost use Rattle.sat_theory.specs.Formula.{IsWithin};
ghost use Rattle.cnf_core.specs.Bounds.{IsCnf};

use crate::Clause;
use std::alloc::{AllocError, Global};
use std::marker::Model;

/// A formula: the variables 1 to `vars`, fewer than 1,000,000,000, and fewer than 2,000,000,000
/// clauses over them, all of which are to be true. The ids of the clauses are 1, 2 and so on.
#[derive(Drop)]
pub struct Cnf {
    vars: u32,
    clauses: Vec<Clause>,
}

impl Model for Cnf {
    ghost use Rattle.sat_theory.specs.Formula.{Formula};
    ghost use Rattle.cnf_core.specs.Bounds.{IsCnf};

    ghost Value = { Formula };

    ghost view = { λ f. record { vars = f.vars; clauses = f.clauses.items } };

    ghost invariant = { λ f. IsCnf (record { vars = f.vars; clauses = f.clauses.items }) };
}

impl Cnf {
    /// The formula without a clause.
    pub fn new(alloc: Global, vars: u32) -> Cnf
        requires { vars < 1000000000 }
        ensures { result ≡ record { vars = vars; clauses = [] } }
    {
        Cnf {
            vars,
            clauses: Vec::new(alloc),
        }
    }

    /// Adds a clause at the end.
    pub fn push(&mut self, clause: Clause) -> Result<(), AllocError>
        requires within { IsWithin self.old.vars clause }
        requires few { length self.old.clauses + 1 < 2000000000 }
        ensures ok { OnOk result (self.new ≡ record self.old { clauses = self.old.clauses ++ clause ∷ [] }) }
        ensures err { OnErr result (self.new ≡ self.old) }
    {
        // for the prover: brings in the invariant of the clause
        let _lits = clause.lits();
        self.clauses.push(clause)?;
        Ok(())
    }

    /// The number of variables.
    pub fn vars(&self) -> u32
        ensures value { result ≡ self.now.vars }
        ensures whole { IsCnf self.now }
    {
        self.vars
    }

    /// Its clauses, in the order of their ids.
    pub fn clauses(&self) -> &[Clause]
        ensures value { result.now ≡ self.now.clauses }
        ensures whole { IsCnf self.now }
    {
        &self.clauses
    }

    /// Whether the formula has the empty clause.
    pub fn has_empty(&self) -> bool
        ensures value { IsTrue result ↔ Contains self.now.clauses [] }
        ensures whole { IsCnf self.now }
    {
        self.clauses.iter().any(|clause| clause.lits().is_empty())
    }

    /// Its clauses, by value.
    pub fn into_clauses(self) -> Vec<Clause>
        ensures value { result.items ≡ self.clauses }
        ensures whole { IsCnf self }
    {
        self.clauses
    }
}
