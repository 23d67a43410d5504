//! Clauses. The type's invariant says that the literals have different variables: it is shown once, where a
//! clause is made, and known wherever one is read.
ghost use Rattle.std.specs.Prelude.{◌≡◌, ◌↔◌, IsTrue};
ghost use Rattle.sat_theory.specs.Formula.{IsClause, IsWithin};

use crate::Lit;
use std::marker::Model;

/// A clause: literals of different variables, at least one of which is to be true. Contracts see it
/// as the list of its literals.
#[derive(Drop)]
pub struct Clause {
    lits: Vec<Lit>,
}

impl Model for Clause {
    ghost use Rattle.std.specs.Prelude.{List, ℤ};
    ghost use Rattle.sat_theory.specs.Formula.{IsClause};

    ghost Value = { List ℤ };

    ghost view = { λ c. c.lits.items };

    ghost invariant = { λ c. IsClause c.lits.items };
}

impl Clause {
    /// The clause of `lits`, in their order.
    pub fn new(lits: Vec<Lit>) -> Clause
        requires { IsClause lits.items }
        ensures { result ≡ lits.items }
    {
        Clause { lits }
    }

    /// Its literals.
    pub fn lits(&self) -> &[Lit]
        ensures value { result.now ≡ self.now }
        ensures whole { IsClause self.now }
    {
        &self.lits
    }

    /// Whether all its variables are among 1 to `vars`.
    pub fn is_within(&self, vars: u32) -> bool
        ensures { IsTrue result ↔ IsWithin vars self.now }
    {
        self.lits.iter().all(|lit| lit.variable() <= vars)
    }
}
