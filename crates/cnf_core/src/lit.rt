//! Literals, stored as table indices: the opposite literal is the neighbouring index (one bit flipped), and a
//! table entry is read without arithmetic. Index and DIMACS number determine each other (`CodeLaws`).
ghost use Rattle.std.specs.Prelude.{◌≡◌, ℕ, ℤ, pos, ◌<◌, ◌^◌, ◌<ℤ◌, ◌↔◌, IsTrue};
ghost use Rattle.std.specs.Ordering.{int_eq};
ghost use Rattle.std.specs.Cmp.Rules.{comparing};
ghost use Rattle.std.proofs.Common.{rules};
ghost use Rattle.cnf_core.specs.Bounds.{IsLit};
ghost use Rattle.cnf_core.specs.Codes.{code_of};
ghost use Rattle.sat_theory.specs.Formula.{variable as variable_of, opposite as opposite_of, signed};

use std::marker::Model;

/// A literal: a variable from 1 to 2147483647, and a sign. Contracts see it as its DIMACS number: 3 means
/// that variable 3 is true, -3 that it is false. It is stored as its index in tables over literals (6 and 7
/// in the example).
#[derive(Clone, Copy)]
pub struct Lit(u32);

impl Model for Lit {
    ghost use Rattle.std.specs.Prelude.{ℕ, ℤ, ◌≤◌};
    ghost use Rattle.std.proofs.Common.{ap};
    ghost use Rattle.cnf_core.specs.Codes.{code_of, literal_of};
    ghost use Rattle.cnf_core.specs.CodeLaws.{code_of-literal_of};

    ghost Value = { ℤ };

    ghost view = { λ l. literal_of l.0 };

    ghost invariant = { λ l. 2 ≤ l.0 };

    ghost inverse = { λ z. record { 0 = code_of z } };

    ghost inverse_ok = { λ a some. ap (λ (n : ℕ). record { 0 = n }) (code_of-literal_of a.0 some) };
}

#[tactic(auto, using(crate::proofs::Placing::placing))]
impl PartialEq for Lit {
    ghost eq = { λ a b. int_eq a b };

    ghost laws = { Prim.search (comparing, rules) };

    fn eq(&self, other: &Lit) -> bool {
        self.0 == other.0
    }
}

#[tactic(auto, using(crate::proofs::Placing::placing))]
impl Lit {
    /// The literal with this DIMACS number.
    pub fn new(number: i32) -> Lit
        requires { IsLit number }
        ensures { result ≡ number }
    {
        if number > 0 {
            return Lit(2 * number.unsigned_abs());
        }
        Lit(2 * number.unsigned_abs() + 1)
    }

    /// The literal of `variable`: the positive one if `positive`, else the negative one.
    pub fn of(variable: u32, positive: bool) -> Lit
        requires some { 0 < variable }
        requires small { variable < 2 ^ 31 }
        ensures value { result ≡ signed variable positive }
        ensures variable { variable_of result ≡ variable }
    {
        if positive {
            return Lit(2 * variable);
        }
        Lit(2 * variable + 1)
    }

    /// Its DIMACS number.
    pub fn get(self) -> i32
        ensures value { result ≡ self }
        ensures whole { IsLit self }
    {
        let number = self.variable() as i32;
        if self.is_positive() {
            return number;
        }
        -number
    }

    /// Its variable.
    pub fn variable(self) -> u32
        ensures value { result ≡ variable_of self }
        ensures some { 0 < result }
        ensures small { result < 2 ^ 31 }
    {
        self.0 / 2
    }

    /// The opposite literal.
    pub fn opposite(self) -> Lit
        ensures value { result ≡ opposite_of self }
        ensures variable { variable_of result ≡ variable_of self }
    {
        Lit(self.0 ^ 1)
    }

    /// Whether it is the positive literal of its variable.
    pub fn is_positive(self) -> bool
        ensures { IsTrue result ↔ (pos 0 <ℤ self) }
    {
        self.0 % 2 == 0
    }

    /// Its index in a table over all literals: 2 v for the variable v, 2 v + 1 for its opposite. A table of 2
    /// n + 2 entries has room for the variables 1 to n.
    pub fn code(self) -> usize
        ensures value { result ≡ code_of self }
        ensures small { result < 2 ^ 33 }
    {
        self.0 as usize
    }
}
