//! The trail as a list of literals with two tables: the position at which each literal became false, and the
//! reason of each variable. The invariant `IsTrail` says that list and tables agree; backtracking removes the
//! last literals one by one, with their entries.
ghost use Rattle.std.specs.Prelude.{◌≡◌, ℤ, negsuc, ◌+◌, ◌-◌, ◌<◌, ◌≤◌, ◌↔◌, [], length, slice_index_or, IsTrue};
ghost use Rattle.std.specs.Prelude.{IfOk};
ghost use Rattle.std.specs.Prelude.{OnOk, OnErr};
ghost use Rattle.sat_theory.specs.Formula.{variable as variable_of};
ghost use Rattle.cdcl_theory.specs.Trails.{IsTrail, IsBacktracked, pushed, falsified_at as falsified_in, reason_of};
ghost use Rattle.trail_core.specs.Values.{IsOver, IsFree, Follows};

use cnf_core::{Assign, Lit};
use std::alloc::{AllocError, Global};
use std::marker::Model;

/// The true literals in the order of their assignment, with their reasons. Contracts see the list of
/// literals, the table of positions and the table of reasons.
#[derive(Drop)]
pub struct Trail {
    vars: u32,
    lits: Vec<Lit>,
    table: Vec<u32>,
    reasons: Vec<u32>,
}

impl Model for Trail {
    ghost use Rattle.cdcl_theory.specs.Trails.{TrailState, IsTrail};

    ghost Value = { TrailState };

    ghost view = { λ t. record {
      vars = t.vars;
      lits = t.lits.items;
      table = t.table.items;
      reasons = t.reasons.items;
    } };

    ghost invariant = { λ t. IsTrail (record {
      vars = t.vars;
      lits = t.lits.items;
      table = t.table.items;
      reasons = t.reasons.items;
    }) };
}

#[tactic(auto, using(crate::proofs::Reading::reading))]
impl Trail {
    /// The empty trail for the variables 1 to `vars`, fewer than 1,000,000,000.
    pub fn new(alloc: Global, vars: u32) -> Result<Trail, AllocError>
        requires { vars < 1000000000 }
        ensures vars { IfOk result (λ t. t.vars ≡ vars) }
        ensures empty { IfOk result (λ t. t.lits ≡ []) }
        ensures whole { IfOk result IsTrail }
    {
        let table = vec![in alloc; 0u32; 2 * vars as usize + 2]?;
        let reasons = vec![in alloc; 0u32; vars as usize + 1]?;
        Ok(Trail {
            vars,
            lits: Vec::with_capacity(alloc, vars as usize)?,
            table,
            reasons,
        })
    }

    /// The number of variables.
    pub fn vars(&self) -> u32
        ensures value { result ≡ self.now.vars }
        ensures whole { IsTrail self.now }
    {
        self.vars
    }

    /// The number of true literals.
    pub fn len(&self) -> usize
        ensures value { result ≡ length self.now.lits }
        ensures whole { IsTrail self.now }
    {
        self.lits.len()
    }

    /// The literal at a trail index, from 0 on.
    pub fn at(&self, index: usize) -> Lit
        requires { index < length self.now.lits }
        ensures value { (d : ℤ) → result ≡ slice_index_or self.now.lits index d }
        ensures over { IsOver self.now.vars result }
        ensures whole { IsTrail self.now }
    {
        self.lits[index]
    }

    /// 1 + the trail index of its opposite if the literal is false, else 0.
    #[tactic(auto, using(crate::proofs::Reading::reading), unfolding(cdcl_theory::specs::Codes::position_in))]
    pub fn falsified_at(&self, lit: Lit) -> u32
        requires { variable_of lit ≤ self.now.vars }
        ensures value { result ≡ falsified_in self.now lit }
        ensures whole { IsTrail self.now }
    {
        self.table[lit.code()]
    }

    /// The id of the clause that implied the literal, 0 for a decision. It means something only while the
    /// variable has a value.
    pub fn reason(&self, lit: Lit) -> u32
        requires { variable_of lit ≤ self.now.vars }
        ensures value { result ≡ reason_of self.now lit }
    {
        self.reasons[lit.variable() as usize]
    }

    /// Assigns a variable without a value: `lit` becomes true, with the id of its reason, or 0 for a
    /// decision.
    pub fn push(&mut self, lit: Lit, reason: u32) -> Result<(), AllocError>
        requires over { variable_of lit ≤ self.old.vars }
        requires free { IsFree self.old lit }
        ensures ok { OnOk result (self.new ≡ pushed self.old lit reason) }
        ensures err { OnErr result (self.new ≡ self.old) }
        ensures whole { IsTrail self.new }
    {
        self.lits.push(lit)?;
        self.table[lit.opposite().code()] = self.lits.len() as u32;
        self.reasons[lit.variable() as usize] = reason;
        Ok(())
    }

    /// Unassigns the last literal.
    pub fn pop(&mut self)
        requires { 0 < length self.old.lits }
        ensures back { IsBacktracked (length self.old.lits - 1) self.old self.new }
        ensures whole { IsTrail self.new }
    {
        let Some(lit) = self.lits.pop() else {
            return;
        };
        self.table[lit.opposite().code()] = 0;
    }

    /// Whether neither the literal nor its opposite is true.
    pub fn is_free(&self, lit: Lit) -> bool
        requires { variable_of lit ≤ self.now.vars }
        ensures { IsTrue result ↔ IsFree self.now lit }
    {
        self.falsified_at(lit) == 0 && self.falsified_at(lit.opposite()) == 0
    }

    /// The assignment in which the literals of the trail are true; a variable without a value is
    /// false.
    pub fn assignment(&self, alloc: Global) -> Result<Assign, AllocError>
        ensures { IfOk result (Follows self.now) }
    {
        let mut bits = Vec::with_capacity(alloc, self.vars as usize)?;
        for index in 0..self.vars {
            bits.push(self.falsified_at(negative(index)) > 0)?;
        }
        Ok(Assign::new(bits))
    }
}

/// The negative literal of the variable `index` + 1.
fn negative(index: u32) -> Lit
    requires { index < 1000000000 }
    ensures { result ≡ negsuc index }
{
    Lit::of(index + 1, false)
}
