//! Simplification of raw clauses, one at a time. During a clause, a table over all variables has the sign of
//! each variable seen so far, so one look-up tells whether a literal is new, a repeat or the opposite of an
//! earlier one. Afterwards only the entries of the clause's variables are cleared, so a clause takes time
//! linear in the number of its raw literals.
ghost use Rattle.std.specs.Prelude.{◌≡◌, ◌<◌, ◌≤◌, ◌-◌, ◌^◌, List, [], ◌∷◌, length, All, IfOk, OnOk, OnErr};
ghost use Rattle.sat_theory.specs.Formula.{IsClause};
ghost use Rattle.clause_core.specs.declared.raw.RawLit.{RawLit};
ghost use Rattle.clause_core.specs.declared.raw.RawLit.TheVariants.{Var};
ghost use Rattle.clause_core.specs.Clauses.{Appends, simplified, written, IsWithin};
ghost use Rattle.clause_core.specs.Seen.{IsSeen, IsBlank, going, found};

use crate::RawLit;
use cnf_core::{Clause, Cnf, Lit};
use std::alloc::{AllocError, Global};
use std::marker::Model;

/// Adds a literal to a clause; `seen` has the signs of the clause's variables. Returns false if the clause is
/// a tautology.
fn add_literal(
    lits: &mut Vec<Lit>,
    seen: &mut [Option<bool>],
    variable: u32,
    bit: bool,
) -> Result<bool, AllocError>
    requires clause { IsClause lits.old.items }
    requires seen { IsSeen seen.old lits.old.items }
    requires variable { (1 ≤ variable) × (variable < length seen.old) × (length seen.old < 2 ^ 31) }
    ensures same { IfOk result (λ more. (raws : List RawLit) → simplified lits.old.items (Var variable bit ∷ raws) ≡
        going more lits.new.items raws) }
    ensures clause { IsClause lits.new.items }
    ensures seen { IsSeen seen.new lits.new.items }
{
    match seen[variable as usize] {
        Some(known) => Ok(known == bit),
        None => {
            lits.push(Lit::of(variable, bit))?;
            seen[variable as usize] = Some(bit);
            Ok(true)
        }
    }
}

/// Adds a raw literal to a clause. Returns false if the clause is a tautology.
#[tactic(auto, using(crate::proofs::Simplified::constants), unfolding(crate::specs::Clauses::IsWithin))]
fn add(lits: &mut Vec<Lit>, seen: &mut [Option<bool>], raw: RawLit) -> Result<bool, AllocError>
    requires clause { IsClause lits.old.items }
    requires seen { IsSeen seen.old lits.old.items }
    requires room { (1 ≤ length seen.old) × (length seen.old < 2 ^ 31) }
    requires variable { IsWithin (length seen.old - 1) raw }
    ensures same { IfOk result (λ more. (raws : List RawLit) →
        simplified lits.old.items (raw ∷ raws) ≡ going more lits.new.items raws) }
    ensures clause { IsClause lits.new.items }
    ensures seen { IsSeen seen.new lits.new.items }
{
    match raw {
        RawLit::Fixed(bit) => Ok(!bit),
        RawLit::Var(variable, bit) => add_literal(lits, seen, variable, bit),
    }
}

/// Simplifies a raw clause into an empty list of literals. Returns false if it is a tautology; the list is of
/// no use then.
#[tactic(auto, using(crate::proofs::Simplified::constants))]
fn gather(
    lits: &mut Vec<Lit>,
    seen: &mut [Option<bool>],
    raws: &[RawLit],
) -> Result<bool, AllocError>
    requires none { lits.old.items ≡ [] }
    requires blank { IsBlank seen.old }
    requires room { (1 ≤ length seen.old) × (length seen.old < 2 ^ 31) }
    requires within { All (IsWithin (length seen.old - 1)) raws.now }
    ensures same { IfOk result (λ whole. simplified [] raws.now ≡ found whole lits.new.items) }
    ensures clause { IsClause lits.new.items }
    ensures seen { IsSeen seen.new lits.new.items }
{
    let mut left = raws;
    while let Some((raw, rest)) = left.split_first() {
        if !add(lits, seen, *raw)? {
            return Ok(false);
        }
        left = rest;
    }
    Ok(true)
}

/// Clears the entries of the literals' variables in `seen`.
fn clear_seen(seen: &mut [Option<bool>], lits: &[Lit])
    requires { IsSeen seen.old lits.now }
    ensures { IsBlank seen.new }
{
    for lit in lits {
        seen[lit.variable() as usize] = None;
    }
}

/// A growing formula over the variables 1 to `vars`. Adding a clause takes time linear in the number of its
/// raw literals.
#[derive(Drop)]
pub struct ClauseList {
    vars: u32,
    clauses: Vec<Clause>,
    // the signs of a clause's variables while it is simplified; all None between calls
    seen: Vec<Option<bool>>,
}

impl Model for ClauseList {
    ghost use Rattle.std.specs.Prelude.{◌<◌};
    ghost use Rattle.sat_theory.specs.Formula.{Formula};
    ghost use Rattle.clause_core.specs.Seen.{HoldsList};

    ghost Value = { Formula };

    ghost view = { λ f. record { vars = f.vars; clauses = f.clauses.items } };

    ghost invariant = { λ f. HoldsList (record { vars = f.vars; clauses = f.clauses.items }) f.seen.items };
}

impl ClauseList {
    /// The formula without a clause, over the variables 1 to `vars`, fewer than 1,000,000,000.
    pub fn new(alloc: Global, vars: u32) -> Result<ClauseList, AllocError>
        requires { vars < 1000000000 }
        ensures { IfOk result (λ list. list ≡ record { vars = vars; clauses = [] }) }
    {
        Ok(ClauseList {
            vars,
            clauses: Vec::new(alloc),
            seen: vec![in alloc; None; vars as usize + 1]?,
        })
    }

    /// Simplifies a raw clause and adds it: false constants and repeated literals are left out. If it is a
    /// tautology, with a true constant or a literal and its opposite, nothing is added.
    #[tactic(auto, unfolding(crate::specs::Clauses::written))]
    pub fn push(&mut self, alloc: Global, raws: &[RawLit]) -> Result<(), AllocError>
        requires { All (IsWithin self.old.vars) raws.now }
        ensures written { OnOk result (Appends self.old self.new (written raws.now)) }
        ensures unchanged { OnErr result (self.new ≡ self.old) }
    {
        let mut lits = Vec::with_capacity(alloc, raws.len())?;
        let whole = gather(&mut lits, &mut self.seen, raws);
        clear_seen(&mut self.seen, &lits);
        if whole? {
            self.clauses.push(Clause::new(lits))?;
        }
        Ok(())
    }

    /// The number of variables.
    pub fn vars(&self) -> u32
        ensures value { result ≡ self.now.vars }
        ensures few { self.now.vars < 1000000000 }
    {
        self.vars
    }

    /// The simplified clauses in the order in which they were added.
    pub fn clauses(&self) -> &[Clause]
        ensures { result.now ≡ self.now.clauses }
    {
        &self.clauses
    }

    /// The formula of these clauses, fewer than 2,000,000,000. An error means that memory ran out.
    pub fn into_cnf(self, alloc: Global) -> Result<Cnf, AllocError>
        requires { length self.clauses < 2000000000 }
        ensures { IfOk result (λ cnf. cnf ≡ self) }
    {
        let mut cnf = Cnf::new(alloc, self.vars);
        for clause in self.clauses {
            cnf.push(clause)?;
        }
        Ok(cnf)
    }
}
