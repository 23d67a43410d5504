//! The literals of the current resolvent as a set, with a mark for each (`seen` in MiniSat). Every change is
//! stated as an equation of sets, so the analysis is proved about sets of literals and not about tables.
ghost use Rattle.std.specs.Prelude.{◌≡◌, ℕ, ◌<◌, [], length, All, IfOk, OnOk};
ghost use Rattle.sat_theory.specs.Holding.{with_literal};
ghost use Rattle.cdcl_theory.specs.Codes.{code_of, marked_in, without_literal};
ghost use Rattle.conflict_core.specs.Markings.{HasRoom, IsClear, AreGathered};

use cnf_core::Lit;
use std::alloc::{AllocError, Global};
use std::marker::Model;

/// A set of literals as a table of marks. Contracts see the list of marks.
#[derive(Drop)]
pub(crate) struct LitSet {
    marks: Vec<bool>,
}

impl Model for LitSet {
    ghost use Rattle.std.specs.Prelude.{List, Bool};

    ghost Value = { List Bool };

    ghost view = { λ m. m.marks.items };
}

#[tactic(auto, using(crate::proofs::Marking::marking))]
impl LitSet {
    /// The empty set, with room for the literals of the variables 1 to `vars`.
    pub(crate) fn new(alloc: Global, vars: u32) -> Result<LitSet, AllocError>
        ensures { IfOk result (IsClear vars) }
    {
        Ok(LitSet {
            marks: vec![in alloc; false; 2 * vars as usize + 2]?,
        })
    }

    /// Whether a literal is in the set.
    #[tactic(auto, unfolding(cdcl_theory::specs::Codes::marked_in))]
    pub(crate) fn has(&self, lit: Lit) -> bool
        requires { code_of lit < length self.now }
        ensures { result ≡ marked_in self.now lit }
    {
        self.marks[lit.code()]
    }

    /// Adds a literal to the set.
    pub(crate) fn set(&mut self, lit: Lit)
        requires { code_of lit < length self.old }
        ensures set { marked_in self.new ≡ with_literal (marked_in self.old) lit }
        ensures room { length self.new ≡ length self.old }
    {
        self.marks[lit.code()] = true;
    }

    /// Removes a literal from the set.
    pub(crate) fn unset(&mut self, lit: Lit)
        requires { code_of lit < length self.old }
        ensures set { marked_in self.new ≡ without_literal (marked_in self.old) lit }
        ensures room { length self.new ≡ length self.old }
    {
        self.marks[lit.code()] = false;
    }

    /// Removes all literals.
    pub(crate) fn clear(&mut self)
        ensures { (vars : ℕ) → HasRoom vars self.old → IsClear vars self.new }
    {
        self.marks.fill(false);
    }

    /// Removes the literals of a list from the set, and appends those that were in it to `gathered`.
    #[tactic(auto, using(crate::proofs::Marking::taking))]
    pub(crate) fn take(&mut self, lits: &[Lit], gathered: &mut Vec<Lit>) -> Result<(), AllocError>
        requires inside { All (λ l. code_of l < length self.old) lits.now }
        requires empty { gathered.old.items ≡ [] }
        ensures gathered { OnOk result (AreGathered lits.now self.old self.new gathered.new.items) }
        ensures room { length self.new ≡ length self.old }
    {
        for lit in lits {
            if !self.has(*lit) {
                continue;
            }
            self.unset(*lit);
            gathered.push(*lit)?;
        }
        Ok(())
    }
}
