//! Flags of the literals that are unit clauses. The flag of each live unit clause is set (`IsUnitsOf`).
//! Adding a unit clause sets its flag; deletion clears none, since a flag without a clause can only prevent
//! an addition.
ghost use Rattle.std.specs.Prelude.{◌≡◌, ℕ, ◌+◌, ◌*◌, length, IfOk};
ghost use Rattle.sat_theory.specs.Formula.{IsWithin};
ghost use Rattle.cdcl_theory.specs.Codes.{marked_in};
ghost use Rattle.clause_db.specs.Stored.{Stored, added};
ghost use Rattle.subsume_core.specs.Units.{IsUnitsOf, AreFlagged, IsFlagged};

use clause_db::ClauseDb;
use cnf_core::Lit;
use std::alloc::{AllocError, Global};
use std::marker::Model;

/// Which literals are unit clauses, as a flag for each. Contracts see the list of flags.
#[derive(Drop)]
pub struct Units {
    flags: Vec<bool>,
}

impl Model for Units {
    ghost use Rattle.std.specs.Prelude.{List, Bool};

    ghost Value = { List Bool };

    ghost view = { λ u. u.flags.items };
}

impl Units {
    /// The flags of the live unit clauses.
    pub fn new(alloc: Global, clauses: &ClauseDb) -> Result<Units, AllocError>
        ensures { IfOk result (IsUnitsOf clauses.now) }
    {
        let mut units = Units {
            flags: vec![in alloc; false; 2 * clauses.vars() as usize + 2]?,
        };
        units.flag_all(clauses);
        Ok(units)
    }

    /// Sets the flags of the live unit clauses.
    fn flag_all(&mut self, clauses: &ClauseDb)
        requires { length self.old ≡ 2 * clauses.now.vars + 2 }
        ensures { IsUnitsOf clauses.now self.new }
    {
        for before in 0..clauses.last() {
            self.flag_live(clauses, before + 1);
        }
    }

    /// Sets the flag of a clause, if it is a live unit clause.
    fn flag_live(&mut self, clauses: &ClauseDb, id: u32)
        ensures { (before : ℕ) → id ≡ before + 1 → AreFlagged clauses.now before self.old →
            AreFlagged clauses.now id self.new }
    {
        if !clauses.live(id) {
            return;
        }
        self.flag(clauses.arranged(id));
    }

    /// Sets the flag of a list of one literal.
    fn flag(&mut self, lits: &[Lit])
        ensures { IsFlagged lits.now self.old self.new }
    {
        if lits.len() != 1 {
            return;
        }
        let code = lits[0].code();
        if code >= self.flags.len() {
            return;
        }
        self.flags[code] = true;
    }

    /// Records a clause that was added.
    pub fn note(&mut self, lits: &[Lit])
        ensures { (s : Stored) → IsUnitsOf s self.old → IsWithin s.vars lits.now →
            IsUnitsOf (added s lits.now) self.new }
    {
        self.flag(lits);
    }

    /// Whether the flag of a literal is set.
    #[tactic(auto, unfolding(cdcl_theory::specs::Codes::marked_in))]
    pub(crate) fn has(&self, lit: Lit) -> bool
        ensures { result ≡ marked_in self.now lit }
    {
        match self.flags.get(lit.code()) {
            Some(flag) => *flag,
            None => false,
        }
    }
}
