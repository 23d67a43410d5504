//! Marks of literals, which test membership in a list in constant time. No contract promises which literals
//! are marked: `covers` tells whether all literals of a list are.
ghost use Rattle.std.specs.Prelude.{◌≡◌, ◌↔◌, true, All, IsTrue};
ghost use Rattle.cdcl_theory.specs.Codes.{marked_in};

use cnf_core::Lit;
use std::alloc::{AllocError, Global};
use std::marker::Model;

/// Which literals are marked, as a flag for each. Contracts see the list of flags.
#[derive(Drop)]
pub struct LitFlags {
    flags: Vec<bool>,
}

impl Model for LitFlags {
    ghost use Rattle.std.specs.Prelude.{List, Bool};

    ghost Value = { List Bool };

    ghost view = { λ m. m.flags.items };
}

impl LitFlags {
    /// A flag for each literal of the variables 1 to `vars`, none of which is set.
    pub fn new(alloc: Global, vars: u32) -> Result<LitFlags, AllocError> {
        Ok(LitFlags {
            flags: vec![in alloc; false; 2 * vars as usize + 2]?,
        })
    }

    /// Sets or clears the mark of a literal.
    pub(crate) fn set(&mut self, lit: Lit, on: bool) {
        let code = lit.code();
        if code < self.flags.len() {
            self.flags[code] = on;
        }
    }

    /// The same for each literal of a list.
    pub(crate) fn set_all(&mut self, lits: &[Lit], on: bool) {
        for lit in lits {
            self.set(*lit, on);
        }
    }

    /// Whether a literal is marked.
    #[tactic(auto, unfolding(cdcl_theory::specs::Codes::marked_in))]
    pub(crate) fn has(&self, lit: Lit) -> bool
        ensures { result ≡ marked_in self.now lit }
    {
        match self.flags.get(lit.code()) {
            Some(flag) => *flag,
            None => false,
        }
    }

    /// Whether all literals of a list are marked.
    pub(crate) fn covers(&self, lits: &[Lit]) -> bool
        ensures { IsTrue result ↔ All (λ l. marked_in self.now l ≡ true) lits.now }
    {
        lits.iter().all(|lit| self.has(*lit))
    }
}
