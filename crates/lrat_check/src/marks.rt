//! A set of literals that is cleared in constant time: a literal is in the set if its time stamp is the current
//! one, so a new time stamp clears it. When stamps run out, all are set to 0.
ghost use Rattle.std.specs.Prelude.{◌≡◌, ◌<◌, ℤ, false, length, IfOk};
ghost use Rattle.sat_theory.specs.Holding.{with_literal};
ghost use Rattle.cnf_core.specs.Codes.{code_of};
ghost use Rattle.lrat_check.specs.LiteralMarks.{marked, HasRoom};

use cnf_core::Lit;
use std::alloc::{AllocError, Global};
use std::marker::Model;

/// A set of literals: each literal has a time stamp, and is in the set if that is the current one.
#[derive(Drop)]
pub(crate) struct LiteralMarks {
    stamps: Vec<u32>,
    time: u32,
}

impl Model for LiteralMarks {
    ghost use Rattle.lrat_check.specs.LiteralMarks.{Stamped, AreStamps};

    ghost Value = { Stamped };

    ghost view = { λ m. record { stamps = m.stamps.items; time = m.time } };

    ghost invariant = { λ m. AreStamps (record { stamps = m.stamps.items; time = m.time }) };
}

#[tactic(auto, using(crate::proofs::Stamps::stamping))]
impl LiteralMarks {
    /// The empty set, with room for the literals of the variables 1 to `vars`.
    pub(crate) fn new(alloc: Global, vars: u32) -> Result<LiteralMarks, AllocError>
        ensures { IfOk result (λ m. HasRoom m vars) }
    {
        let stamps = vec![in alloc; 0u32; 2 * vars as usize + 2]?;
        Ok(LiteralMarks { stamps, time: 1 })
    }

    /// Clears the set. Once in 2^32 calls it takes one step for each literal.
    pub(crate) fn clear(&mut self)
        ensures none { (l : ℤ) → marked self.new l ≡ false }
        ensures room { length self.new.stamps ≡ length self.old.stamps }
    {
        if self.time < u32::MAX {
            self.time += 1;
            return;
        }
        self.stamps.fill(0);
        self.time = 1;
    }

    /// Adds a literal to the set.
    pub(crate) fn add(&mut self, lit: Lit)
        requires { code_of lit < length self.old.stamps }
        ensures set { marked self.new ≡ with_literal (marked self.old) lit }
        ensures room { length self.new.stamps ≡ length self.old.stamps }
    {
        self.stamps[lit.code()] = self.time;
    }

    /// Whether a literal is in the set.
    #[tactic(auto, unfolding(crate::specs::LiteralMarks::marked))]
    pub(crate) fn has(&self, lit: Lit) -> bool
        ensures { result ≡ marked self.now lit }
    {
        match self.stamps.get(lit.code()) {
            Some(stamp) => *stamp == self.time,
            None => false,
        }
    }
}
