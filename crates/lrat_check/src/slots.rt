//! Membership in a list of literals, mostly in one step: a table is indexed by the literal's code modulo its size,
//! and the list is searched only if several of its literals share a slot.
ghost use Rattle.std.specs.Prelude.{◌≡◌, ◌↔◌, length, IsTrue};
ghost use Rattle.lrat_check.specs.OccurrenceIndex.{HasLiteral};
ghost use Rattle.lrat_check.specs.Slots.{AreSlots, with_slot};

use cnf_core::Lit;

/// The number of slots of the table.
const SLOTS: usize = 1024;

/// A list of literals, with the table of their codes.
#[derive(Drop)]
pub(crate) struct Among<'a> {
    pub(crate) lits: &'a [Lit],
    /// 0: no literal has this slot; 1: several may have it; else 2 + the code of the only one.
    pub(crate) slots: [usize; SLOTS],
}

impl<'a> Among<'a> {
    /// The table of `lits`.
    pub(crate) fn of(lits: &'a [Lit]) -> Among<'a>
        ensures lits { result.lits.now ≡ lits.now }
        ensures slots { AreSlots result.slots lits.now }
    {
        let mut slots = [0; SLOTS];
        for lit in lits {
            put(&mut slots, *lit);
        }
        Among { lits, slots }
    }

    /// Whether a literal is in the list.
    pub(crate) fn has(&self, lit: Lit) -> bool
        requires { AreSlots self.now.slots self.now.lits.now }
        ensures { IsTrue result ↔ HasLiteral self.now.lits.now lit }
    {
        let code = lit.code();
        let slot = self.slots[code % SLOTS];
        if slot == 1 {
            return has_literal(self.lits, lit);
        }
        slot == code + 2
    }
}

/// Enters one more literal.
fn put(slots: &mut [usize], lit: Lit)
    requires { length slots.old ≡ 1024 }
    ensures { slots.new ≡ with_slot slots.old lit }
{
    let code = lit.code();
    let place = code % SLOTS;
    let slot = if slots[place] == 0 { code + 2 } else { 1 };
    slots[place] = slot;
}

#[tactic(auto, unfolding(crate::specs::OccurrenceIndex::HasLiteral))]
fn has_literal(lits: &[Lit], lit: Lit) -> bool
    ensures { IsTrue result ↔ HasLiteral lits.now lit }
{
    lits.contains(&lit)
}
