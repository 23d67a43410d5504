//! The steps with the pairs that each may have.
ghost use Rattle.std.specs.Prelude.{◌≡◌, ◌+◌, ◌<◌, ◌≤◌, ◌^◌, length, All, IfOk};
ghost use Rattle.enc_theory.specs.Pairs.{numbered, layout, vars_of, slot_count};
ghost use Rattle.enc_base.specs.Room.{IsSmall, HasRoom, HasSlots};

use crate::pairs::Pairs;
use crate::vars::s_first;
use enc_theory::{Pair, Dimensions, Slot};
use std::alloc::{AllocError, Global};
use std::marker::Model;

/// A step, and the pairs that it may have with their selection variables, in order.
#[derive(Drop)]
pub struct StepSlots {
    place: u32,
    slots: Vec<Slot>,
}

impl Model for StepSlots {
    ghost use Rattle.enc_theory.specs.Pairs as pairs;

    ghost Value = { pairs.StepSlots };

    ghost view = { λ s. record { place = s.place; slots = s.slots.items } };
}

impl StepSlots {
    /// The step at a place with the given pairs.
    pub fn new(place: u32, slots: Vec<Slot>) -> StepSlots
        ensures { result ≡ record { place = place; slots = slots.items } }
    {
        StepSlots { place, slots }
    }

    /// The step's place.
    pub fn place(&self) -> u32
        ensures { result ≡ self.now.place }
    {
        self.place
    }

    /// The pairs that it may have.
    pub fn slots(&self) -> &[Slot]
        ensures { result.now ≡ self.now.slots }
    {
        &self.slots
    }
}

/// Numbers the pairs' selection variables, in order, from `first` on.
#[tactic(auto, using(crate::proofs::Laying::numbering))]
fn number(alloc: Global, first: u32, pairs: &[Pair]) -> Result<Vec<Slot>, AllocError>
    requires { first + length pairs.now < 2 ^ 31 }
    ensures slots { IfOk result (λ slots. slots.items ≡ numbered first pairs.now) }
    ensures count { IfOk result (λ slots. length slots.items ≡ length pairs.now) }
{
    let mut slots = Vec::new(alloc);
    let mut var = first;
    let mut left = pairs;
    while let Some((pair, rest)) = left.split_first() {
        slots.push(Slot {
            j: pair.j,
            k: pair.k,
            var,
        })?;
        var += 1;
        left = rest;
    }
    Ok(slots)
}

/// All steps of a formula with the pairs that each may have, and the number of variables.
#[derive(Drop)]
pub struct Layout {
    /// The variables are 1 to `vars`.
    pub vars: u32,
    /// The steps in the order of their places.
    pub steps: Vec<StepSlots>,
}

impl Layout {
    /// The steps of a formula of the given sizes; the selection variables come after all other variables.
    #[tactic(auto, using(crate::proofs::Laying::laying))]
    pub fn new<P: Pairs>(alloc: Global, pairs: &P, z: Dimensions) -> Result<Layout, AllocError>
        requires { IsSmall z }
        ensures steps { IfOk result (λ l. l.steps.items ≡ layout (P.pairs_of pairs.now) z) }
        ensures vars { IfOk result (λ l. l.vars ≡ vars_of z l.steps.items) }
        ensures room { IfOk result (λ l. HasRoom z l.vars) }
        ensures count { IfOk result (λ l. length l.steps.items ≡ z.r) }
        ensures few { IfOk result (λ l. slot_count l.steps.items ≤ 16000) }
        ensures slots { IfOk result (λ l. All (HasSlots z l.vars) l.steps.items) }
    {
        let mut steps = Vec::new(alloc);
        let mut next = s_first(z);
        for place in z.n + 1..z.n + 1 + z.r {
            let below = pairs.pairs(alloc, place)?;
            let slots = number(alloc, next, &below)?;
            next += slots.len() as u32;
            steps.push(StepSlots::new(place, slots))?;
        }
        Ok(Layout {
            vars: next - 1,
            steps,
        })
    }
}
