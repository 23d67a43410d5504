//! Variables with scores, some of them held. The first place has a greatest score, which follows from the
//! heap order, level by level.
ghost use Rattle.std.specs.Prelude.{◌≡◌, ℕ, ◌+◌, ◌-◌, ◌/◌, ◌<◌, ◌^◌, ◌↔◌, true, false, map, min, slice_set, IsTrue};
ghost use Rattle.std.specs.Prelude.{IfOk, IfSome, IfNone};
ghost use Rattle.var_heap.specs.Held.{IsHeld, IsVariable, IsWhole, IsGreatest, IsFull, score_of};

use crate::array::HeapArray;
use std::alloc::{AllocError, Global};
use std::marker::Model;

/// Variables with scores, some of them held by the heap. Contracts see the scores and which variables are
/// held.
#[derive(Drop)]
pub struct VarHeap {
    vars: u32,
    scores: Vec<u64>,
    array: HeapArray,
}

impl Model for VarHeap {
    ghost use Rattle.var_heap.specs.Held.{Held};

    ghost Value = { Held };

    ghost use Rattle.std.specs.Prelude.{◌≡◌, ◌+◌};
    ghost use Rattle.var_heap.specs.Entries.{marks_of};
    ghost use Rattle.var_heap.specs.HeapArrays.{IsHeap};

    ghost view = { λ h. record { vars = h.vars; scores = h.scores.items; marks = marks_of h.array.places.items } };

    ghost invariant = { λ h. IsHeap h.vars h.scores.items h.array };
}

impl VarHeap {
    /// Holds the variables 1 to `vars`, each with the score 0. No later call allocates memory.
    pub fn new(alloc: Global, vars: u32) -> Result<VarHeap, AllocError>
        ensures full { IfOk result (IsFull vars) }
        ensures whole { IfOk result IsWhole }
    {
        let scores = vec![in alloc; 0u64; vars as usize + 1]?;
        let array = HeapArray::new(alloc, vars)?;
        Ok(VarHeap {
            vars,
            scores,
            array,
        })
    }

    /// Removes and returns a held variable of greatest score; None if none is held.
    pub fn pop(&mut self) -> Option<u32>
        ensures greatest { IfSome result (IsGreatest self.old) }
        ensures taken { IfSome result (λ v. self.new ≡ record self.old { marks = slice_set self.old.marks v false }) }
        ensures none { IfNone result ((v : ℕ) → IsHeld self.old v → ⊥) }
        ensures same { IfNone result (self.new ≡ self.old) }
        ensures whole { IsWhole self.new }
    {
        if self.array.len == 0 {
            return None;
        }
        let first = self.array.remove_first();
        if self.array.len > 0 {
            self.array.down(&self.scores, 1);
        }
        Some(first)
    }

    /// Adds a variable to the heap; nothing changes if it is held.
    pub fn push(&mut self, v: u32)
        requires { IsVariable self.old v }
        ensures held { self.new ≡ record self.old { marks = slice_set self.old.marks v true } }
        ensures whole { IsWhole self.new }
    {
        if self.array.places[v as usize] > 0 {
            return;
        }
        self.array.put(v);
        let last = self.array.len;
        self.array.up(&self.scores, last);
    }

    /// Adds `by` to the score of a variable, held or not, saturating at 64 bits.
    pub fn bump(&mut self, v: u32, by: u64)
        requires { IsVariable self.old v }
        ensures added { self.new ≡ record self.old {
          scores =
              slice_set self.old.scores v (min (score_of self.old v + by) (2 ^ 64 - 1));
        } }
        ensures whole { IsWhole self.new }
    {
        self.scores[v as usize] = self.scores[v as usize].saturating_add(by);
        let place = self.array.places[v as usize] as usize;
        if place > 0 {
            self.array.up(&self.scores, place);
        }
    }

    /// Divides every score by 2 to the power `power`, rounding down.
    pub fn divide(&mut self, power: u32)
        requires { power < 64 }
        ensures divided { self.new ≡ record self.old { scores = map (λ s. s / 2 ^ power) self.old.scores } }
        ensures whole { IsWhole self.new }
    {
        divide_all(&mut self.scores, power);
    }

    /// Whether a variable is held.
    pub fn contains(&self, v: u32) -> bool
        requires { IsVariable self.now v }
        ensures value { IsTrue result ↔ IsHeld self.now v }
        ensures whole { IsWhole self.now }
    {
        self.array.places[v as usize] != 0
    }
}

fn divide_all(scores: &mut Vec<u64>, power: u32)
    requires { power < 64 }
    ensures { scores.new.items ≡ map (λ s. s / 2 ^ power) scores.old.items }
{
    for index in 0..scores.len() {
        scores[index] >>= power;
    }
}
