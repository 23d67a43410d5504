//! The binary heap itself: a list of variables in which none has a greater score than its parent, and the
//! place (index in the list) of each variable. A variable moves up or down until the order holds again.
//! Relations on the lists say what has moved and that no variable is lost, so `VarHeap` shows only scores and
//! held variables.
ghost use Rattle.std.specs.Prelude.{◌≡◌, ◌≢◌, ◌+◌, ◌-◌, ◌*◌, ◌<◌, ◌≤◌, true, false, length, slice_set, IfOk, IfSome};
ghost use Rattle.std.specs.Prelude.{IfNone};
ghost use Rattle.var_heap.specs.Entries.{entry, with_entry, marks_of};
ghost use Rattle.var_heap.specs.HeapArrays.{IsHeapArray, at, place, HasScores, IsOrdered, IsOrderedAbove};
ghost use Rattle.var_heap.specs.HeapArrays.{IsOrderedBelow, IsGreaterChild, IsMoved, IsFilled};

use std::alloc::{AllocError, Global};

/// The held variables at the places 1 to `len`; the children of place p are at 2 p and 2 p + 1.
#[derive(Drop)]
pub(crate) struct HeapArray {
    pub(crate) heap: Vec<u32>,
    /// the place of each variable; 0 where it isn't held
    pub(crate) places: Vec<u32>,
    pub(crate) len: usize,
}

impl HeapArray {
    /// All variables from 1 to `vars`, each at its own number as place.
    pub(crate) fn new(alloc: Global, vars: u32) -> Result<HeapArray, AllocError>
        ensures array { IfOk result IsHeapArray }
        ensures room { IfOk result (λ r. length r.places.items ≡ vars + 1) }
        ensures filled { IfOk result (IsFilled vars) }
    {
        let mut array = HeapArray {
            heap: vec![in alloc; 0u32; vars as usize + 2]?,
            places: vec![in alloc; 0u32; vars as usize + 1]?,
            len: 0,
        };
        for before in 0..vars {
            array.put(before + 1);
        }
        Ok(array)
    }

    /// Removes and returns the first variable, and moves the last one to its place.
    pub(crate) fn remove_first(&mut self) -> u32
        requires array { IsHeapArray self.old }
        requires some { 0 < self.old.len }
        ensures array { IsHeapArray self.new }
        ensures len { self.new.len ≡ self.old.len - 1 }
        ensures first { result ≡ at self.old 1 }
        ensures at { at self.new ≡ with_entry (at self.old) 1 (at self.old self.old.len) }
        ensures marks { marks_of self.new.places.items ≡ slice_set (marks_of self.old.places.items) result false }
        ensures room { length self.new.places.items ≡ length self.old.places.items }
    {
        let first = self.heap[1];
        let last = self.heap[self.len];
        self.heap[1] = last;
        self.places[last as usize] = 1;
        self.places[first as usize] = 0;
        self.len -= 1;
        first
    }

    /// Appends a variable that isn't held.
    pub(crate) fn put(&mut self, v: u32)
        requires array { IsHeapArray self.old }
        requires variable { (0 < v) × (v < length self.old.places.items) }
        requires free { place self.old v ≡ 0 }
        ensures array { IsHeapArray self.new }
        ensures len { self.new.len ≡ self.old.len + 1 }
        ensures at { at self.new ≡ with_entry (at self.old) (self.old.len + 1) v }
        ensures place { place self.new ≡ with_entry (place self.old) v (self.old.len + 1) }
        ensures marks { marks_of self.new.places.items ≡ slice_set (marks_of self.old.places.items) v true }
        ensures room { length self.new.places.items ≡ length self.old.places.items }
    {
        self.len += 1;
        self.heap[self.len] = v;
        self.places[v as usize] = self.len as u32;
    }

    /// Exchanges the variables at two places.
    fn swap(&mut self, a: usize, b: usize)
        requires array { IsHeapArray self.old }
        requires first { (0 < a) × (a ≤ self.old.len) }
        requires second { (0 < b) × (b ≤ self.old.len) }
        requires apart { a ≢ b }
        ensures array { IsHeapArray self.new }
        ensures moved { IsMoved self.old self.new }
        ensures swapped { at self.new ≡ with_entry (with_entry (at self.old) a (at self.old b)) b (at self.old a) }
    {
        let first = self.heap[a];
        let second = self.heap[b];
        self.heap[a] = second;
        self.heap[b] = first;
        self.places[second as usize] = a as u32;
        self.places[first as usize] = b as u32;
    }

    /// Moves a variable up while its parent has a smaller score.
    pub(crate) fn up(&mut self, scores: &[u64], from: usize)
        requires array { IsHeapArray self.old }
        requires scores { HasScores scores.now self.old }
        requires inside { (0 < from) × (from ≤ self.old.len) }
        requires ordered { IsOrderedAbove (at self.old) (entry scores.now) self.old.len from }
        ensures array { IsHeapArray self.new }
        ensures moved { IsMoved self.old self.new }
        ensures ordered { IsOrdered (at self.new) (entry scores.now) self.new.len }
    {
        let mut place = from;
        while place > 1 {
            let above = place / 2;
            if scores[self.heap[place] as usize] <= scores[self.heap[above] as usize] {
                return;
            }
            self.swap(place, above);
            place = above;
        }
    }

    /// The child whose variable has the greater score; None if there is no child.
    fn greater_below(&self, scores: &[u64], above: usize) -> Option<usize>
        requires array { IsHeapArray self.now }
        requires scores { HasScores scores.now self.now }
        requires inside { (0 < above) × (above ≤ self.now.len) }
        ensures some { IfSome result (IsGreaterChild (at self.now) (entry scores.now) self.now.len above) }
        ensures none { IfNone result (self.now.len < 2 * above) }
    {
        let left = 2 * above;
        if left > self.len {
            return None;
        }
        if left == self.len {
            return Some(left);
        }
        if scores[self.heap[left] as usize] < scores[self.heap[left + 1] as usize] {
            return Some(left + 1);
        }
        Some(left)
    }

    /// Moves a variable down while a child has a greater score.
    pub(crate) fn down(&mut self, scores: &[u64], from: usize)
        requires array { IsHeapArray self.old }
        requires scores { HasScores scores.now self.old }
        requires inside { (0 < from) × (from ≤ self.old.len) }
        requires ordered { IsOrderedBelow (at self.old) (entry scores.now) self.old.len from }
        ensures array { IsHeapArray self.new }
        ensures moved { IsMoved self.old self.new }
        ensures ordered { IsOrdered (at self.new) (entry scores.now) self.new.len }
    {
        let mut place = from;
        while let Some(below) = self.greater_below(scores, place) {
            if scores[self.heap[below] as usize] <= scores[self.heap[place] as usize] {
                return;
            }
            self.swap(place, below);
            place = below;
        }
    }
}
