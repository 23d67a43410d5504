//! The number of rows with each pair of literals, and the most frequent pair. A heap has a rank for each pair that
//! occurs in two rows; a rank that is too high is lowered when it comes to the top, so a pair that becomes rarer costs
//! nothing before.

use indexmap::IndexSet;
use rows::{at, put, raise};
use std::alloc::{AllocError, Global};
use std::collections::BinaryHeap;

/// The greatest number of 26 bits.
const MOST: u64 = 0x3FF_FFFF;

/// The greatest count that a rank shows.
const MOST_SHOWN: u64 = 4_095;

/// Two literals, the lower first.
#[derive(Clone, Copy, PartialEq, Eq, Hash)]
pub struct LiteralPair {
    pub low: u32,
    pub high: u32,
}

/// The pairs in the order in which they were met, the number of rows with each, the count of its rank in the heap (0
/// where it has none), and the heap.
#[derive(Drop)]
pub struct PairCounts {
    met: IndexSet<LiteralPair>,
    counts: Vec<u32>,
    ranked: Vec<u32>,
    heap: BinaryHeap<u64>,
}

impl PairCounts {
    /// No pairs.
    pub fn new(alloc: Global) -> PairCounts {
        PairCounts {
            met: IndexSet::new(alloc),
            counts: Vec::new(alloc),
            ranked: Vec::new(alloc),
            heap: BinaryHeap::new(alloc),
        }
    }

    /// The index of a pair.
    fn index_of(&mut self, a: u32, b: u32) -> Result<u32, AllocError> {
        let pair = LiteralPair {
            low: a.min(b),
            high: a.max(b),
        };
        let (index, is_new) = self.met.insert_full(pair)?;
        if is_new {
            self.counts.push(0)?;
            self.ranked.push(0)?;
        }
        Ok((index as u64 & 0xFFFF_FFFF) as u32)
    }

    /// Pushes the rank of a pair, if it occurs in two rows: its count in 12 bits, then 26 bits in which the least
    /// literal is greatest, then 26 bits in which the first index is greatest.
    fn rank(&mut self, index: u32, count: u32) -> Result<(), AllocError> {
        if count < 2 {
            put(&mut self.ranked, index, 0);
            return Ok(());
        }
        put(&mut self.ranked, index, count);
        let low = match self.met.get_index(index as usize) {
            Some(pair) => pair.low,
            None => 0,
        };
        let shown = u64::from(count).min(MOST_SHOWN);
        let tie = MOST - u64::from(low).min(MOST);
        let place = MOST - u64::from(index).min(MOST);
        self.heap
            .push(shown.wrapping_shl(52) | tie.wrapping_shl(26) | place)?;
        Ok(())
    }

    /// One more row has both literals, before any pair is taken.
    pub fn count(&mut self, a: u32, b: u32) -> Result<(), AllocError> {
        let index = self.index_of(a, b)?;
        raise(&mut self.counts, index);
        Ok(())
    }

    /// All pairs get their ranks.
    pub fn rank_all(&mut self) -> Result<(), AllocError> {
        for index in 0..self.counts.len() {
            let index = (index as u64 & 0xFFFF_FFFF) as u32;
            let count = at(&self.counts, index);
            self.rank(index, count)?;
        }
        Ok(())
    }

    /// One more row has both literals.
    pub fn add(&mut self, a: u32, b: u32) -> Result<(), AllocError> {
        let index = self.index_of(a, b)?;
        raise(&mut self.counts, index);
        let count = at(&self.counts, index);
        if count > at(&self.ranked, index) {
            self.rank(index, count)?;
        }
        Ok(())
    }

    /// One row less has both literals.
    pub fn remove(&mut self, a: u32, b: u32) -> Result<(), AllocError> {
        let index = self.index_of(a, b)?;
        let count = at(&self.counts, index).saturating_sub(1);
        put(&mut self.counts, index, count);
        Ok(())
    }

    /// How many pairs were met.
    pub fn len(&self) -> usize {
        self.counts.len()
    }

    /// Pops the top rank. Returns its pair if the rank is up to date; else it is lowered. None if the heap is empty.
    pub fn take(&mut self) -> Result<Option<Option<LiteralPair>>, AllocError> {
        let Some(rank) = self.heap.pop() else {
            return Ok(None);
        };
        let index = (MOST - (rank & MOST)) as u32;
        let count = at(&self.counts, index);
        let shown = rank >> 52;
        if u64::from(at(&self.ranked, index)).min(MOST_SHOWN) != shown {
            return Ok(Some(None));
        }
        if u64::from(count).min(MOST_SHOWN) != shown {
            self.rank(index, count)?;
            return Ok(Some(None));
        }
        put(&mut self.ranked, index, 0);
        Ok(Some(self.met.get_index(index as usize).copied()))
    }
}
