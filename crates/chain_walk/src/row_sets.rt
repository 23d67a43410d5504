//! The words of up to 64 signals transposed: for each row the set of the signals that are 1 there. One operation on
//! such sets takes the place of a loop over signals.

use crate::small_net::{SmallNet, word_at};
use rows::{bit_at, put};
use std::alloc::{AllocError, Global};

/// The most members of a set, and the rows of a word.
const SIDE: u32 = 64;

/// For each row the set of the signals that are 1 there: member k is the k-th signal. A word is transposed when it is
/// first asked for.
#[derive(Drop)]
pub struct RowSets {
    sets: Vec<u64>,
    known: Vec<bool>,
}

/// Exchanges the bits of `mask` in the second words with those `distance` above them in the first words.
fn exchange_halves(firsts: &mut [u64], seconds: &mut [u64], distance: u32, mask: u64) {
    for (first, second) in firsts.iter_mut().zip(seconds.iter_mut()) {
        let moved = (first.wrapping_shr(distance) ^ *second) & mask;
        *first ^= moved.wrapping_shl(distance);
        *second ^= moved;
    }
}

/// Exchanges, in each square of 2 * `distance` rows and bits, the upper right quarter and the lower left one.
fn exchange(block: &mut [u64], distance: u32, mask: u64) {
    let half = distance as usize;
    let side = half.wrapping_mul(2).max(1);
    for square in block.chunks_exact_mut(side) {
        if let Some((firsts, seconds)) = square.split_at_mut_checked(half) {
            exchange_halves(firsts, seconds, distance, mask);
        }
    }
}

/// Transposes a square of bits.
fn transpose(block: &mut [u64]) {
    exchange(block, 32, 0x0000_0000_ffff_ffff);
    exchange(block, 16, 0x0000_ffff_0000_ffff);
    exchange(block, 8, 0x00ff_00ff_00ff_00ff);
    exchange(block, 4, 0x0f0f_0f0f_0f0f_0f0f);
    exchange(block, 2, 0x3333_3333_3333_3333);
    exchange(block, 1, 0x5555_5555_5555_5555);
}

/// One word of each signal.
fn words_of(net: &SmallNet, signals: &[u32], word: u32) -> [u64; 64] {
    let mut block = [0u64; 64];
    for (slot, signal) in block.iter_mut().zip(signals.iter()) {
        *slot = net.word(*signal, word);
    }
    block
}

/// The members of a set of at most so many.
pub fn first_members(count: u32) -> u64 {
    if count >= SIDE {
        u64::MAX
    } else {
        1u64.wrapping_shl(count).wrapping_sub(1)
    }
}

/// The set without its lowest member.
pub fn without_lowest(set: u64) -> u64 {
    set & set.wrapping_sub(1)
}

/// The set without its `rank` lowest members.
pub fn without_first(set: u64, rank: u32) -> u64 {
    let mut left = set;
    for _member in 0..rank.min(SIDE) {
        left = without_lowest(left);
    }
    left
}

/// Of some members those that have in the selected rows the value that `reference` has for them. `sets` are those of
/// one word.
pub fn agreeing(sets: &[u64], selected: u64, reference: u64, members: u64) -> u64 {
    let mut left = members;
    let mut rows = selected;
    for _row in 0..SIDE {
        if rows == 0 || left == 0 {
            break;
        }
        left &= !(word_at(sets, rows.trailing_zeros()) ^ reference);
        rows = without_lowest(rows);
    }
    left
}

/// Of some members those whose values differ between the rows of on-set and off-set.
pub fn separating(sets: &[u64], on: u64, off: u64, members: u64) -> u64 {
    if on == 0 || off == 0 {
        return members;
    }
    let reference = word_at(sets, on.trailing_zeros());
    let left = agreeing(sets, off, !reference, members);
    agreeing(sets, without_lowest(on), reference, left)
}

impl RowSets {
    /// Nothing is transposed yet.
    pub fn new(alloc: Global) -> RowSets {
        RowSets {
            sets: Vec::new(alloc),
            known: Vec::new(alloc),
        }
    }

    /// Begins with signals of so many words.
    pub fn clear(&mut self, words: u32) -> Result<(), AllocError> {
        self.known.clear();
        self.known.resize(words as usize, false)?;
        let room = u64::from(words).saturating_mul(u64::from(SIDE)) as usize;
        if self.sets.len() < room {
            self.sets.resize(room, 0)?;
        }
        Ok(())
    }

    /// Transposes a word of the signals, unless that is done.
    pub fn prepare(&mut self, net: &SmallNet, signals: &[u32], word: u32) {
        if bit_at(&self.known, word) {
            return;
        }
        let mut block = words_of(net, signals, word);
        transpose(&mut block);
        let first = word.wrapping_mul(SIDE) as usize;
        if let Some((_before, places)) = self.sets.split_at_mut_checked(first) {
            for (place, set) in places.iter_mut().zip(block.iter()) {
                *place = *set;
            }
        }
        put(&mut self.known, word, true);
    }

    /// The sets of the rows of a word that was transposed.
    pub fn of_word(&self, word: u32) -> &[u64] {
        let first = word.wrapping_mul(SIDE) as usize;
        let end = first.wrapping_add(SIDE as usize);
        self.sets.get(first..end).unwrap_or(&[])
    }
}
