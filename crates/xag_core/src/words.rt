//! Total reads and writes of rows of 64-bit words: beyond the end a read gives 0, and a write does nothing.

/// The word at an index; 0 beyond the end.
pub fn word_at(row: &[u64], place: usize) -> u64 {
    match row.get(place) {
        Some(word) => *word,
        None => 0,
    }
}

/// Writes the word at an index; nothing beyond the end.
pub fn put_word(row: &mut [u64], place: usize, word: u64) {
    if let Some(entry) = row.get_mut(place) {
        *entry = word;
    }
}

/// All ones where the literal complements its node, otherwise 0.
pub fn complement_mask(literal: u32) -> u64 {
    if literal & 1 == 1 { u64::MAX } else { 0 }
}
