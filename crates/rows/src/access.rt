//! Reading and writing arrays at any index. Reading past the end gives a default, and writing past the end does
//! nothing, so that a search needs no bounds of its own.

/// The entry at `index`, or `other` past the end.
pub fn entry<T: Copy>(row: &[T], index: u32, other: T) -> T {
    match row.get(index as usize) {
        Some(value) => *value,
        None => other,
    }
}

/// The number at `index`, 0 past the end.
pub fn at(row: &[u32], index: u32) -> u32 {
    entry(row, index, 0)
}

/// The mark at `index`, false past the end.
pub fn bit_at(row: &[bool], index: u32) -> bool {
    entry(row, index, false)
}

/// Writes `value` at `index`.
pub fn put<T: Copy>(row: &mut [T], index: u32, value: T) {
    if let Some(slot) = row.get_mut(index as usize) {
        *slot = value;
    }
}

/// Adds 1 to the number at `index`, up to the greatest number.
pub fn raise(row: &mut [u32], index: u32) {
    if let Some(number) = row.get_mut(index as usize) {
        *number = number.saturating_add(1);
    }
}
