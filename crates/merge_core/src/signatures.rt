//! Signatures: rows of words, one after the other in the order of the nodes, node 1 first.
ghost use Rattle.std.specs.Prelude.{◌≡◌, ℕ, ◌+◌, ◌-◌, ◌*◌, ◌≤◌, ◌<◌, ◌^◌, length, slice_index_or, IsTrue, IsFalse};

/// The odd number nearest to 2^64 divided by the golden ratio (multiplicative hashing, Knuth, TAOCP 6.4).
const MULTIPLIER: u64 = 0x9E37_79B9_7F4A_7C15;

/// The index of the first word of a node's signature, of `width` words.
pub fn signature_start(node: u32, width: usize) -> usize
    requires some { 1 ≤ node }
    requires room { (node - 1) * width < 2 ^ 64 }
    ensures { result ≡ (node - 1) * width }
{
    (node as usize - 1) * width
}

/// Whether two signatures, by their first words, are equal.
pub fn are_same(lanes: &[u64], first: usize, second: usize, width: usize) -> bool
    requires first { first + width ≤ length lanes.now }
    requires second { second + width ≤ length lanes.now }
    ensures yes { IsTrue result → (j : ℕ) → j < width →
        slice_index_or lanes.now (first + j) 0 ≡ slice_index_or lanes.now (second + j) 0 }
    ensures no { IsFalse result → ((j : ℕ) → j < width →
        slice_index_or lanes.now (first + j) 0 ≡ slice_index_or lanes.now (second + j) 0) → ⊥ }
{
    for j in 0..width {
        if lanes[first + j] != lanes[second + j] {
            return false;
        }
    }
    true
}

/// Whether all words of a signature are `word`.
pub fn are_all(lanes: &[u64], start: usize, width: usize, word: u64) -> bool
    requires { start + width ≤ length lanes.now }
    ensures yes { IsTrue result → (j : ℕ) → j < width → slice_index_or lanes.now (start + j) 0 ≡ word }
    ensures no { IsFalse result → ((j : ℕ) → j < width → slice_index_or lanes.now (start + j) 0 ≡ word) → ⊥ }
{
    for j in 0..width {
        if lanes[start + j] != word {
            return false;
        }
    }
    true
}

/// A hash of a signature.
pub fn hash_of(lanes: &[u64], start: usize, width: usize) -> u64
    requires { start + width ≤ length lanes.now }
{
    let mut hash: u64 = 0;
    for j in 0..width {
        let mixed = (hash ^ lanes[start + j]).wrapping_mul(MULTIPLIER);
        hash = mixed ^ (mixed >> 32);
    }
    hash
}
