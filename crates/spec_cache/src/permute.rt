//! Specifications with permuted inputs, word by word.
ghost use Rattle.std.specs.Prelude.{◌≡◌, ◌^◌, ◌<◌, ◌≤◌, map, IfOk};
ghost use Rattle.chain_theory.specs.Operator.{digit as digit_of};
ghost use Rattle.chain_theory.specs.Specification.{input as input_of};
ghost use Rattle.tt_core.specs.Words.{specification};
ghost use Rattle.spec_cache.specs.Order.{IsOrder, permuted_row as permuted_row_of, permuted_word as permuted_word_of};
ghost use Rattle.spec_cache.specs.Order.{IsPermuted};
ghost use Rattle.chain_theory.specs.Limits.{most_inputs};

use std::alloc::{AllocError, Global};
use tt_core::Spec;

/// The value of input `j` of `n` in row `t`.
fn input(n: u32, t: u32, j: u32) -> bool
    requires inputs { n ≤ most_inputs }
    requires input { j ≤ n }
    ensures { result ≡ input_of n t j }
{
    (t >> (n - j)) & 1 == 1
}

/// The row that gives each input the value that row `t` gives its new number.
#[tactic(auto, using(crate::proofs::Growing::growing))]
fn permuted_row(n: u32, order: &[u32], t: u32) -> u32
    requires inputs { n ≤ most_inputs }
    requires order { IsOrder n order.now }
    ensures row { result ≡ permuted_row_of n order.now t }
    ensures within { result < 2 ^ n }
{
    let mut row = 0u32;
    for before in 0..n {
        row = 2 * row + u32::from(input(n, t, order[before as usize]));
    }
    row
}

/// Bit `t` of a word.
fn digit(word: u64, t: u32) -> bool
    requires { t < 64 }
    ensures { result ≡ digit_of word t }
{
    (word >> t) & 1 == 1
}

/// The word with its rows permuted by an order of the inputs.
#[tactic(auto, using(crate::proofs::Growing::growing))]
fn permuted_word(n: u32, order: &[u32], word: u64) -> u64
    requires inputs { n ≤ most_inputs }
    requires order { IsOrder n order.now }
    ensures { result ≡ permuted_word_of n order.now word }
{
    let rows = 1u32 << n;
    let mut permuted = 0u64;
    for before in 0..rows {
        let row = permuted_row(n, order, rows - 1 - before);
        permuted = 2 * permuted + u64::from(digit(word, row));
    }
    permuted
}

/// Each of the words with its rows permuted.
fn permuted_words(
    alloc: Global,
    n: u32,
    order: &[u32],
    words: &[u64],
) -> Result<Vec<u64>, AllocError>
    requires inputs { n ≤ most_inputs }
    requires order { IsOrder n order.now }
    ensures { IfOk result (λ permuted. permuted.items ≡ map (permuted_word_of n order.now) words.now) }
{
    let mut permuted = Vec::with_capacity(alloc, words.len())?;
    let mut left = words;
    while let Some((word, rest)) = left.split_first() {
        permuted.push(permuted_word(n, order, *word))?;
        left = rest;
    }
    Ok(permuted)
}

/// The specification with its inputs permuted: input j gets the number at position j of `order`.
#[tactic(auto, using(crate::specs::WordLaws::permute))]
pub fn permuted_spec(alloc: Global, spec: &Spec, order: &[u32]) -> Result<Spec, AllocError>
    requires { IsOrder spec.now.n order.now }
    ensures inputs { IfOk result (λ permuted. permuted.n ≡ spec.now.n) }
    ensures permuted { IfOk result (λ permuted. IsPermuted (specification spec.now)
        (specification permuted) order.now) }
{
    let n = spec.n();
    let on = permuted_words(alloc, n, order, spec.on())?;
    let care = permuted_words(alloc, n, order, spec.care())?;
    Ok(Spec::new(n, on, care))
}
