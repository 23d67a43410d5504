//! The number of two-input gates into which a table is decomposed.

ghost use Rattle.std.specs.Prelude.{◌≡◌, ◌+◌, ◌≤◌, ◌<◌, ◌^◌, length, count_by, ◌==◌};
ghost use Rattle.net_theory.specs.Cover.{IsCover};
ghost use Rattle.net_theory.specs.Cost.{unary_cost as unary_cost_of, binary_cost as binary_cost_of};
ghost use Rattle.net_theory.specs.Cost.{literal_count as literal_count_of, literal_sum, is_not as is_not_of};
ghost use Rattle.net_theory.specs.Cost.{wide_cost as wide_cost_of, cover_cost as cover_cost_of};
ghost use Rattle.net_theory.specs.Limits.{most_table_inputs, most_cubes};

use crate::cover::{Cover, Cube};
use crate::expansion::is_constant_cover;
use crate::truth::{binary_word, unary_word};

/// The cost of a function of one input, by its truth table `word` (2 bits, the value at 0 first).
pub fn unary_cost(word: u8) -> u32
    ensures { result ≡ unary_cost_of word }
{
    if word == 2 { 1 } else { 0 }
}

/// The cost of a function of two inputs, by its truth table `word` (4 bits): none for a constant or a copy.
pub fn binary_cost(word: u8) -> u32
    ensures { result ≡ binary_cost_of word }
{
    match word {
        0 | 15 | 3 | 5 => 0,
        _ => 1,
    }
}

/// The number of literals of a cube.
fn literal_count(cube: &[u8]) -> usize
    ensures count { result ≡ literal_count_of cube.now }
    ensures within { result ≤ length cube.now }
{
    cube.iter()
        .filter(|byte| **byte == b'0' || **byte == b'1')
        .count()
}

/// The number of complemented literals of a cube.
fn zero_count(cube: &[u8]) -> usize
    ensures { result ≡ count_by (λ b. b == 48) cube.now }
{
    cube.iter().filter(|byte| **byte == b'0').count()
}

/// The number of literals of all cubes.
fn literal_total(cubes: &[Cube]) -> u32
    requires { literal_sum cubes.now < 2 ^ 32 }
    ensures { result ≡ literal_sum cubes.now }
{
    let mut total = 0;
    let mut left = cubes;
    while let Some((cube, rest)) = left.split_first() {
        total += literal_count(cube.get()) as u32;
        left = rest;
    }
    total
}

/// Whether the cover is a single literal that makes it NOT of an input.
fn is_not(on: bool, cubes: &[Cube]) -> bool
    ensures { result ≡ is_not_of on cubes.now }
{
    match cubes {
        [cube] => {
            let zeros = zero_count(cube.get());
            literal_count(cube.get()) == 1 && (if on { zeros == 1 } else { zeros == 0 })
        }
        _ => false,
    }
}

/// The cost of a table of more than two inputs.
#[tactic(auto, using(crate::proofs::CostLemmas::costs))]
fn wide_cost(cover: &Cover) -> u32
    requires { literal_sum cover.now.cubes < 2 ^ 31 }
    ensures { result ≡ wide_cost_of cover.now }
{
    if is_constant_cover(&cover.cubes) {
        return 0;
    }
    let joins = literal_total(&cover.cubes).saturating_sub(1);
    if is_not(cover.on, &cover.cubes) {
        joins + 1
    } else {
        joins
    }
}

/// The number of gates that `expand` appends for a table with `inputs`.
#[tactic(auto, using(crate::proofs::CostLemmas::costs))]
pub fn cover_cost<T>(cover: &Cover, inputs: &[T]) -> u32
    requires cover { IsCover cover.now }
    requires narrow { cover.now.width ≤ most_table_inputs }
    requires few { length cover.now.cubes ≤ most_cubes }
    ensures { result ≡ cover_cost_of cover.now inputs.now }
{
    match inputs {
        [] => 0,
        [_] => unary_cost(unary_word(cover)),
        [_, _] => binary_cost(binary_word(cover)),
        _ => wide_cost(cover),
    }
}
