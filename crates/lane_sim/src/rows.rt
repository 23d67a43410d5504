//! Rows of words: operands, and the row of a gate computed from its operands' rows, four words at a time and the
//! rest one by one.

ghost use Rattle.std.specs.Prelude.{◌≡◌, ◌+◌, ◌≤◌, ◌<◌, ◌^◌, length, slice_set};
ghost use Rattle.std.specs.Simd.Lanes.{put_chunk};
ghost use Rattle.op_basis.specs.WordOperator.{combined};
ghost use Rattle.lane_sim.specs.Combining.{operand_word, operand_four, EndsBefore, combined_four};
ghost use Rattle.lane_sim.specs.Rows.{IsGateRowWritten};

use crate::combining::combine_four;
use op_basis::{Masks, combine};
use std::simd::prelude::*;

/// An operand of a gate: a constant, or the row that begins at this index of the lanes.
#[derive(Clone, Copy)]
pub enum Operand {
    Zero,
    One,
    Row(usize),
}

/// Word `j` of an operand.
pub fn word(lanes: &[u64], operand: Operand, j: usize) -> u64
    requires { EndsBefore (length lanes.now) (j + 1) operand }
    ensures value { result ≡ operand_word lanes.now operand j }
    ensures small { result < 2 ^ 64 }
{
    match operand {
        Operand::Zero => 0,
        Operand::One => u64::MAX,
        Operand::Row(start) => lanes[start + j],
    }
}

/// Four words of a row, one after the other.
#[derive(Clone, Copy)]
pub struct Quad {
    pub first: u64,
    pub second: u64,
    pub third: u64,
    pub fourth: u64,
}

/// Four words of an operand from word `j` on, as separate words.
pub fn four_words(lanes: &[u64], operand: Operand, j: usize) -> Quad
    requires { EndsBefore (length lanes.now) (j + 4) operand }
    ensures first { result.first ≡ operand_word lanes.now operand j }
    ensures second { result.second ≡ operand_word lanes.now operand (j + 1) }
    ensures third { result.third ≡ operand_word lanes.now operand (j + 2) }
    ensures fourth { result.fourth ≡ operand_word lanes.now operand (j + 3) }
    ensures small_first { result.first < 2 ^ 64 }
    ensures small_second { result.second < 2 ^ 64 }
    ensures small_third { result.third < 2 ^ 64 }
    ensures small_fourth { result.fourth < 2 ^ 64 }
{
    match operand {
        Operand::Zero => Quad {
            first: 0,
            second: 0,
            third: 0,
            fourth: 0,
        },
        Operand::One => Quad {
            first: u64::MAX,
            second: u64::MAX,
            third: u64::MAX,
            fourth: u64::MAX,
        },
        Operand::Row(start) => {
            let at = start + j;
            Quad {
                first: lanes[at],
                second: lanes[at + 1],
                third: lanes[at + 2],
                fourth: lanes[at + 3],
            }
        }
    }
}

/// Four words of an operand from word `j` on, as a vector.
fn four(lanes: &[u64], operand: Operand, j: usize) -> u64x4
    requires { EndsBefore (length lanes.now) (j + 4) operand }
    ensures value { result ≡ operand_four lanes.now operand j }
    ensures count { length result ≡ 4 }
{
    match operand {
        Operand::Zero => u64x4::splat(0),
        Operand::One => u64x4::splat(u64::MAX),
        Operand::Row(start) => u64x4::from_slice(&lanes[start + j..]),
    }
}

/// Writes four words of a gate's row.
fn write_four(lanes: &mut [u64], masks: Masks, a: Operand, b: Operand, start: usize, j: usize)
    requires room { start + j + 4 ≤ length lanes.old }
    requires first { EndsBefore start (j + 4) a }
    requires second { EndsBefore start (j + 4) b }
    ensures { lanes.new ≡ put_chunk (start + j) lanes.old
        (combined_four masks (operand_four lanes.old a j) (operand_four lanes.old b j)) }
{
    let a = four(lanes, a, j);
    let b = four(lanes, b, j);
    combine_four(masks, a, b).copy_to_slice(&mut lanes[start + j..]);
}

/// Writes one word of a gate's row.
fn write_one(lanes: &mut [u64], masks: Masks, a: Operand, b: Operand, start: usize, j: usize)
    requires room { start + j < length lanes.old }
    requires first { EndsBefore start (j + 1) a }
    requires second { EndsBefore start (j + 1) b }
    ensures { lanes.new ≡ slice_set lanes.old (start + j)
        (combined masks (operand_word lanes.old a j) (operand_word lanes.old b j)) }
{
    let a = word(lanes, a, j);
    let b = word(lanes, b, j);
    lanes[start + j] = combine(masks, a, b);
}

/// Writes a gate's row: whole vectors first, then the remaining words.
#[tactic(auto, using(crate::specs::RowLaws::writing))]
pub fn write_gate(
    lanes: &mut [u64],
    masks: Masks,
    a: Operand,
    b: Operand,
    start: usize,
    width: usize,
)
    requires room { start + width ≡ length lanes.old }
    requires first { EndsBefore start width a }
    requires second { EndsBefore start width b }
    ensures { IsGateRowWritten masks a b start width lanes.old lanes.new }
{
    let mut j: usize = 0;
    while j + 4 <= width {
        write_four(lanes, masks, a, b, start, j);
        j += 4;
    }
    while j < width {
        write_one(lanes, masks, a, b, start, j);
        j += 1;
    }
}
