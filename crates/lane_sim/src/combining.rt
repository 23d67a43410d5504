//! A two-input operator on vectors of four words: the expression of `combine`, with each mask in all four words.

ghost use Rattle.std.specs.Prelude.{◌≡◌, length};
ghost use Rattle.lane_sim.specs.Combining.{combined_four};

use op_basis::Masks;
use std::simd::prelude::*;

/// Applies the operator with the coefficients `masks` to 256 pairs of bits.
#[tactic(auto, unfolding(crate::specs::Combining::combined_four))]
pub fn combine_four(masks: Masks, a: u64x4, b: u64x4) -> u64x4
    requires first { length a ≡ 4 }
    requires second { length b ≡ 4 }
    ensures { result ≡ combined_four masks a b }
{
    u64x4::splat(masks.none)
        ^ (u64x4::splat(masks.first) & a)
        ^ (u64x4::splat(masks.second) & b)
        ^ (u64x4::splat(masks.both) & (a & b))
}
