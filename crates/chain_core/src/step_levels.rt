//! The levels of a chain's steps, and its depth.
ghost use Rattle.std.specs.Prelude.{◌≡◌, ℕ, ◌+◌, ◌<◌, ◌≤◌, length, IfOk};
ghost use Rattle.chain_theory.specs.Chain.{AreSteps};
ghost use Rattle.chain_theory.specs.Levels.{levels_after, depth};
ghost use Rattle.chain_core.specs.Steps.{steps_of};
ghost use Rattle.chain_core.specs.SliceLevels.{slice_levels, levels_of};

use crate::chain::Chain;
use crate::step::Step;
use std::alloc::{AllocError, Global};

/// Writes the level of each step, from the levels of its operands. Place p is at index p; index 0 is unused.
#[tactic(auto, using(crate::specs::StepLaws::standing), unfolding(chain_theory::specs::Levels::levels_after))]
fn levels_into(levels: &mut [u32], n: u32, steps: &[Step])
    requires steps { AreSteps n (steps_of steps.now) }
    requires room { (n + length steps.now < length levels.old) × (length levels.old ≤ 23) }
    requires low { (p : ℕ) → slice_levels levels.old p ≤ n }
    ensures { slice_levels levels.new ≡ levels_after (slice_levels levels.old) (n + 1) (steps_of steps.now) }
{
    let mut last = n as usize;
    let mut left = steps;
    while let Some((step, rest)) = left.split_first() {
        let a = levels[step.j as usize];
        let b = levels[step.k as usize];
        last += 1;
        levels[last] = 1 + a.max(b);
        left = rest;
    }
}

/// The level of each step, in the order of their places: one more than the larger level of its
/// operands, where inputs have the level 0. An error means that memory ran out.
#[tactic(auto, unfolding(crate::specs::SliceLevels::levels_of))]
pub fn levels(alloc: Global, chain: &Chain) -> Result<Vec<u32>, AllocError>
    ensures { IfOk result (λ levels. levels.items ≡ levels_of chain.now) }
{
    // 1 + 6 inputs + 16 steps: index 0 is unused
    let mut of_places = [0; 23];
    let n = chain.n();
    let steps = chain.steps();
    levels_into(&mut of_places, n, steps);
    let mut levels = Vec::new(alloc);
    for place in n as usize + 1..n as usize + 1 + steps.len() {
        levels.push(of_places[place])?;
    }
    Ok(levels)
}

/// The depth of a chain: the greatest level of its steps, 0 where it has none. An error means that
/// memory ran out.
#[tactic(auto, using(crate::proofs::Depths::depths))]
pub fn depth_of(alloc: Global, chain: &Chain) -> Result<u32, AllocError>
    ensures { IfOk result (λ d. d ≡ depth chain.now) }
{
    let levels = levels(alloc, chain)?;
    let mut deepest = 0u32;
    for level in &levels {
        deepest = deepest.max(*level);
    }
    Ok(deepest)
}
