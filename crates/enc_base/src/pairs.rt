//! The pairs of operands that a step may have.
ghost use Rattle.std.specs.Prelude.{◌≡◌, ◌≤◌, ◌++◌, IfOk, OnOk};
ghost use Rattle.enc_theory.specs.Pairs.{pairs_of as pairs_of_pair, pairs_with, pairs_below as pairs_below_of};

use enc_theory::Pair;
use std::alloc::{AllocError, Global};

/// The pairs that each step may have.
pub trait Pairs {
    ghost use Rattle.std.specs.Prelude.{◌≡◌, ℕ, ◌≤◌, List, All, length, IfOk};
    ghost use Rattle.enc_theory.specs.declared.data.Pair.{Pair};
    ghost use Rattle.enc_base.specs.Room.{IsPair};

    /// The definition of the pairs of the step at a place, in order.
    ghost pairs_of: { Self → ℕ → List Pair };

    /// The pairs of the step at a place.
    fn pairs(&self, alloc: Global, place: u32) -> Result<Vec<Pair>, AllocError>
        requires { (1 ≤ place) × (place ≤ 22) }
        ensures { IfOk result (λ pairs. pairs.items ≡ pairs_of self.now place) };

    /// Both operands of each pair are places below the step.
    ghost below: { (pairs : Self) (place : ℕ) → All (IsPair place) (pairs_of pairs place) };

    /// A step within the program's bounds has at most 1,000 pairs.
    ghost few: { (pairs : Self) (place : ℕ) → place ≤ 22 → length (pairs_of pairs place) ≤ 1000 };
}

/// All pairs of places below a step; if ordered, only those with j <= k.
#[derive(Clone, Copy)]
pub struct AllPairs {
    pub ordered: bool,
}

/// Adds the pairs of two different places.
#[tactic(auto, unfolding(enc_theory::specs::Pairs::pairs_of))]
fn push_pairs_of(
    pairs: &mut Vec<Pair>,
    ordered: bool,
    large: u32,
    small: u32,
) -> Result<(), AllocError>
    ensures { OnOk result (pairs.new.items ≡ pairs.old.items ++ pairs_of_pair ordered large small) }
{
    pairs.push(Pair { j: small, k: large })?;
    if ordered {
        return Ok(());
    }
    pairs.push(Pair { j: large, k: small })?;
    Ok(())
}

/// Adds the pairs whose larger operand is a given place, in order; if ordered, only those with j <= k.
#[tactic(auto, using(clause_core::specs::RangeLaws::loops), unfolding(enc_theory::specs::Pairs::pairs_with))]
pub fn push_pairs_with(pairs: &mut Vec<Pair>, ordered: bool, large: u32) -> Result<(), AllocError>
    requires { 1 ≤ large }
    ensures { OnOk result (pairs.new.items ≡ pairs.old.items ++ pairs_with ordered large) }
{
    pairs.push(Pair { j: large, k: large })?;
    for small in 1..large {
        push_pairs_of(pairs, ordered, large, small)?;
    }
    Ok(())
}

/// The pairs of places below one, in order.
#[tactic(auto, using(clause_core::specs::RangeLaws::loops), unfolding(enc_theory::specs::Pairs::pairs_below))]
fn pairs_below(alloc: Global, ordered: bool, place: u32) -> Result<Vec<Pair>, AllocError>
    requires { 1 ≤ place }
    ensures { IfOk result (λ pairs. pairs.items ≡ pairs_below_of ordered place) }
{
    let mut pairs = Vec::new(alloc);
    for large in 1..place {
        push_pairs_with(&mut pairs, ordered, large)?;
    }
    Ok(pairs)
}

impl Pairs for AllPairs {
    ghost use Rattle.enc_theory.specs.Pairs.{pairs_below};
    ghost use Rattle.enc_base.specs.PairLaws.{pairs_below-below, pairs_below-few};

    ghost pairs_of = { λ pairs place. pairs_below pairs.ordered place };

    ghost below = { λ pairs place. pairs_below-below pairs.ordered place };

    ghost few = { λ pairs place low. pairs_below-few pairs.ordered place low };

    fn pairs(&self, alloc: Global, place: u32) -> Result<Vec<Pair>, AllocError> {
        pairs_below(alloc, self.ordered, place)
    }
}
