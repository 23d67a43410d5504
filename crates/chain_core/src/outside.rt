//! Comparison of a chain with a basis.

ghost use Rattle.std.specs.Prelude.{◌≡◌, ◌+◌, ◌^◌, ◌<◌, length};
ghost use Rattle.op_basis.specs.Basis.{members};
ghost use Rattle.chain_core.specs.Steps.{steps_of};
ghost use Rattle.chain_core.specs.Outside.{IsBasisCheck, outside_from};

use crate::chain::Chain;
use crate::step::Step;
use op_basis::Basis;

/// The first place with an operator outside a basis, among steps of which the first is at `first`.
#[tactic(auto, unfolding(crate::specs::Outside::outside_from))]
fn outside_from(first: u32, steps: &[Step], basis: Basis) -> Option<u32>
    requires { first + length steps.now < 2 ^ 32 }
    ensures { result ≡ outside_from (members basis) first (steps_of steps.now) }
{
    let mut place = first;
    let mut left = steps;
    while let Some((step, rest)) = left.split_first() {
        if !basis.contains(step.op) {
            return Some(place);
        }
        place += 1;
        left = rest;
    }
    None
}

/// The first place whose operator isn't in a basis; None where the chain is over the basis.
#[tactic(auto, using(crate::specs::OutsideLaws::judging))]
pub fn first_outside(chain: &Chain, basis: Basis) -> Option<u32>
    ensures { IsBasisCheck (members basis) chain.now result }
{
    outside_from(chain.n() + 1, chain.steps(), basis)
}
