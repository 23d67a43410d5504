//! Values of places on a row (simulation). The steps are computed once, in order, and each writes its
//! bit into an array at the index of its place. The loop invariant is an equation: the definition,
//! applied to the array and the steps that are left, gives the same bits.
ghost use Rattle.std.specs.Prelude.{◌≡◌, ℕ, ◌+◌, ◌^◌, ◌<◌, ◌≤◌, length};
ghost use Rattle.chain_theory.specs.Chain.{AreSteps};
ghost use Rattle.chain_theory.specs.Specification.{input};
ghost use Rattle.chain_theory.specs.Value.{values_after, value as value_of};
ghost use Rattle.chain_theory.specs.Agreement.{output_value};
ghost use Rattle.chain_core.specs.Steps.{steps_of};
ghost use Rattle.chain_core.specs.Bits.{bits};
ghost use Rattle.chain_theory.specs.Limits.{most_inputs};

use crate::chain::Chain;
use crate::step::Step;
use chain_theory::Out;

/// Writes the bits of the inputs on a row. Place p is at index p; index 0 is unused.
#[tactic(auto, unfolding(crate::specs::Bits::bits))]
fn inputs_into(values: &mut [bool], n: u32, row: u32)
    requires few { n ≤ most_inputs }
    requires room { n < length values.old }
    ensures { (p : ℕ) → 1 ≤ p → p ≤ n → bits values.new p ≡ input n row p }
{
    for place in 1..n + 1 {
        values[place as usize] = (row >> (n - place)) & 1 == 1;
    }
}

/// Writes the values of the steps, each from the bits at its operands' places.
#[tactic(auto, using(crate::specs::StepLaws::standing), unfolding(chain_theory::specs::Value::values_after))]
fn steps_into(values: &mut [bool], n: u32, steps: &[Step])
    requires steps { AreSteps n (steps_of steps.now) }
    requires room { n + length steps.now < length values.old }
    ensures { bits values.new ≡ values_after (bits values.old) (n + 1) (steps_of steps.now) }
{
    let mut last = n as usize;
    let mut left = steps;
    while let Some((step, rest)) = left.split_first() {
        let a = values[step.j as usize];
        let b = values[step.k as usize];
        last += 1;
        values[last] = step.op.apply(a, b);
        left = rest;
    }
}

/// The value of a place on a row. Places are numbered from 1: first the inputs, then the steps. A row
/// is below 2^n, and its most significant bit is that of place 1.
pub fn value(chain: &Chain, row: u32, place: u32) -> bool
    requires row { row < 2 ^ chain.now.n }
    requires from { 1 ≤ place }
    requires to { place ≤ chain.now.n + length chain.now.steps }
    ensures { result ≡ value_of chain.now row place }
{
    // 1 + 6 inputs + 16 steps: index 0 is unused
    let mut values = [false; 23];
    let n = chain.n();
    inputs_into(&mut values, n, row);
    steps_into(&mut values, n, chain.steps());
    values[place as usize]
}

/// The value of an output on a row. Outputs are numbered from 1.
pub fn out_value(chain: &Chain, row: u32, h: u32) -> bool
    requires row { row < 2 ^ chain.now.n }
    requires from { 1 ≤ h }
    requires to { h ≤ length chain.now.outs }
    ensures { result ≡ output_value chain.now h row }
{
    match chain.outs()[h as usize - 1] {
        Out::Zero => false,
        Out::One => true,
        Out::Place(place) => value(chain, row, place),
    }
}
