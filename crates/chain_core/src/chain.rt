//! A chain of bounded size. Contracts see it as a chain of `chain_theory`.
ghost use Rattle.std.specs.Prelude.{◌≡◌};
ghost use Rattle.chain_core.specs.Steps.{steps_of, IsSmallChain};

use crate::step::Step;
use chain_theory::Out;
use std::marker::Model;

/// A Boolean chain (TAOCP 7.1.2) of at most 6 inputs, 16 steps and 8 outputs.
#[derive(Drop)]
pub struct Chain {
    n: u32,
    steps: Vec<Step>,
    outs: Vec<Out>,
}

impl Model for Chain {
    ghost use Rattle.chain_theory.specs.Chain as chain;
    ghost use Rattle.chain_core.specs.Steps.{steps_of, IsSmallChain};

    ghost Value = { chain.Chain };

    ghost view = { λ c. record { n = c.n; steps = steps_of c.steps.items; outs = c.outs.items } };

    ghost invariant = { λ c. IsSmallChain (record { n = c.n; steps = steps_of c.steps.items; outs = c.outs.items }) };
}

impl Chain {
    /// The chain with `n` inputs, these steps, the first of them at the place `n + 1`, and these outs.
    pub fn new(n: u32, steps: Vec<Step>, outs: Vec<Out>) -> Chain
        requires { IsSmallChain (record { n = n; steps = steps_of steps.items; outs = outs.items }) }
        ensures { result ≡ record { n = n; steps = steps_of steps.items; outs = outs.items } }
    {
        Chain { n, steps, outs }
    }

    /// The number of inputs.
    pub fn n(&self) -> u32
        ensures n { result ≡ self.now.n }
        ensures small { IsSmallChain self.now }
    {
        self.n
    }

    /// The steps in the order of their places.
    pub fn steps(&self) -> &[Step]
        ensures steps { steps_of result.now ≡ self.now.steps }
        ensures small { IsSmallChain self.now }
    {
        &self.steps
    }

    /// The outs, one for each output, in order.
    pub fn outs(&self) -> &[Out]
        ensures outs { result.now ≡ self.now.outs }
        ensures small { IsSmallChain self.now }
    {
        &self.outs
    }
}
