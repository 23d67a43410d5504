//! The stack of the steps that the enumeration has placed, each with its truth table. A step's table is
//! computed once, from those of its operands, when the step is pushed, and is popped with it.
ghost use Rattle.std.specs.Prelude.{◌≡◌, ◌+◌, ◌-◌, ◌++◌, ◌∷◌, ◌<◌, ◌≤◌, [], length, take, IfOk, OnOk};
ghost use Rattle.chain_theory.specs.Chain.{IsStepAt};
ghost use Rattle.chain_laws.specs.Follow.{step_at};
ghost use Rattle.chain_core.specs.Steps.{step_of, steps_of};
ghost use Rattle.step_core.specs.Limits.{most_enumerated_steps};
ghost use Rattle.step_core.specs.Steps.{word_in};
ghost use Rattle.step_core.specs.StepStacks.{IsStepStack};
ghost use Rattle.chain_theory.specs.Limits.{most_inputs};

use chain_core::Step;
use op_basis::{input_word, on_words};
use std::alloc::{AllocError, Global};
use std::marker::Model;

/// A stack of at most seven steps over at most six inputs, with the truth table of each place, and the number of
/// solutions that are still to be skipped. Contracts see the number of inputs and the steps.
#[derive(Drop)]
pub struct StepStack {
    n: u32,
    to_skip: u32,
    words: Vec<u64>,
    steps: Vec<Step>,
}

impl Model for StepStack {
    ghost use Rattle.chain_core.specs.Steps.{steps_of};
    ghost use Rattle.step_core.specs.StepStacks.{StackView, HasStepWords};

    ghost Value = { StackView };

    ghost view = { λ t. record { n = t.n; steps = steps_of t.steps.items } };

    ghost invariant = { λ t. HasStepWords (record { n = t.n; steps = steps_of t.steps.items }) t.words.items };
}

#[tactic(auto, using(crate::specs::StackLaws::stacking))]
impl StepStack {
    /// The empty stack over `n` inputs; `to_skip` solutions are to be skipped.
    pub fn new(alloc: Global, n: u32, to_skip: u32) -> Result<StepStack, AllocError>
        requires { n ≤ most_inputs }
        ensures inputs { IfOk result (λ stack. stack.n ≡ n) }
        ensures empty { IfOk result (λ stack. stack.steps ≡ []) }
    {
        let mut words = Vec::new(alloc);
        for before in 0..n {
            words.push(input_word(n - (before + 1)))?;
        }
        let steps = Vec::new(alloc);
        Ok(StepStack {
            n,
            to_skip,
            words,
            steps,
        })
    }

    /// The number of inputs.
    pub fn n(&self) -> u32
        ensures inputs { result ≡ self.now.n }
        ensures whole { IsStepStack self.now }
    {
        self.n
    }

    /// The number of steps.
    pub fn len(&self) -> u32
        ensures count { result ≡ length self.now.steps }
        ensures whole { IsStepStack self.now }
    {
        self.steps.len() as u32
    }

    /// The step of an index, counted from 0.
    pub fn step(&self, index: u32) -> Step
        requires { index < length self.now.steps }
        ensures step { step_of result ≡ step_at self.now.steps index }
        ensures whole { IsStepStack self.now }
    {
        self.steps[index as usize]
    }

    /// The truth table of a place: row t is the bit of 2^t. Places are numbered from 1.
    pub fn word(&self, place: u32) -> u64
        requires from { 1 ≤ place }
        requires to { place ≤ self.now.n + length self.now.steps }
        ensures word { result ≡ word_in self.now.n self.now.steps place }
        ensures whole { IsStepStack self.now }
    {
        self.words[place as usize - 1]
    }

    /// Pushes a step, at the next place. An error means that memory ran out.
    pub fn push(&mut self, step: Step) -> Result<(), AllocError>
        requires room { length self.old.steps < most_enumerated_steps }
        requires at { IsStepAt (self.old.n + 1 + length self.old.steps) (step_of step) }
        ensures inputs { OnOk result (self.new.n ≡ self.old.n) }
        ensures steps { OnOk result (self.new.steps ≡ self.old.steps ++ step_of step ∷ []) }
    {
        let word = on_words(step.op, self.word(step.j), self.word(step.k));
        self.words.push(word)?;
        if let Err(error) = self.steps.push(step) {
            self.words.pop();
            return Err(AllocError::from(error));
        }
        Ok(())
    }

    /// Whether the enumeration stops at this solution. Else one solution less is to be skipped.
    pub fn stops_here(&mut self) -> bool
        ensures { self.new ≡ self.old }
    {
        if self.to_skip == 0 {
            return true;
        }
        self.to_skip -= 1;
        false
    }

    /// Pops the last step.
    pub fn pop(&mut self)
        requires { 0 < length self.old.steps }
        ensures inputs { self.new.n ≡ self.old.n }
        ensures steps { self.new.steps ≡ take (length self.old.steps - 1) self.old.steps }
    {
        self.words.pop();
        self.steps.pop();
    }

    /// The steps.
    pub fn into_steps(self) -> Vec<Step>
        ensures { steps_of result.items ≡ self.steps }
    {
        let StepStack {
            n: _,
            to_skip: _,
            words: _,
            steps,
        } = self;
        steps
    }
}
