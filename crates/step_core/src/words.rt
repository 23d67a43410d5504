//! Truth tables in words of 64 rows: whether a word has the values of an output, and whether a step does.
ghost use Rattle.std.specs.Prelude.{◌≡◌, ◌<◌, length};
ghost use Rattle.step_core.specs.Steps.{misses as misses_of, meets_at as meets_at_of, is_met as is_met_of};
ghost use Rattle.step_core.specs.Steps.{all_met as all_met_of};

use crate::stack::StepStack;
use tt_core::Spec;

/// Whether on some row the specified value of an output, counted from 0, isn't that of the word.
#[tactic(auto, unfolding(crate::specs::Steps::misses))]
pub(crate) fn misses(spec: &Spec, word: u64, output: u32) -> bool
    requires { output < length spec.now.on }
    ensures { result ≡ misses_of spec.now word output }
{
    // for the prover: brings in the invariant of the specification
    let _inputs = spec.n();
    (word ^ spec.on()[output as usize]) & spec.care()[output as usize] != 0
}

/// Whether the step of an index, counted from 0, has all specified values of an output.
#[tactic(auto, unfolding(crate::specs::Steps::meets_at))]
pub(crate) fn meets_at(spec: &Spec, stack: &StepStack, output: u32, index: u32) -> bool
    requires inputs { stack.now.n ≡ spec.now.n }
    requires output { output < length spec.now.on }
    requires index { index < length stack.now.steps }
    ensures { result ≡ meets_at_of spec.now stack.now.steps output index }
{
    !misses(spec, stack.word(stack.n() + 1 + index), output)
}

/// Whether some step has all specified values of an output.
#[tactic(auto, using(crate::specs::LoopLaws::passing), unfolding(crate::specs::Steps::is_met))]
pub(crate) fn is_met(spec: &Spec, stack: &StepStack, output: u32) -> bool
    requires inputs { stack.now.n ≡ spec.now.n }
    requires output { output < length spec.now.on }
    ensures { result ≡ is_met_of spec.now stack.now.steps output }
{
    for index in 0..stack.len() {
        if meets_at(spec, stack, output, index) {
            return true;
        }
    }
    false
}

/// Whether each output has a step with its values.
#[tactic(auto, // for the prover
using(crate::specs::LoopLaws::passing), unfolding(crate::specs::Steps::is_missing, crate::specs::Steps::all_met))]
pub(crate) fn all_met(spec: &Spec, stack: &StepStack) -> bool
    requires inputs { stack.now.n ≡ spec.now.n }
    ensures { result ≡ all_met_of spec.now stack.now.steps }
{
    for output in 0..spec.outputs() {
        if !is_met(spec, stack, output) {
            return false;
        }
    }
    true
}
