//! Places that wait to be read. In a chain in normal form each step is an out or is read, and each input in the
//! support of an output is read. A step reads two places. So the enumeration backtracks when more than two
//! places wait for each step that is left, and skips a pair of operands that leaves more than two for each step
//! after it.
ghost use Rattle.std.specs.Prelude.{◌≡◌, ◌+◌, ◌<◌, ◌≤◌, false, length};
ghost use Rattle.chain_theory.specs.Operator.{Basis as Operators};
ghost use Rattle.step_core.specs.Limits.{most_enumerated_steps};
ghost use Rattle.step_core.specs.Enumeration.{NoneWith, HasPair};
ghost use Rattle.step_core.specs.Waits.{reads_at as reads_at_of, is_read as is_read_of};
ghost use Rattle.step_core.specs.Waits.{has_in_support as asks_for_of};
ghost use Rattle.step_core.specs.Waits.{is_in_some_support as is_asked_of, is_needed as is_needed_of};
ghost use Rattle.step_core.specs.Waits.{waits as waits_of, waiting as waiting_of};

use crate::pruning::meets_some;
use crate::stack::StepStack;
use bound_core::uses;
use tt_core::Spec;

/// Whether the step of an index reads a place.
#[tactic(auto, using(crate::specs::WaitLaws::reading))]
fn reads_at(stack: &StepStack, place: u32, index: u32) -> bool
    requires { index < length stack.now.steps }
    ensures { result ≡ reads_at_of stack.now.steps place index }
{
    let step = stack.step(index);
    step.j == place || step.k == place
}

/// Whether some step reads a place.
#[tactic(auto, using(crate::specs::LoopLaws::passing), unfolding(crate::specs::Waits::is_read))]
fn is_read(stack: &StepStack, place: u32) -> bool
    ensures { result ≡ is_read_of stack.now.steps place }
{
    for index in 0..stack.len() {
        if reads_at(stack, place, index) {
            return true;
        }
    }
    false
}

/// Whether an input is in the support of an output. The input is given by its place, the output is counted from 0.
#[tactic(auto, unfolding(crate::specs::Waits::has_in_support))]
fn has_in_support(spec: &Spec, place: u32, output: u32) -> bool
    requires output { output < length spec.now.on }
    requires place_from { 1 ≤ place }
    requires place { place ≤ spec.now.n }
    ensures { result ≡ asks_for_of spec.now place output }
{
    // for the prover: brings in the invariant of the specification
    let _inputs = spec.n();
    uses(spec, output + 1, place)
}

/// Whether an input is in the support of some output.
#[tactic(auto, using(crate::specs::LoopLaws::passing), unfolding(crate::specs::Waits::is_in_some_support))]
fn is_in_some_support(spec: &Spec, place: u32) -> bool
    requires place_from { 1 ≤ place }
    requires place { place ≤ spec.now.n }
    ensures { result ≡ is_asked_of spec.now place }
{
    for output in 0..spec.outputs() {
        if has_in_support(spec, place, output) {
            return true;
        }
    }
    false
}

/// Whether a place has to be read: an input in the support of some output, or a step that has the values of no
/// output.
#[tactic(auto, using(crate::specs::WaitLaws::waiting_for))]
fn is_needed(spec: &Spec, stack: &StepStack, place: u32) -> bool
    requires inputs { stack.now.n ≡ spec.now.n }
    requires place_from { 1 ≤ place }
    requires place { place ≤ stack.now.n + length stack.now.steps }
    ensures { result ≡ is_needed_of spec.now stack.now.steps place }
{
    if place <= spec.n() {
        return is_in_some_support(spec, place);
    }
    !meets_some(spec, stack.word(place))
}

/// Whether the place `before` + 1 waits: it has to be read, and no step reads it yet.
#[tactic(auto, unfolding(crate::specs::Waits::waits))]
fn waits(spec: &Spec, stack: &StepStack, before: u32) -> bool
    requires inputs { stack.now.n ≡ spec.now.n }
    requires place { before < stack.now.n + length stack.now.steps }
    ensures { result ≡ waits_of spec.now stack.now.steps before }
{
    // for the prover: bring in the invariants
    let _inputs = spec.n();
    let _steps = stack.len();
    !is_read(stack, before + 1) && is_needed(spec, stack, before + 1)
}

/// How many places wait to be read.
#[tactic(auto, using(crate::specs::LoopLaws::counting))]
pub(crate) fn waiting(spec: &Spec, stack: &StepStack) -> u32
    requires { stack.now.n ≡ spec.now.n }
    ensures { result ≡ waiting_of spec.now stack.now.steps }
{
    let mut count = 0u32;
    for before in 0..stack.n() + stack.len() {
        count += u32::from(waits(spec, stack, before));
    }
    count
}

/// Whether a step with the operands `low` and `high` leaves at most as many places waiting as the steps after
/// it can read. `left` counts the steps that are left, this one included; `waiting` counts the places that wait
/// before it.
#[tactic(auto, using(crate::specs::WaitLaws::leaving))]
pub(crate) fn leaves_few(
    spec: &Spec,
    stack: &StepStack,
    left: u32,
    waiting: u32,
    low: u32,
    high: u32,
) -> bool
    requires inputs { stack.now.n ≡ spec.now.n }
    requires some { 1 ≤ left }
    requires few { left ≤ most_enumerated_steps }
    requires waiting { waiting ≡ waiting_of spec.now stack.now.steps }
    requires low_from { 1 ≤ low }
    requires low { low ≤ high }
    requires high { high ≤ stack.now.n + length stack.now.steps }
    ensures { result ≡ false → (basis : Operators) → NoneWith spec.now basis stack.now.steps left (HasPair low high) }
{
    // for the prover: brings in the invariant of the specification
    let _inputs = spec.n();
    let room = 2 * (left - 1);
    if waiting <= room {
        return true;
    }
    let first = u32::from(waits(spec, stack, low - 1));
    let second = u32::from(waits(spec, stack, high - 1));
    waiting <= room + first + second
}
