//! The pruning rules of the enumeration, except that of unread places (`waits`). Outputs that differ need
//! different steps; a step that is 1 on row 0 and isn't an output is replaced by its complement, if the basis
//! is closed under complements; pairs of operands come in co-lexicographic order.
//!
//! Each rule is a test with a contract: if it fails, no chain in normal form goes on like this (`NoneWith`).
ghost use Rattle.std.specs.Prelude.{◌≡◌, ℕ, ◌+◌, ◌<◌, true, false, List, length};
ghost use Rattle.chain_theory.specs.Operator.{digit, Basis as Operators};
ghost use Rattle.chain_theory.specs.Chain.{Step as StepOf, IsStepAt};
ghost use Rattle.op_basis.specs.Basis.{members};
ghost use Rattle.tt_core.specs.Words.{Words};
ghost use Rattle.chain_core.specs.Steps.{step_of};
ghost use Rattle.chain_laws.specs.Keys.{ComesBefore};
ghost use Rattle.step_core.specs.Enumeration.{NoneWith, HasPair, IsGivenStep};
ghost use Rattle.step_core.specs.Pruning.{are_compatible as are_alike_of, is_incompatible as is_apart_of};
ghost use Rattle.step_core.specs.Pruning.{is_due as is_due_of, due as due_of, meets as meets_of};
ghost use Rattle.step_core.specs.Pruning.{meets_some as meets_some_of, gives as gives_of};
ghost use Rattle.step_core.specs.Pruning.{gives_some as gives_some_of};
ghost use Rattle.step_core.specs.Pruning.{depends_on_one as follows_one_of, is_constant as is_constant_of};

use crate::rules::Rules;
use crate::stack::StepStack;
use crate::words::{is_met, misses};
use chain_core::Step;
use op_basis::{Op, on_words};
use tt_core::Spec;

/// Whether two outputs are compatible: no row specifies different values for them. Outputs are counted from 0.
#[tactic(auto, unfolding(crate::specs::Pruning::are_compatible))]
fn are_compatible(spec: &Spec, output: u32, before: u32) -> bool
    requires output { output < length spec.now.on }
    requires before { before < length spec.now.on }
    ensures { result ≡ are_alike_of spec.now output before }
{
    // for the prover: brings in the invariant of the specification
    let _inputs = spec.n();
    let rows = spec.on()[output as usize] ^ spec.on()[before as usize];
    rows & spec.care()[output as usize] & spec.care()[before as usize] == 0
}

/// Whether an output is compatible with no output before it.
#[tactic(auto, using(crate::specs::LoopLaws::passing), unfolding(crate::specs::Pruning::is_incompatible))]
fn is_incompatible(spec: &Spec, output: u32) -> bool
    requires { output < length spec.now.on }
    ensures { result ≡ is_apart_of spec.now output }
{
    for before in 0..output {
        if are_compatible(spec, output, before) {
            return false;
        }
    }
    true
}

/// Whether an output needs a further step of its own: it is compatible with no output before it, and no step
/// has its values.
#[tactic(auto, unfolding(crate::specs::Pruning::is_due, crate::specs::Steps::is_missing))]
fn is_due(spec: &Spec, stack: &StepStack, output: u32) -> bool
    requires inputs { stack.now.n ≡ spec.now.n }
    requires output { output < length spec.now.on }
    ensures { result ≡ is_due_of spec.now stack.now.steps output }
{
    is_incompatible(spec, output) && !is_met(spec, stack, output)
}

/// How many outputs need further steps of their own.
#[tactic(auto, using(crate::specs::LoopLaws::counting))]
pub(crate) fn due(spec: &Spec, stack: &StepStack) -> u32
    requires { stack.now.n ≡ spec.now.n }
    ensures { result ≡ due_of spec.now stack.now.steps }
{
    let mut count = 0u32;
    for output in 0..spec.outputs() {
        count += u32::from(is_due(spec, stack, output));
    }
    count
}

/// Whether a word has all specified values of an output.
#[tactic(auto, unfolding(crate::specs::Pruning::meets))]
fn meets(spec: &Spec, word: u64, output: u32) -> bool
    requires { output < length spec.now.on }
    ensures { result ≡ meets_of spec.now word output }
{
    !misses(spec, word, output)
}

/// Whether a word has all specified values of some output.
#[tactic(auto, using(crate::specs::LoopLaws::passing), unfolding(crate::specs::Pruning::meets_some))]
pub(crate) fn meets_some(spec: &Spec, word: u64) -> bool
    ensures { result ≡ meets_some_of spec.now word }
{
    for output in 0..spec.outputs() {
        if meets(spec, word, output) {
            return true;
        }
    }
    false
}

/// Whether a word has the values of this output, and no step has them yet.
#[tactic(auto, unfolding(crate::specs::Pruning::gives, crate::specs::Steps::is_missing))]
fn gives(spec: &Spec, stack: &StepStack, word: u64, output: u32) -> bool
    requires inputs { stack.now.n ≡ spec.now.n }
    requires output { output < length spec.now.on }
    ensures { result ≡ gives_of spec.now stack.now.steps word output }
{
    meets(spec, word, output) && !is_met(spec, stack, output)
}

/// Whether a word has the values of an output that no step has yet.
#[tactic(auto, using(crate::specs::LoopLaws::passing), unfolding(crate::specs::Pruning::gives_some))]
pub(crate) fn gives_some(spec: &Spec, stack: &StepStack, word: u64) -> bool
    requires { stack.now.n ≡ spec.now.n }
    ensures { result ≡ gives_some_of spec.now stack.now.steps word }
{
    for output in 0..spec.outputs() {
        if gives(spec, stack, word, output) {
            return true;
        }
    }
    false
}

/// Whether a word is 1 on row 0.
fn starts_with_one(word: u64) -> bool
    ensures { result ≡ digit word 0 }
{
    (word >> 0u32) & 1 == 1
}

/// Whether the step with these operands and this operator may come next. `left` is the number of steps that are
/// left, this one included, and `due` that of the outputs that still need one. If all of them are due, the step
/// has to have the values of a missing output. It has to be 0 on row 0 or an output, if the basis is closed
/// under complements.
#[tactic(auto, using(crate::specs::NormalFormLaws::coming))]
pub(crate) fn may_come(
    spec: &Spec,
    rules: &Rules,
    stack: &StepStack,
    left: u32,
    due: u32,
    j: u32,
    k: u32,
    op: Op,
) -> bool
    requires inputs { stack.now.n ≡ spec.now.n }
    requires due { due ≡ due_of spec.now stack.now.steps }
    requires at { IsStepAt (stack.now.n + 1 + length stack.now.steps) (record { j = j; k = k; op = op }) }
    ensures { result ≡ false → NoneWith spec.now (members rules.now.basis) stack.now.steps left
        (IsGivenStep (record { j = j; k = k; op = op })) }
{
    // for the prover: brings in the invariant of the specification
    let _inputs = spec.n();
    let word = on_words(op, stack.word(j), stack.word(k));
    if rules.normal() && starts_with_one(word) && !meets_some(spec, word) {
        return false;
    }
    due < left || gives_some(spec, stack, word)
}

/// Whether the pair of operands `low` and `high` comes before that of the step `last` in co-lexicographic order.
#[tactic(auto, using(crate::specs::NormalFormLaws::coming))]
fn comes_before(low: u32, high: u32, last: Step) -> bool
    ensures { result ≡ true → (s : StepOf) → HasPair low high s → ComesBefore s (step_of last) }
{
    let larger = last.j.max(last.k);
    let smaller = if last.j == last.k {
        0
    } else {
        last.j.min(last.k)
    };
    let own = if low == high { 0 } else { low };
    high < larger || (high == larger && own < smaller)
}

/// Whether a step with the operands `low` and `high` may follow the last one.
#[tactic(auto, using(crate::specs::NormalFormLaws::coming))]
pub(crate) fn may_follow(stack: &StepStack, low: u32, high: u32) -> bool
    ensures { result ≡ false → (w : Words) (basis : Operators) (left : ℕ) →
        NoneWith w basis stack.now.steps left (HasPair low high) }
{
    let count = stack.len();
    if count == 0 {
        return true;
    }
    !comes_before(low, high, stack.step(count - 1))
}

/// Whether an operator is one of its operands or its complement: the words 0011, 0101, 1100 and 1010.
#[tactic(auto, unfolding(crate::specs::Pruning::depends_on_one))]
fn depends_on_one(op: Op) -> bool
    ensures { result ≡ follows_one_of op }
{
    let word = op.get();
    word == 3 || word == 5 || word == 12 || word == 10
}

/// Whether an operator is a constant: the words 0000 and 1111.
#[tactic(auto, unfolding(crate::specs::Pruning::is_constant))]
fn is_constant(op: Op) -> bool
    ensures { result ≡ is_constant_of op }
{
    let word = op.get();
    word == 0 || word == 15
}

/// Whether an operator is nontrivial on these operands. On different operands it depends on both; on equal
/// operands it is a negation. Constants, and copies of equal operands, are ruled out only if the basis lets
/// constants be left out.
#[tactic(auto, using(crate::specs::NormalFormLaws::coming))]
pub(crate) fn is_nontrivial(rules: &Rules, j: u32, k: u32, op: Op) -> bool
    ensures { result ≡ false → (w : Words) (prefix : List StepOf) (left : ℕ) →
        NoneWith w (members rules.now.basis) prefix left (IsGivenStep (record { j = j; k = k; op = op })) }
{
    if j == k {
        return !rules.constants() || (op.apply(false, false) && !op.apply(true, true));
    }
    !depends_on_one(op) && !(rules.constants() && is_constant(op))
}
