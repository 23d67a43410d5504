//! Whether the missing outputs fall into enough groups. Missing outputs are linked where one of the places that further
//! steps read is essential for both. The steps that give a group of linked outputs are joined, and `k` joined steps read
//! at most `k` + 1 of the places. So few steps that read many places need many groups.
ghost use Rattle.std.specs.Prelude.{◌≡◌, ◌+◌, ◌<◌, false, length};
ghost use Rattle.chain_theory.specs.Operator.{digit, Basis as Operators};
ghost use Rattle.step_core.specs.Reads.{IsMissingMask, NoneReading};
ghost use Rattle.step_core.specs.Shares.{HasFewGroups};
ghost use Rattle.step_core.specs.GroupLaws.{AreClashing, AreTouched, IsMerged, IsGrown, IsGroup};

use crate::determined::{alike, cared_for, has_clash, is_one};
use crate::masks::{count, has, put};
use crate::stack::StepStack;
use tt_core::Spec;

/// The set `touched`, with each missing output that specifies a value on the row and the other value on one of the rows
/// `same`.
#[tactic(auto, using(crate::specs::GroupLaws::touching))]
fn with_clashing(spec: &Spec, missing: u32, touched: u32, row: u32, same: u64) -> u32
    requires row { row < 64 }
    ensures { AreClashing spec.now (digit missing) (digit touched) row same (digit result) }
{
    // for the prover: brings in the invariant of the specification
    let _inputs = spec.n();
    let mut wider = touched;
    for output in 0..spec.outputs() {
        if !has(missing, output) {
            continue;
        }
        if !has_clash(spec, output, row, same) {
            continue;
        }
        wider = put(wider, output, true);
    }
    wider
}

/// The missing outputs that the place `before` + 1 is essential for, of the places of the set.
#[tactic(auto, using(crate::specs::GroupLaws::touching))]
fn touched_by(spec: &Spec, stack: &StepStack, reads: u32, missing: u32, before: u32) -> u32
    requires inputs { stack.now.n ≡ spec.now.n }
    requires missing { IsMissingMask spec.now stack.now.steps missing }
    requires place { before < stack.now.n + length stack.now.steps }
    ensures { AreTouched spec.now stack.now.steps (digit reads) before (digit result) }
{
    // for the prover: bring in the invariants
    let _inputs = spec.n();
    let _steps = stack.len();
    let others = put(reads, before, false);
    let mut rows = cared_for(spec, missing);
    let mut touched = 0u32;
    for row in 0..64u32 {
        if !is_one(rows, row) {
            continue;
        }
        if touched == missing {
            return touched;
        }
        let same = alike(stack, others, row);
        touched = with_clashing(spec, missing, touched, row, same);
        rows ^= rows & same;
    }
    touched
}

/// The group, with the outputs of a place that touches one of it.
fn merged(group: u32, touched: u32) -> u32
    ensures { IsMerged (digit group) (digit touched) (digit result) }
{
    if group & touched == 0 {
        return group;
    }
    group | touched
}

/// The group, with the outputs that the places of the set link with it, one place after the other.
#[tactic(auto, using(crate::specs::GroupLaws::grouping))]
fn grown(spec: &Spec, stack: &StepStack, reads: u32, missing: u32, group: u32) -> u32
    requires inputs { stack.now.n ≡ spec.now.n }
    requires missing { IsMissingMask spec.now stack.now.steps missing }
    ensures { IsGrown spec.now stack.now.steps (digit reads) (digit group) (digit result) }
{
    let mut wider = group;
    for before in 0..stack.n() + stack.len() {
        if !has(reads, before) {
            continue;
        }
        if wider == missing {
            return wider;
        }
        let touched = touched_by(spec, stack, reads, missing, before);
        wider = merged(wider, touched);
    }
    wider
}

/// The outputs that are linked with the given one.
#[tactic(auto, using(crate::specs::GroupLaws::grouping))]
fn group_of(spec: &Spec, stack: &StepStack, reads: u32, missing: u32, output: u32) -> u32
    requires inputs { stack.now.n ≡ spec.now.n }
    requires missing { IsMissingMask spec.now stack.now.steps missing }
    requires output { output < 32 }
    ensures { IsGroup spec.now stack.now.steps (digit reads) output (digit result) }
{
    let mut group = put(0, output, true);
    for _round in 0..spec.outputs() {
        let wider = grown(spec, stack, reads, missing, group);
        if wider == group {
            return group;
        }
        group = wider;
    }
    group
}

/// Whether the missing outputs fall into at least `bound` groups.
#[tactic(auto, using(crate::specs::GroupLaws::covering))]
fn has_groups(spec: &Spec, stack: &StepStack, reads: u32, missing: u32, bound: u32) -> bool
    requires inputs { stack.now.n ≡ spec.now.n }
    requires missing { IsMissingMask spec.now stack.now.steps missing }
    ensures { result ≡ false → HasFewGroups spec.now stack.now.steps (digit reads) bound }
{
    // for the prover: brings in the invariant of the specification
    let _inputs = spec.n();
    let mut starts = 0u32;
    let mut covered = 0u32;
    for output in 0..spec.outputs() {
        if !has(missing, output) {
            continue;
        }
        if has(covered, output) {
            continue;
        }
        starts = put(starts, output, true);
        if count(starts, spec.outputs()) >= bound {
            return true;
        }
        covered |= group_of(spec, stack, reads, missing, output);
    }
    count(starts, spec.outputs()) >= bound
}

/// Whether the missing outputs fall into so many groups that `left` steps can read all places of the set. It is asked
/// where more than one group is needed, and counts as work then.
pub(crate) fn may_share(
    spec: &Spec,
    stack: &StepStack,
    left: u32,
    reads: u32,
    missing: u32,
    work: &mut u32,
) -> bool
    requires inputs { stack.now.n ≡ spec.now.n }
    requires missing { IsMissingMask spec.now stack.now.steps missing }
    ensures { result ≡ false → (basis : Operators) → NoneReading spec.now basis stack.now.steps left (digit reads) }
{
    // for the prover: brings in the invariant of the specification
    let _inputs = spec.n();
    let read = count(reads, stack.n() + stack.len());
    let groups = read.saturating_sub(left);
    if groups < 2 {
        return true;
    }
    *work = work.saturating_sub(1);
    has_groups(spec, stack, reads, missing, groups)
}
