//! The stages of moves: when each ends, and how much work it does. 100,000 units take about a millisecond.

/// What the first stage does for each gate: for those up to a number of them, for the further ones up to another, and
/// so on.
const FIRST_WORK: [(u64, u64); 4] = [
    (100, 400_000),
    (1_500, 300_000),
    (10_000, 30_000),
    (u64::MAX, 10_000),
];

/// The first stage ends when this part of its work was done without a gain.
const PATIENCE_PART: u64 = 2;

/// The work of one unit of effort for each gate.
const EFFORT_WORK: u64 = 50_000;

/// A net of fewer gates gets the work of so many.
const LEAST_GATES: u64 = 8;

/// The work of the first stage for each gate, in a net of so many.
pub fn first_work(gates: usize) -> u64 {
    let gates = (gates as u64).max(LEAST_GATES);
    let mut work = 0u64;
    let mut begin = 0u64;
    for (end, each) in FIRST_WORK {
        let count = gates.min(end).saturating_sub(begin);
        work = work.saturating_add(each.saturating_mul(count));
        begin = end;
    }
    work / gates
}

/// How much of that work may be without a gain.
pub fn first_patience(gates: usize) -> u64 {
    first_work(gates) / PATIENCE_PART
}

/// The length of the stages about an effort: 1, 2, 5, 10 and so on, a tenth to a fifth of it.
fn length_at(effort: u32) -> u32 {
    for (most, length) in [(10, 1), (20, 2), (50, 5), (100, 10), (200, 20), (500, 50)] {
        if effort <= most {
            return length;
        }
    }
    100
}

/// The work of the stage that ends at an effort, for a net of so many gates; 0 where none ends.
pub fn stage_work(effort: u32, gates: usize) -> u64 {
    let length = length_at(effort);
    if length == 0 {
        return 0;
    }
    if effort % length != 0 {
        return 0;
    }
    let gates = (gates as u64).max(LEAST_GATES);
    EFFORT_WORK
        .saturating_mul(u64::from(length))
        .saturating_mul(gates)
}
