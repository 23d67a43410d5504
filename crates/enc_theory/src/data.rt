//! The data of formulas: dimensions, pairs of operands, and selection variables (Kojevnikov, Kulikov and
//! Yaroslavtsev, and Haaswijk and others, call the variables x, g, f and s).

/// The dimensions of a formula: `n` inputs, `r` steps and `m` outputs.
#[derive(Clone, Copy)]
pub struct Dimensions {
    pub n: u32,
    pub r: u32,
    pub m: u32,
}

/// The operands of a step: two places below its own.
#[derive(Clone, Copy)]
pub struct Pair {
    pub j: u32,
    pub k: u32,
}

/// A pair that a step may have, with its selection variable, which is true if the step has this pair.
#[derive(Clone, Copy)]
pub struct Slot {
    pub j: u32,
    pub k: u32,
    pub var: u32,
}

/// The first or the second operand of a step.
#[derive(Clone, Copy)]
pub enum Side {
    First,
    Second,
}
