//! The data of stronger formulas.

/// Two rows that differ in one input alone, an edge of the Boolean cube: the input is 0 on row `low` and 1 on row
/// `high`.
#[derive(Clone, Copy)]
pub struct Edge {
    pub input: u32,
    pub low: u32,
    pub high: u32,
}
