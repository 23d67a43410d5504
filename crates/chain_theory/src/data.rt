//! Cells and outs, the two enums that the definitions share with programs, and the greatest size of a chain
//! that programs search for, read or write.

/// The most steps of a chain that programs search for, read or write. The definitions have no bound.
pub const MOST_STEPS: u32 = 16;

/// An entry of an output's truth table: what a specification requires of the output on a row.
#[derive(Clone, Copy)]
pub enum Cell {
    /// The output is 0 on the row.
    Zero,
    /// The output is 1 on the row.
    One,
    /// The output may be either: a don't-care.
    Free,
}

/// What an output of a chain is.
#[derive(Clone, Copy, PartialEq, Eq)]
pub enum Out {
    /// The constant 0.
    Zero,
    /// The constant 1.
    One,
    /// The value of a place: 1 to n are the inputs, and n + 1 onward are the steps.
    Place(u32),
}
