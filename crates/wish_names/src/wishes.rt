//! The wishes.

/// How many levels the written netlist may have, and whether the report tells them.
#[derive(Clone, Copy, PartialEq, Eq)]
pub enum LevelsAsked {
    /// Any number, which isn't told.
    Untold,
    /// Any number.
    Tell,
    /// No more than there were.
    Keep,
    /// No more than so many, or than there were where these are more.
    Most(u32),
}

/// The form of an AIGER file that is written.
#[derive(Clone, Copy, PartialEq, Eq)]
pub enum FormAsked {
    /// The form that was read.
    Given,
    /// The ASCII form.
    Ascii,
    /// The binary form.
    Binary,
}

/// The rows by which the tables of BLIF are written.
#[derive(Clone, Copy, PartialEq, Eq)]
pub enum CoversAsked {
    /// Those with 1.
    Rows,
    /// Of each table those with 1 or those with 0, whichever are fewer.
    Least,
}

/// What is wished of the netlist that is written.
#[derive(Clone, Copy, PartialEq, Eq)]
pub struct Wishes {
    /// The basis's operators and no others.
    pub only: bool,
    pub levels: LevelsAsked,
    pub form: FormAsked,
    pub covers: CoversAsked,
}
