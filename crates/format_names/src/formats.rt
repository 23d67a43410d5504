//! The names of the formats.

/// A format of netlists.
#[derive(Clone, Copy, PartialEq, Eq)]
pub enum NetFormat {
    Blif,
    Bench,
    /// AIGER in its ASCII or its binary form, as the text says.
    Aiger,
}

/// The formats of two netlists.
#[derive(Clone, Copy, PartialEq, Eq)]
pub struct FormatPair {
    pub first: NetFormat,
    pub second: NetFormat,
}
