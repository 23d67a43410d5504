//! The questions that the front alone reads.

use cmd_part::PartOfSearch;

/// A question that is too large for one run of the program.
#[derive(Clone, Copy)]
pub enum Large {
    /// The text of a part of a search.
    Part(PartOfSearch),
    /// The verdict of a certificate of the fewest steps of at most so many bytes.
    Steps(u64),
    /// The same of a certificate of the fewest levels.
    Levels(u64),
}
