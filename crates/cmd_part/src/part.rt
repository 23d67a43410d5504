//! Which part of a search is asked for.

use settings::SynthSettings;

/// A part of a size of a search.
#[derive(Clone, Copy)]
pub struct PartOfSearch {
    /// The settings of the search.
    pub settings: SynthSettings,
    /// The size, at most the greatest of the settings.
    pub size: u32,
    /// How many parts of the size stand before it.
    pub before: u32,
}
