//! The limits of AIGER files; `specs/Limits.antt` has the same ones.

/// The most variables of a file.
pub const MOST_VARIABLES: u32 = 2_097_152;

/// The most inputs and latches of a file.
pub const MOST_SOURCES: u32 = 1_048_576;

/// The most outputs of a file.
pub const MOST_OUTPUTS: u32 = 1_048_576;
