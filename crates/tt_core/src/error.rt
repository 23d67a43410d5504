//! Why tables are refused.
use std::alloc::{AllocError, AllocFailed};

/// Why tables are refused. Lines are checked from the top and numbered from 1. At the end of the text
/// the number is that of the line that would come next.
#[derive(Clone, Copy, PartialEq, Eq)]
pub enum SpecError {
    /// The first line isn't `inputs ` and a number of at most nine digits, or has no LF.
    BadHeader(u32),
    /// This table line is empty, has a character other than `0`, `1` and `-`, or has no LF.
    BadRow(u32),
    /// This table line is well-formed but has a number of cells other than 2^N.
    WrongLength(u32),
    /// The header is well-formed and names more than six inputs.
    TooManyInputs,
    /// There is a ninth table line, well-formed or not.
    TooManyOutputs,
    /// There is no table line.
    NoOutput,
    /// Memory ran out.
    Memory,
}

impl From<AllocError> for SpecError {
    ghost use Rattle.std.specs.Prelude.{◌≡◌};
    ghost use Rattle.tt_core.specs.declared.error.SpecError.TheVariants.{Memory};

    ghost from_gives = { λ _ e. e ≡ Memory };

    fn from(_error: AllocError) -> SpecError {
        SpecError::Memory
    }
}

impl<T: Drop> From<AllocFailed<T>> for SpecError {
    ghost use Rattle.std.specs.Prelude.{◌≡◌};
    ghost use Rattle.tt_core.specs.declared.error.SpecError.TheVariants.{Memory};

    ghost from_gives = { λ _ e. e ≡ Memory };

    fn from(_error: AllocFailed<T>) -> SpecError {
        SpecError::Memory
    }
}
