//! The faults of a line by the grammar, and running out of memory, which the grammar doesn't know.
use std::alloc::{AllocError, AllocFailed};

/// Why a line is refused. Items are read from the left, and the first fault is reported.
#[derive(Clone, Copy, Debug, PartialEq, Eq)]
pub enum LineError {
    /// An item isn't a number in its range: ids and hints are 1 to 4294967295, literals are -2147483647 to
    /// 2147483647 without 0. An empty item isn't a number.
    BadNumber,
    /// The line ends before the 0 that ends a list, or goes on after the last 0.
    NoEnd,
    /// A hint begins with `-`: the line is a RAT step, which isn't supported.
    RatHint,
    /// The variable of a literal occurs earlier in the clause.
    RepeatedVariable,
    /// Memory ran out.
    Memory,
}

impl From<AllocError> for LineError {
    ghost use Rattle.std.specs.Prelude.{◌≡◌};
    ghost use Rattle.lrat_text.specs.declared.error.LineError.TheVariants.{Memory};

    ghost from_gives = { λ _ e. e ≡ Memory };

    fn from(_error: AllocError) -> LineError {
        LineError::Memory
    }
}

impl<T: Drop> From<AllocFailed<T>> for LineError {
    ghost use Rattle.std.specs.Prelude.{◌≡◌};
    ghost use Rattle.lrat_text.specs.declared.error.LineError.TheVariants.{Memory};

    ghost from_gives = { λ _ e. e ≡ Memory };

    fn from(_error: AllocFailed<T>) -> LineError {
        LineError::Memory
    }
}
