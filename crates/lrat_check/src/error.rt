//! The faults of a line that doesn't hold.
use std::alloc::{AllocError, AllocFailed};

/// Why a line is refused.
#[derive(Clone, Copy, Debug, PartialEq, Eq)]
pub enum CheckError {
    /// This hint isn't the id of a live clause.
    UnknownId(u32),
    /// The clause of this hint isn't unit: two or more of its literals aren't falsified; or all are, and
    /// the hint isn't the last.
    NotUnit(u32),
    /// Propagation ends without a conflict: there is no hint, or the clause of the last hint is unit.
    NoConflict,
    /// This id of a deletion isn't live, or occurs twice in the line.
    UnknownDelete(u32),
    /// This id of an addition isn't greater than all ids before.
    IdNotGreater(u32),
    /// This variable of an addition isn't one of the formula.
    UnknownVariable(u32),
    /// Memory ran out.
    Memory,
}

impl From<AllocError> for CheckError {
    ghost use Rattle.std.specs.Prelude.{◌≡◌};
    ghost use Rattle.lrat_check.specs.declared.error.CheckError.TheVariants.{Memory};

    ghost from_gives = { λ _ e. e ≡ Memory };

    fn from(_error: AllocError) -> CheckError {
        CheckError::Memory
    }
}

impl<T: Drop> From<AllocFailed<T>> for CheckError {
    ghost use Rattle.std.specs.Prelude.{◌≡◌};
    ghost use Rattle.lrat_check.specs.declared.error.CheckError.TheVariants.{Memory};

    ghost from_gives = { λ _ e. e ≡ Memory };

    fn from(_error: AllocFailed<T>) -> CheckError {
        CheckError::Memory
    }
}
