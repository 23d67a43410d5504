//! Why two netlists weren't compared by names.
ghost use Rattle.std.specs.Prelude.{◌≡◌};
ghost use Rattle.equiv_run.specs.declared.answer.CompareError.TheVariants.{Memory};
ghost use Rattle.equiv_match.specs.declared.error.MatchError.TheVariants.{Refused};

use equiv_run::CompareError;
use match_core::Lack;
use std::alloc::{AllocError, AllocFailed};

/// Why two netlists weren't compared by names.
#[derive(Drop)]
pub enum MatchError {
    /// What `equiv` refuses: a fault of one of them, different clocks or latches, or out of memory.
    Refused(CompareError),
    /// One lacks a name of the other.
    Lacks(Lack),
}

impl From<AllocError> for MatchError {
    ghost from_gives = { λ _ e. e ≡ Refused Memory };

    fn from(_error: AllocError) -> MatchError {
        MatchError::Refused(CompareError::Memory)
    }
}

impl<T: Drop> From<AllocFailed<T>> for MatchError {
    ghost from_gives = { λ _ e. e ≡ Refused Memory };

    fn from(_error: AllocFailed<T>) -> MatchError {
        MatchError::Refused(CompareError::Memory)
    }
}
