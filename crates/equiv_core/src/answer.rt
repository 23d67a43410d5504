//! The three answers of an equivalence check, and its errors.
ghost use Rattle.std.specs.Prelude.{◌≡◌};
ghost use Rattle.equiv_core.specs.declared.answer.EquivError.TheVariants.{Memory};

use cnf_core::Assign;
use log_core::Log;
use std::alloc::{AllocError, AllocFailed};

/// Whether two circuits are equivalent.
#[derive(Drop)]
pub enum EquivResult {
    /// They are: the log refutes their miter.
    Equal(Log),
    /// They are not: under the values `at` of the sources, source 1 first, the values of `sink` differ. Sinks are
    /// counted from 1, and it is the first one that differs.
    Differ { sink: u32, at: Assign },
    /// Undecided: the log has spent the budget on the miter, and at least half of its additions are live at the
    /// end.
    Undecided(Log),
}

/// Why two circuits weren't compared.
#[derive(Clone, Copy)]
pub enum EquivError {
    /// The inputs, outputs or clocks don't have the same names in the same order, or the latches differ in number,
    /// order, output, control or initial value.
    DifferentInterface,
    /// Out of memory.
    Memory,
}

impl From<AllocError> for EquivError {
    ghost from_gives = { λ _ e. e ≡ Memory };

    fn from(_error: AllocError) -> EquivError {
        EquivError::Memory
    }
}

impl<T: Drop> From<AllocFailed<T>> for EquivError {
    ghost from_gives = { λ _ e. e ≡ Memory };

    fn from(_error: AllocFailed<T>) -> EquivError {
        EquivError::Memory
    }
}
