//! The answers to the comparison of two netlists, and the errors.
ghost use Rattle.std.specs.Prelude.{◌≡◌};
ghost use Rattle.equiv_run.specs.declared.answer.CompareError.TheVariants.{Memory};

use blif_core::NetError;
use std::alloc::{AllocError, AllocFailed};

/// The result of comparing two netlists.
#[derive(Clone, Copy)]
pub enum EquivOutcome {
    /// They are equivalent.
    Equal,
    /// They differ.
    Differ,
    /// The budget was spent.
    Undecided,
}

/// The result of comparing two netlists, and the text that reports it.
#[derive(Drop)]
pub struct Compared {
    pub text: Vec<u8>,
    pub outcome: EquivOutcome,
}

/// The comparison of two netlists that each stand in a text of its own.
#[derive(Drop)]
pub struct ComparedTwo {
    /// The result.
    pub compared: Compared,
    /// Whether neither netlist has an output or a latch, so that nothing was compared.
    pub no_sink: bool,
}

/// Why two netlists weren't compared.
#[derive(Drop)]
pub enum CompareError {
    /// There is no line `.end` after which a second netlist could begin.
    NoSecond,
    /// The first netlist is refused.
    First(NetError),
    /// The first netlist is read, and the second is refused. The second's lines are numbered from 1.
    Second(NetError),
    /// The inputs, outputs, clocks or latches differ.
    DifferentInterface,
    /// Out of memory.
    Memory,
}

impl From<AllocError> for CompareError {
    ghost from_gives = { λ _ e. e ≡ Memory };

    fn from(_error: AllocError) -> CompareError {
        CompareError::Memory
    }
}

impl<T: Drop> From<AllocFailed<T>> for CompareError {
    ghost from_gives = { λ _ e. e ≡ Memory };

    fn from(_error: AllocFailed<T>) -> CompareError {
        CompareError::Memory
    }
}
