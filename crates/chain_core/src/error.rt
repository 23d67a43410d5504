//! Why a chain block is refused.
ghost use Rattle.std.specs.Prelude.{◌≡◌};
ghost use Rattle.chain_core.specs.declared.error.ChainError.TheVariants.{Memory};

use std::alloc::{AllocError, AllocFailed};

/// Why a chain block is refused. Each error of a text has the number of its line; at the end of the
/// text it is that of the line that would come next.
#[derive(Clone, Copy, PartialEq, Eq)]
pub enum ChainError {
    /// A step's line is missing, has no LF, isn't of the form of a step (a number has at most nine
    /// digits), doesn't begin with the step's own place, or has the operand 0.
    BadStep(u32),
    /// A step's line is well-formed, but an operand isn't a place before the step.
    ForwardPlace(u32),
    /// An output's line is missing, has no LF, isn't of the form of an output (a number has at most
    /// nine digits), or names a place that the chain doesn't have.
    BadOut(u32),
    /// The first line names more than 16 steps.
    TooManySteps(u32),
    /// The first line is missing, has no LF, or isn't `chain ` and a number of at most nine digits.
    BadCount(u32),
    /// Memory ran out.
    Memory,
}

impl From<AllocError> for ChainError {
    ghost from_gives = { λ _ e. e ≡ Memory };

    fn from(_error: AllocError) -> ChainError {
        ChainError::Memory
    }
}

impl<T: Drop> From<AllocFailed<T>> for ChainError {
    ghost from_gives = { λ _ e. e ≡ Memory };

    fn from(_error: AllocFailed<T>) -> ChainError {
        ChainError::Memory
    }
}
