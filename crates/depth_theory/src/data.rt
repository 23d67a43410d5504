//! Verdicts of depth certificates, and the faults of a text that isn't one.
use cert_theory::CertificateError;
use lrat_check::CheckError;
use std::alloc::{AllocError, AllocFailed};

/// The verdict of a depth certificate.
#[derive(Clone, Copy, PartialEq, Eq)]
pub enum DepthVerdict {
    /// The chain has this number of levels, and no chain of its number of steps has fewer.
    Levels(u32),
    /// The chain has `levels` levels, and no chain of its number of steps has fewer than `low`.
    Bounded { low: u32, levels: u32 },
}

/// Why a text isn't a depth certificate. Lines are judged from the top and numbered from 1 over the whole text; if
/// a text ends too early, the number is that of the line that would come next. The first fault is reported, and
/// `Syntax` precedes the other faults of a line.
#[derive(Clone, Copy, PartialEq, Eq)]
pub enum DepthError {
    /// The lines up to the first line `end` aren't a valid certificate, with its fault, which is never out of
    /// memory.
    Certificate(CertificateError),
    /// The certificate isn't by fences, or its verdict isn't a minimum.
    NotLeastForm,
    /// The line isn't allowed there, has no LF, or is missing.
    Syntax(u32),
    /// The line states another depth than that of the chain.
    WrongDepth(u32),
    /// A line of a log doesn't hold, with its first fault, which is never out of memory.
    StepRefused(u32, CheckError),
    /// A line of an open fence's log holds, but the clause that it adds isn't new.
    NotNew(u32),
    /// The log of a refuted fence ends without the empty clause; or there is another line where the name of a
    /// fence is due, or the name of a fence where none is due.
    NotRefuted(u32),
    /// The log of an open fence ends with fewer additions than the budget.
    OpenTooShort(u32),
    /// The log of an open fence ends although it has derived the empty clause; or the verdict isn't the one that
    /// follows.
    WrongLevels(u32),
    /// Out of memory.
    Memory,
}

impl From<AllocError> for DepthError {
    ghost use Rattle.std.specs.Prelude.{◌≡◌};
    ghost use Rattle.depth_theory.specs.declared.data.DepthError.TheVariants.{Memory};

    ghost from_gives = { λ _ e. e ≡ Memory };

    fn from(_error: AllocError) -> DepthError {
        DepthError::Memory
    }
}

impl<T: Drop> From<AllocFailed<T>> for DepthError {
    ghost use Rattle.std.specs.Prelude.{◌≡◌};
    ghost use Rattle.depth_theory.specs.declared.data.DepthError.TheVariants.{Memory};

    ghost from_gives = { λ _ e. e ≡ Memory };

    fn from(_error: AllocFailed<T>) -> DepthError {
        DepthError::Memory
    }
}
