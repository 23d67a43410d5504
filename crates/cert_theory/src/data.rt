//! The data that the definitions of this crate speak of: what a certificate has beside chains and logs, and the
//! ways in which a text can be wrong.
use lrat_check::CheckError;
use op_basis::Basis;
use settings::Method;
use std::alloc::{AllocError, AllocFailed};
use tt_core::Spec;

/// What is searched for: the header of a certificate.
#[derive(Drop)]
pub struct Header {
    /// The tables that a chain has to implement.
    pub spec: Spec,
    /// The operators that a chain may have.
    pub basis: Basis,
    /// How a size is encoded as formulas.
    pub method: Method,
    /// The budget (`--conflicts`), from 1 to 10,000,000: a log that leaves its subproblem open has at least this
    /// many additions.
    pub conflicts: u32,
    /// The greatest size to try, at most 16.
    pub max: u32,
}

/// How the log of a subproblem ends.
#[derive(Clone, Copy)]
pub enum LogEnd {
    /// The log refutes the formula.
    Refuted,
    /// The limit was reached; the formula is left open.
    Open,
}

/// What a certificate proves.
#[derive(Clone, Copy, PartialEq, Eq)]
pub enum Verdict {
    /// A chain of this many steps implements the tables, and none with fewer does.
    Minimum(u32),
    /// No chain of at most this many steps implements the tables.
    NoChain(u32),
    /// A chain of `r` steps implements the tables, and none of fewer than `low` does.
    Bounded { low: u32, r: u32 },
    /// No chain of fewer than `low` steps implements the tables.
    Open { low: u32 },
}

/// Why a text isn't a valid certificate. Lines are checked from the top and numbered from 1; if the text ends
/// too early, the number is that of the missing line. The first fault is reported, and of one line's faults
/// `Syntax` comes first.
#[derive(Clone, Copy, PartialEq, Eq)]
pub enum CertificateError {
    /// The line isn't allowed here, has no LF, or is missing.
    Syntax(u32),
    /// A `size` line isn't the next size or is above the greatest; or the number of steps of the chain isn't
    /// the number of sections, or is above the greatest size.
    SizeOutOfOrder(u32),
    /// A line of a log doesn't hold, with its first fault; never `CheckError::Memory`.
    StepRefused(u32, CheckError),
    /// A log that should refute its formula ends without the empty clause.
    NotRefuted(u32),
    /// The chain differs from the tables, first at this output (numbered from 1) and on this row (from 0).
    ChainDiffers(u32, u32),
    /// The operator of the step at this place isn't in the basis; it is the first such step.
    OperatorNotInBasis(u32),
    /// A log that leaves its subproblem open has fewer additions than the limit.
    OpenTooShort(u32),
    /// A line of an open log holds, but adds a clause that a live clause subsumes.
    NotNew(u32),
    /// An open log contains the empty clause; or the verdict isn't the one that follows from the sections and
    /// the chain.
    WrongVerdict(u32),
    /// Memory ran out.
    Memory,
}

/// Why lines aren't the log of a subproblem, wherever it is in a text. Of one line's faults `Syntax` comes
/// first.
#[derive(Clone, Copy, PartialEq, Eq)]
pub enum SubproblemError {
    /// The line isn't allowed here, or has no LF.
    Syntax,
    /// A line of the log doesn't hold, with its first fault; never `CheckError::Memory`.
    StepRefused(CheckError),
    /// A line of an open log holds, but adds a clause that a live clause subsumes.
    NotNew,
    /// A log that should refute its formula ends without the empty clause, or another line is where the
    /// subproblem's name should be.
    NotRefuted,
    /// A log that leaves its subproblem open has fewer additions than the limit.
    TooShort,
    /// An open log contains the empty clause.
    EmptyClauseDerived,
    /// Memory ran out.
    Memory,
}

impl From<AllocError> for CertificateError {
    ghost use Rattle.std.specs.Prelude.{◌≡◌};
    ghost use Rattle.cert_theory.specs.declared.data.CertificateError.TheVariants.{Memory};

    ghost from_gives = { λ _ e. e ≡ Memory };

    fn from(_error: AllocError) -> CertificateError {
        CertificateError::Memory
    }
}

impl<T: Drop> From<AllocFailed<T>> for CertificateError {
    ghost use Rattle.std.specs.Prelude.{◌≡◌};
    ghost use Rattle.cert_theory.specs.declared.data.CertificateError.TheVariants.{Memory};

    ghost from_gives = { λ _ e. e ≡ Memory };

    fn from(_error: AllocFailed<T>) -> CertificateError {
        CertificateError::Memory
    }
}

impl From<AllocError> for SubproblemError {
    ghost use Rattle.std.specs.Prelude.{◌≡◌};
    ghost use Rattle.cert_theory.specs.declared.data.SubproblemError.TheVariants.{Memory};

    ghost from_gives = { λ _ e. e ≡ Memory };

    fn from(_error: AllocError) -> SubproblemError {
        SubproblemError::Memory
    }
}

impl<T: Drop> From<AllocFailed<T>> for SubproblemError {
    ghost use Rattle.std.specs.Prelude.{◌≡◌};
    ghost use Rattle.cert_theory.specs.declared.data.SubproblemError.TheVariants.{Memory};

    ghost from_gives = { λ _ e. e ≡ Memory };

    fn from(_error: AllocFailed<T>) -> SubproblemError {
        SubproblemError::Memory
    }
}
