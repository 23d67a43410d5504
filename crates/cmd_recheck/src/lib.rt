//! The command `recheck`: the verdict of a certificate, from its text alone.
//!
//! `Recheck` is the command for `frame_core`, which takes its input in pieces: `Recheck(Steps)` for certificates of
//! the fewest steps, `Recheck(Levels)` for certificates of the fewest levels. The trait `CertificateKind` has what
//! differs between them. `Recheck(LongSteps { most })` and `Recheck(LongLevels { most })` are the same for at most
//! `most` bytes (`specs/LongReport`, `specs/LongLaws`). `specs/RecheckReport` and `specs/RecheckDepthReport` have the
//! two tasks, `specs/Rechecks` the promise that both share, `specs/RecheckPromise` and `specs/RecheckDepthPromise`
//! what each reports, and `specs/RecheckLaws` and `specs/RecheckDepthLaws` the proofs that every run keeps its
//! promise.
#![tactic(auto)]

mod certificates;
mod job;
mod long;
mod recheck;
mod recheck_depth;

pub use job::{CertificateKind, Reading, Recheck};
pub use long::{LongLevels, LongSteps, MOST_OF_LONG};
pub use recheck::Steps;
pub use recheck_depth::Levels;
