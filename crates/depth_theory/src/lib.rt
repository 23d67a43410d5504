//! Depth certificates: they show that a chain of the fewest steps also has the fewest levels. This crate defines
//! when one is valid, how it is written, which faults a text can have, and what the verdict means.
//!
//! A depth certificate begins with a certificate by fences whose verdict is a minimum. Then come the number of
//! levels of its chain, a log for each listed fence of that size with fewer levels, and the verdict: this number
//! of levels and no fewer or, if a fence is left open, none with fewer levels than the first open fence.
//!
//! - `specs/Flatter.antt`: the listed fences with fewer levels, in their order.
//! - `specs/DepthCertificate.antt`: a depth certificate as a value, and when it is valid.
//! - `specs/DepthSpelling.antt`: how it is written.
//! - `specs/DepthJudging.antt`: how lines are judged, and the first fault if they aren't a depth certificate.
//! - `specs/DepthMeaning.antt`: what each verdict says about chains.
//! - `specs/Verdicts.antt`: the verdict of a text that is a certificate of either kind, as `recheck` reports it.
//!
//! The theorems, in `laws`: lines are judged to have a verdict exactly if they spell a depth certificate with that
//! verdict, and the verdict of a depth certificate is true. The crate rests on `cert_theory` for certificates and
//! for the lines of a log, on `cert_laws` for their laws, and on `enc_laws` for the meaning of the formulas of
//! fences.
#![tactic(auto)]

mod data;
pub mod laws;

pub use data::{DepthError, DepthVerdict};
