//! The attempts that resynthesis makes, on a net with its index: windows, their local specifications, searches and
//! substitution.
//!
//! It stands on `window_core` and `observe_core` for the windows and their local specifications, on `subst_core` for
//! replacing a window by a chain, on `decide_core` for the search of a shorter chain, on `merge_core` for equal
//! gates, and on any `Solver` of `sat_solve`. The index is made anew when the net changes.
//!
//! The theorem is that `WindowAttempts` implements the trait `Attempts` of `resyn_core`: an attempt without a gain
//! leaves the net unchanged and has no shorter chain, one that stays undecided has a valid certificate, and after any
//! other the new net may replace the old one and has fewer gates.
//!
//! ```text
//! let mut attempts = WindowAttempts::<S>::new(alloc, net, settings)?;
//! resynthesize(alloc, &mut attempts)?; // then attempts.into_net()
//! ```
#![tactic(auto)]

mod asking;
mod attempting;
mod merging;
mod partners;
mod replacing;
mod tables;

pub use attempting::WindowAttempts;
pub use tables::many_merged;
