//! What an improved net is: definitions that the passes of `improve` share.
//!
//! - `specs/Leading.antt`: when a net may replace another one.
//! - `WindowCandidate`: a window, told by its root, a partner or none, and its number of gates.
//! - `specs/LocalSpecification.antt`: what the replacement of a window has to compute.
//! - `specs/Settled.antt`: no window of a net has a smaller replacement. `specs/Undecided.antt`: a search left a window
//!   open. `specs/Candidates.antt`: the order in which windows are tried.
//! - `specs/Improvement.antt`: what improvement makes of a net.
//!
//! It rests on definitions and types alone. Everything that searches, by windows, walks or moves, is above it.
//!
//! ```text
//! // a window of 6 gates at node 9 that a search left open, with its certificate
//! Undecided { candidate: WindowCandidate { root: 9, partner: None, count: 6 }, search }
//! ```
#![tactic(auto)]

mod candidate;
mod undecided;

pub use candidate::WindowCandidate;
pub use undecided::Undecided;
