//! Resynthesis of a net by windows. Structurally equal gates are merged, and then a round goes once over all
//! candidate windows in order; rounds follow until one changes nothing, a fixpoint, or until
//! `settings.rounds` of them have changed something. The trait `Attempts` attempts one window, so this crate
//! knows no solver, no search and no cache.
//!
//! Candidates are ordered by their root, ascending. For each root come the counts from 1 to the cap without a
//! partner, and then, for each partner from the greatest to the least, the counts from 2 on. Structurally
//! equal gates are merged first since two of them often aren't in one window: a gate has at most eight
//! partners. An attempt has no gain, stays undecided with a certificate, or makes the net smaller.
//!
//! What is proved rests on one argument: in a round that changed nothing each candidate was attempted on the
//! final net, so each window has no shorter chain or is named (`IsResynthesized`, which holds for each part of a
//! round and composes). Nothing has to be known of the candidates that are skipped after a change.
//!
//! A window here is a subcircuit grown from a root; unlike an MFFC it may have a second root, the partner, which shares
//! a fanin with the first. `settled` is the fixpoint, `stopped` that the limit of rounds was reached.
//!
//! ```text
//! let result = resynthesize(alloc, &mut attempts, &Silent)?; // result.settled, result.undecided; attempts.net()
//! ```
#![tactic(auto)]

mod attempts;
mod nodes;
mod resynthesizing;
mod round;

pub use attempts::{Attempted, Attempts};
pub use resynthesizing::{Resynthesized, resynthesize};
pub use settings::ImproveSettings;
