//! Moves over a whole net: smaller nets that compute the same, by changes that no window of a few gates shows.
//!
//! The net becomes a graph of AND and XOR gates with complemented edges (`xag_core`). Pairs of operands are shared
//! (`share_core`), and then a walk goes on over random windows of the graph (`net_walk`), for as much work as is
//! asked. Its graph becomes a net again, with operators of the basis where polarities and NOT gates allow that. An
//! equivalence check compares this net with the given one (`move_check`), so no move needs a proof.
//!
//! With a limit of levels no path gets longer than it, and a net with more levels isn't answered (`smaller_within`).
//!
//! The walk can go on after each such comparison, with the same random numbers whatever follows: a longer search is a
//! shorter one that goes on.
//!
//! ```text
//! let mut moves = Moves::new(alloc, &net, basis, 1)?;
//! moves.run(&net, 1_000_000)?;
//! match moves.smaller::<S>(&net, basis)? {
//!     Some(smaller) => .., // may replace the net
//!     None => ..,          // the net stays as it is
//! }
//! ```
#![tactic(auto)]

mod moves;
mod parities;
mod polarity;

pub use moves::Moves;
