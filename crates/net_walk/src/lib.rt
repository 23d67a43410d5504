//! Walks over whole netlists: smaller XOR-AND graphs by random moves in random windows.
//!
//! The graph changes in place. A window is a connected convex set of gates with few inputs; the rows of these that
//! occur are found by simulating a cut below them. It becomes a small net, `chain_walk` walks over it, and the net
//! after the walk takes the window's place if it has no more gates. A graph of few sources is also walked as one
//! window, in some rows, and then compared in all.
//!
//! Where the levels are limited, a window's net is put back only if no path gets longer than the limit (`timing`).
//!
//! This is a search, and nothing is promised of what it finds but that it ends: `move_check` judges the net. The work
//! is counted, so that a run is the same on each machine, and a longer run is a shorter one that goes on.
//!
//! ```text
//! let mut search = NetWalk::new(alloc, &xag, basis.get(), 1)?;
//! search.run(1_000_000)?;
//! search.best()
//! ```
#![tactic(auto)]

mod comparing;
mod convex;
mod engine;
mod fanouts;
mod graph;
mod growing;
mod loading;
mod marks;
mod merging;
mod muxes;
mod patterns;
mod reachable;
mod starting;
mod timing;
mod windows;

pub use engine::NetWalk;
