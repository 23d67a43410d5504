//! The numbers by which improvement of netlists chooses what to try, and for how long. They bound time and memory; no
//! contract depends on them.
#![tactic(auto)]

// ---- moves

/// A net of fewer gates isn't moved before its windows are resynthesized: its few windows cover it.
pub const LEAST_MOVED_GATES: usize = 6;

/// The conflict limit of the equivalence check of a net that was moved.
pub const MOVE_CONFLICTS: u32 = 100_000;

// ---- resynthesis of windows

/// A net of at most this many gates has no functional hashing: moves and windows find what is equal in it.
pub const MOST_UNHASHED_GATES: usize = 1000;

// ---- sharing

/// The most literals of a row, since the number of its pairs grows quadratically.
pub const MOST_ROW_LITERALS: usize = 100;

/// The most gates of a tree that are visited; a gate with several fanouts in the tree is visited once for
/// each.
pub const MOST_VISITED_OF_TREE: usize = 400;

/// The most pairs that are counted at the start, since each takes memory.
pub const MOST_PAIRS: usize = 4_000_000;
