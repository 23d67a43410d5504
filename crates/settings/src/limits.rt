//! The limits and defaults of settings; `specs/Limits.antt` has the same ones.

/// The conflict limit of a formula where none is asked for.
pub const DEFAULT_CONFLICTS: u32 = 100_000;

/// The most gates of a window: each may be an output, and tables have at most 8 outputs.
pub const MOST_GATES_OF_WINDOW: u32 = 8;

/// The most rounds over all windows: each that changes something removes a gate, and a netlist has no more gates.
pub const MOST_ROUNDS: u32 = 100_000;

/// The most effort: a factor for the work of the walks.
pub const MOST_EFFORT: u32 = 1000;

/// The effort of exact synthesis where none is asked for.
pub const DEFAULT_EFFORT: u32 = 1;

/// The greatest seed of random choices.
pub const MOST_SEED: u32 = 1_000_000;

/// The most blocks of a generated netlist, so that it is within the limits of netlists.
pub const MOST_BLOCKS: u32 = 10_000;
