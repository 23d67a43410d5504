//! The limits of netlists that are read, improved, compared or written; `specs/Limits.antt` has the same ones.

/// The most gates of a netlist, so that nodes, and the variables and clauses of formulas on two netlists, have
/// numbers of 32 bits.
pub const MOST_GATES: u32 = 1_000_000;

/// The most gates of a netlist that is read, where no other limit is asked for.
pub const DEFAULT_GATES: u32 = 100_000;

/// The most inputs of a table, and operands of a gate of a `.bench` text, so that the literals of a table can be
/// counted.
pub const MOST_TABLE_INPUTS: usize = 256;

/// The most cover lines (cubes) of a table, for the same reason.
pub const MOST_CUBES: usize = 4096;

/// The most bytes of a name or another word.
pub const MOST_NAME_BYTES: usize = 1024;

/// The most bytes of a line: the names of a table with the most inputs fit in one, each as long as names may be.
pub const MOST_LINE_BYTES: usize = 1_048_576;

/// The most bytes of a netlist that is read, 16 MiB, so that its names, sources and sinks can be counted.
pub const MOST_OF_NETLIST: usize = 16_777_216;

/// The most bytes of two netlists that are compared: 32 MiB, twice as many.
pub const MOST_OF_TWO: usize = 33_554_432;
