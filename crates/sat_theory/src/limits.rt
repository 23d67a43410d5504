//! The limits of formulas, logs and searches; `specs/Limits.antt` has the same ones.

/// The greatest id of a log's line: of 32 bits.
pub const MOST_ID: u32 = 4_294_967_295;

/// The greatest variable: a literal is a number of 32 bits with a sign.
pub const MOST_VARIABLE: u32 = 2_147_483_647;

/// The most conflicts that a search is limited to, so that the ids of all its lines fit in 32 bits.
pub const MOST_CONFLICTS: u32 = 10_000_000;

/// How many clauses a log may keep beside three quarters of its additions and one for each variable, so that a log of
/// at most four times as many additions needs to delete none.
pub const SLACK: u32 = 2000;
