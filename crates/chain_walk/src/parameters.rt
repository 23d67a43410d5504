//! The numbers that steer the walk, each as measured best on functions of five and six inputs.

/// Two new gates are tried in one of so many moves. More cost more time than they gain, fewer gain less.
pub const TWO_GATE_INTERVAL: u32 = 16;

/// The net may grow in one of so many moves: that is how it leaves a minimum.
pub const UPHILL_INTERVAL: u32 = 20;

/// How far it may grow above its least size.
pub const SLACK: u32 = 2;

/// After so many moves above its least size the net is put back.
pub const MOST_ABOVE: u32 = 200;

/// So many random pairs are tried for one new gate.
pub const ONE_GATE_TRIES: u32 = 4;

/// So many pairs are looked through for one that saves a gate.
pub const GAIN_TRIES: u32 = 24;

/// Two new gates are tried at so many places with a fitting inner gate, and with so many inner gates at each.
pub const TWO_GATE_PLACES: u32 = 6;

pub const TWO_GATE_TRIES: u32 = 2;

/// So many checks may be spent on two new gates in one move.
pub const TWO_GATE_CHECKS: u64 = 40_000;

/// What a place costs in checks beside its pairs.
pub const PLACE_CHECKS: u64 = 30;

/// The most pairs that one search lists: for one new gate, and for the inner one of two.
pub const MOST_PAIRS: usize = 4_000;

pub const MOST_INNER: usize = 500;
