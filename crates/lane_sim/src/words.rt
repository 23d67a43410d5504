//! The values of signals in words of 64 assignments.

ghost use Rattle.std.specs.Prelude.{◌≡◌, ◌<◌, ◌^◌, length};
ghost use Rattle.lane_sim.specs.Words.{width_of as width_of_rows};

use std::marker::Model;

/// For each signal the values under `rows` assignments, in words of 64, one signal after the other.
#[derive(Drop)]
pub struct Words {
    pub lanes: Vec<u64>,
    pub rows: u32,
}

impl Model for Words {
    ghost use Rattle.lane_sim.specs.Words as words;

    ghost Value = { words.Words };

    ghost view = { λ w. record { lanes = w.lanes.items; rows = w.rows } };
}

/// The number of words of one signal, for `rows` assignments.
pub fn width_of(rows: u32) -> usize
    ensures { result ≡ width_of_rows rows }
{
    (rows as usize + 63) / 64
}

/// The words of all signals.
pub fn lanes_of(words: &Words) -> &[u64]
    ensures value { result.now ≡ words.now.lanes }
    ensures small { length words.now.lanes < 2 ^ 63 }
{
    &words.lanes
}

/// The number of assignments.
pub fn rows_of(words: &Words) -> u32
    ensures { result ≡ words.now.rows }
{
    words.rows
}
