//! The patterns (value combinations) of signals that occur under all assignments, or under those that a row of
//! bits chooses. Four words are handled at a time, and the search ends once all patterns were seen.

ghost use Rattle.std.specs.Prelude.{◌*◌, ◌/◌, ◌%◌, ◌≤◌, ◌<◌, length, slice_index_or, All};
ghost use Rattle.chain_theory.specs.Operator.{digit};
ghost use Rattle.lane_sim.specs.Chosen.{chosen_at, AreChosenBelow};
ghost use Rattle.lane_sim.specs.Combining.{EndsBefore};
ghost use Rattle.lane_sim.specs.Cone.{IsSigAmong, nodes};
ghost use Rattle.lane_sim.specs.Seen.{pattern_at, IsRowCount, AllEnd};
ghost use Rattle.lane_sim.specs.Words.{AreWords, ArePatterns, ArePatternsOf, width_of as width_of_rows};

use crate::cone::Cone;
use crate::rows::{Operand, four_words, word};
use crate::showing::{fill_operands, ones, seen, seen_four, word_mask};
use crate::words::{Words, lanes_of, rows_of, width_of};
use net_theory::Sig;

/// The maximal number of signals: the 2^6 patterns of 6 signals are the bits of one word.
pub const MOST_SIGNALS: usize = 6;

/// The patterns of the operands' rows, in groups of four words, under the assignments at which the chosen row, a
/// row of other words, is 1.
fn seen_in_fours(
    lanes: &[u64],
    rows: u32,
    operands: &[Operand],
    words: &[u64],
    chosen: Operand,
) -> u64
    requires few { length operands.now ≤ 6 }
    requires rows { IsRowCount rows }
    requires ends { AllEnd (length lanes.now) (width_of_rows rows) operands.now }
    requires end { EndsBefore (length words.now) (width_of_rows rows) chosen }
    ensures { AreChosenBelow (length operands.now) (pattern_at lanes.now operands.now)
        (chosen_at words.now chosen) rows (width_of_rows rows / 4 * 4) result }
{
    let mut found = 0;
    for block in 0..width_of(rows) / 4 {
        let j = block * 4;
        let mask = word_mask(rows);
        let w = four_words(words, chosen, j);
        found |= seen_four(
            mask & w.first,
            mask & w.second,
            mask & w.third,
            mask & w.fourth,
            lanes,
            operands,
            j,
        );
        if found == ones(1u32 << operands.len()) {
            return found;
        }
    }
    found
}

/// The patterns of the operands' rows under the assignments at which the chosen row is 1: groups of four words,
/// then the remaining words one by one.
fn seen_chosen(
    lanes: &[u64],
    rows: u32,
    operands: &[Operand],
    words: &[u64],
    chosen: Operand,
) -> u64
    requires few { length operands.now ≤ 6 }
    requires rows { IsRowCount rows }
    requires ends { AllEnd (length lanes.now) (width_of_rows rows) operands.now }
    requires end { EndsBefore (length words.now) (width_of_rows rows) chosen }
    ensures { AreChosenBelow (length operands.now) (pattern_at lanes.now operands.now)
        (chosen_at words.now chosen) rows (width_of_rows rows) result }
{
    let mut found = seen_in_fours(lanes, rows, operands, words, chosen);
    for j in width_of(rows) / 4 * 4..width_of(rows) {
        let mask = word_mask(rows) & word(words, chosen, j);
        found |= seen(mask, lanes, operands, j);
    }
    found
}

/// The mask of the patterns that occur: bit `t` is 1 exactly if some assignment of the leaves gives the signals
/// the bits of `t`, the first signal's being the most significant. At most 6 signals.
pub fn patterns(words: &Words, cone: &Cone, signals: &[Sig]) -> u64
    requires few { length signals.now ≤ 6 }
    requires known { All (IsSigAmong (nodes cone.now)) signals.now }
    requires words { AreWords cone.now words.now }
    ensures { ArePatterns cone.now signals.now result }
{
    let lanes = lanes_of(words);
    let rows = rows_of(words);
    let width = width_of(rows);
    let mut operands = [Operand::Zero; MOST_SIGNALS];
    fill_operands(&mut operands, cone, width, signals);
    let (used, _) = operands.split_at(signals.len());
    seen_chosen(lanes, rows, used, lanes, Operand::One)
}

/// The mask of the patterns that occur under the assignments that `chosen` selects: bit `b` of its word `j`
/// stands for the assignment `64 * j + b`.
pub fn patterns_on(words: &Words, cone: &Cone, signals: &[Sig], chosen: &[u64]) -> u64
    requires few { length signals.now ≤ 6 }
    requires known { All (IsSigAmong (nodes cone.now)) signals.now }
    requires words { AreWords cone.now words.now }
    requires chosen { width_of_rows words.now.rows ≤ length chosen.now }
    ensures { ArePatternsOf cone.now signals.now (λ row. digit (slice_index_or chosen.now (row / 64) 0) (row % 64))
        result }
{
    let lanes = lanes_of(words);
    let rows = rows_of(words);
    let width = width_of(rows);
    let mut operands = [Operand::Zero; MOST_SIGNALS];
    fill_operands(&mut operands, cone, width, signals);
    let (used, _) = operands.split_at(signals.len());
    seen_chosen(lanes, rows, used, chosen, Operand::Row(0))
}
