//! A divisor in a gate's place: one that is the required function, as it is or complemented.

use crate::choices::Choices;
use crate::divisors::Divisors;
use crate::required::Required;
use crate::row_sets::{agreeing, without_first, without_lowest};
use crate::small_net::{SmallNet, literal_of};
use rows::{Random, at};

/// The literal of a signal, if it is the required function.
fn matching_literal(
    net: &SmallNet,
    choices: &Choices,
    required: &Required,
    signal: u32,
) -> Option<u32> {
    let row = net.row(signal);
    if required.is_matched_by(row, 0) {
        return Some(literal_of(signal, 0));
    }
    if choices.absorbs() && required.is_matched_by(row, 1) {
        return Some(literal_of(signal, 1));
    }
    None
}

/// The divisors that may be the required function, by its first word.
fn candidates_of(choices: &Choices, divisors: &Divisors, required: &Required) -> u64 {
    let sets = divisors.sets(0);
    let (on, off) = (required.on(0), required.off(0));
    let all = divisors.all();
    let plain = agreeing(sets, off, 0, agreeing(sets, on, u64::MAX, all));
    if choices.absorbs() {
        return plain | agreeing(sets, off, u64::MAX, agreeing(sets, on, 0, all));
    }
    plain
}

/// The literal of a divisor that is the required function, from a random one on; None where there is none.
pub fn matching_divisor(
    net: &SmallNet,
    choices: &Choices,
    divisors: &mut Divisors,
    required: &Required,
    random: &mut Random,
) -> Option<u32> {
    divisors.prepare(net, 0);
    let all = divisors.all();
    let first = without_first(all, random.below(all.count_ones()));
    let candidates = candidates_of(choices, divisors, required);
    let mut left = candidates & first;
    let mut behind = candidates & !first;
    for _tried in 0..candidates.count_ones() {
        if left == 0 {
            left = behind;
            behind = 0;
        }
        let signal = at(divisors.signals(), left.trailing_zeros());
        left = without_lowest(left);
        let literal = matching_literal(net, choices, required, signal);
        if literal.is_some() {
            return literal;
        }
    }
    None
}
