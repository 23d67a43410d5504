//! Pairs of signals of which an operator of the basis is the required function.
//!
//! One word, in which both values are required often, rules out nearly all pairs. And a pair has to distinguish each
//! row of the on-set from each of the off-set: of a few random pairs of rows that which the fewest signals distinguish
//! is taken, and one operand is one of these signals. The second operands of a first one are found all at once, as a
//! set of signals.

use crate::choices::{Choices, random_operator};
use crate::divisors::Divisors;
use crate::operator::Operator;
use crate::required::Required;
use crate::row_sets::{separating, without_first, without_lowest};
use crate::small_net::{Gate, SmallNet, small, word_at};
use rows::{Random, at};
use std::alloc::{AllocError, Global};

/// So many rows of either value make a word good enough: further words are not looked at.
const GOOD_ROWS: u32 = 24;

/// So many pairs of rows are compared by how many signals distinguish them.
const PROBES: u32 = 4;

/// The pairs that were found, and how many were tried in all.
#[derive(Drop)]
pub struct Pairs {
    found: Vec<Gate>,
    checks: u64,
}

/// What a search is about: the function, one word of it, and the first operands, as a set of divisors.
#[derive(Clone, Copy)]
struct Task {
    on: u64,
    off: u64,
    word: u32,
    firsts: u64,
}

/// What a second operand is tried against: on-set and off-set, by the value of the first operand.
#[derive(Clone, Copy)]
struct Halves {
    on_0: u64,
    on_1: u64,
    off_0: u64,
    off_1: u64,
}

/// `code` where the word isn't 0.
fn code_if(word: u64, code: u32) -> u32 {
    if word != 0 { code } else { 0 }
}

impl Halves {
    /// The rows by the value of the first operand.
    fn of(on: u64, off: u64, first: u64) -> Halves {
        Halves {
            on_0: on & !first,
            on_1: on & first,
            off_0: off & !first,
            off_1: off & first,
        }
    }

    /// The places at which an operator has to be 1.
    fn ones(self, second: u64) -> u32 {
        code_if(self.on_0 & !second, 8)
            | code_if(self.on_0 & second, 4)
            | code_if(self.on_1 & !second, 2)
            | code_if(self.on_1 & second, 1)
    }

    /// The places at which an operator has to be 0.
    fn zeros(self, second: u64) -> u32 {
        code_if(self.off_0 & !second, 8)
            | code_if(self.off_0 & second, 4)
            | code_if(self.off_1 & !second, 2)
            | code_if(self.off_1 & second, 1)
    }
}

/// The lesser number of rows of on-set and off-set.
fn balance(required: &Required, word: u32) -> u32 {
    required
        .on(word)
        .count_ones()
        .min(required.off(word).count_ones())
}

/// A word in which both values are required often.
fn balanced_word(required: &Required, random: &mut Random) -> u32 {
    let words = required.words();
    let mut best = random.below(words);
    let mut word = best;
    let mut most = balance(required, best);
    for _tried in 1..words {
        if most >= GOOD_ROWS {
            break;
        }
        word = if word.saturating_add(1) >= words {
            0
        } else {
            word.saturating_add(1)
        };
        let rows = balance(required, word);
        if rows > most {
            most = rows;
            best = word;
        }
    }
    best
}

/// A random row of a word, which isn't 0.
fn random_row(word: u64, random: &mut Random) -> u32 {
    let rotation = random.below(64);
    word.rotate_right(rotation)
        .trailing_zeros()
        .wrapping_add(rotation)
        & 63
}

/// Of a few random pairs of rows the divisors that distinguish them, where these are fewest; all where there are no
/// such rows in the word.
fn first_operands(divisors: &Divisors, word: u32, on: u64, off: u64, random: &mut Random) -> u64 {
    let mut best = divisors.all();
    if on == 0 || off == 0 {
        return best;
    }
    let sets = divisors.sets(word);
    for _tried in 0..PROBES {
        let one = word_at(sets, random_row(on, random));
        let zero = word_at(sets, random_row(off, random));
        let distinguishing = (one ^ zero) & divisors.all();
        if distinguishing.count_ones() <= best.count_ones() {
            best = distinguishing;
        }
    }
    best
}

impl Task {
    /// Of some divisors those that with a first operand, which has this word, separate on-set and off-set.
    fn seconds(self, divisors: &Divisors, first: u64, members: u64) -> u64 {
        let sets = divisors.sets(self.word);
        let left = separating(sets, self.on & first, self.off & first, members);
        separating(sets, self.on & !first, self.off & !first, left)
    }
}

/// Whether an operator of two signals is the required function.
fn serves(net: &SmallNet, required: &Required, gate: Gate) -> bool {
    let masks = gate.operator.masks();
    let (first, second) = (net.row(gate.first), net.row(gate.second));
    for word in 0..required.words() {
        let value = masks.at(word_at(first, word), word_at(second, word));
        if (required.on(word) & !value) | (required.off(word) & value) != 0 {
            return false;
        }
    }
    true
}

/// Of a set of operators those by which two signals make the required function.
fn serving(net: &SmallNet, required: &Required, operators: u32, first: u32, second: u32) -> u32 {
    let mut left = operators;
    let mut kept = operators;
    for _operator in 0..operators.count_ones() {
        let operator = Operator::new(left.trailing_zeros());
        let gate = Gate {
            first,
            second,
            operator,
        };
        if !serves(net, required, gate) {
            kept &= !1u32.wrapping_shl(operator.code());
        }
        left &= left.wrapping_sub(1);
    }
    kept
}

impl Pairs {
    /// Nothing is found yet.
    pub fn new(alloc: Global) -> Pairs {
        Pairs {
            found: Vec::new(alloc),
            checks: 0,
        }
    }

    /// What was found, as gates.
    pub fn found(&self) -> &[Gate] {
        &self.found
    }

    /// A random pair of those that were found.
    pub fn random_found(&self, random: &mut Random) -> Option<Gate> {
        let index = random.below(small(self.found.len()));
        self.found.get(index as usize).copied()
    }

    /// How many pairs were tried, in all searches.
    pub fn checks(&self) -> u64 {
        self.checks
    }

    /// Adds a first operand's pairs with the members of a set, up to `most` pairs in all.
    fn add(
        &mut self,
        net: &SmallNet,
        choices: &Choices,
        signals: &[u32],
        required: &Required,
        task: Task,
        first: u32,
        seconds: u64,
        most: usize,
        random: &mut Random,
    ) -> Result<(), AllocError> {
        let halves = Halves::of(task.on, task.off, net.word(first, task.word));
        let mut left = seconds;
        for _second in 0..64 {
            if left == 0 || self.found.len() >= most {
                break;
            }
            let second = at(signals, left.trailing_zeros());
            left = without_lowest(left);
            let value = net.word(second, task.word);
            let mut operators = choices.fitting(halves.ones(value), halves.zeros(value));
            if required.words() > 1 {
                operators = serving(net, required, operators, first, second);
            }
            if operators != 0 {
                let operator = random_operator(operators, random);
                self.found.push(Gate {
                    first,
                    second,
                    operator,
                })?;
            }
        }
        Ok(())
    }

    /// Adds the pairs of the divisor `index`: with first operands above it, with itself where complements cost, and
    /// with all others.
    fn scan(
        &mut self,
        net: &SmallNet,
        choices: &Choices,
        divisors: &Divisors,
        required: &Required,
        task: Task,
        index: u32,
        most: usize,
        random: &mut Random,
    ) -> Result<(), AllocError> {
        let first = at(divisors.signals(), index);
        let skipped = u32::from(choices.absorbs());
        let behind = task.firsts & u64::MAX.wrapping_shl(index).wrapping_shl(skipped);
        let others = divisors.all() & !task.firsts;
        self.checks = self
            .checks
            .saturating_add(u64::from((behind | others).count_ones()));
        let seconds = task.seconds(divisors, net.word(first, task.word), behind | others);
        if seconds == 0 {
            return Ok(());
        }
        let signals = divisors.signals();
        let (above, below) = (seconds & behind, seconds & others);
        self.add(
            net, choices, signals, required, task, first, above, most, random,
        )?;
        self.add(
            net, choices, signals, required, task, first, below, most, random,
        )
    }

    /// Adds the pairs of all first operands, from a random one on.
    fn scan_all(
        &mut self,
        net: &SmallNet,
        choices: &Choices,
        divisors: &Divisors,
        required: &Required,
        task: Task,
        most: usize,
        random: &mut Random,
    ) -> Result<(), AllocError> {
        let count = task.firsts.count_ones();
        let mut left = without_first(task.firsts, random.below(count));
        for _tried in 0..count {
            if left == 0 {
                left = task.firsts;
            }
            let index = left.trailing_zeros();
            left = without_lowest(left);
            self.scan(net, choices, divisors, required, task, index, most, random)?;
            if self.found.len() >= most {
                break;
            }
        }
        Ok(())
    }

    /// Finds pairs of the divisors, at most about `most`.
    pub fn search(
        &mut self,
        net: &SmallNet,
        choices: &Choices,
        divisors: &mut Divisors,
        required: &Required,
        most: usize,
        random: &mut Random,
    ) -> Result<(), AllocError> {
        self.found.clear();
        let word = balanced_word(required, random);
        divisors.prepare(net, word);
        let (on, off) = (required.on(word), required.off(word));
        let firsts = first_operands(divisors, word, on, off, random);
        let task = Task {
            on,
            off,
            word,
            firsts,
        };
        self.scan_all(net, choices, divisors, required, task, most, random)
    }
}
