//! Extraction of pairs: a pair becomes a gate, and the gate's literal replaces it in each row. Lists say in
//! which rows each literal occurs; rows that have lost it are skipped. Of a pair the shorter list is read.

use crate::collecting::LiteralRow;
use crate::pairs::{LiteralPair, PairCounts};
use rows::{at, put, raise};
use std::alloc::{AllocError, Global};
use thresholds::MOST_PAIRS;
use xag_core::{NONE, Substitution, XagGate};

/// The most ranks that are taken off the heap.
const MOST_RANKS: u64 = 1_000_000_000;

/// The rows of each literal: a list that begins at the literal's head, and its length.
#[derive(Drop)]
pub struct Occurrences {
    heads: Vec<u32>,
    lengths: Vec<u32>,
    rows: Vec<u32>,
    nexts: Vec<u32>,
}

impl Occurrences {
    /// No rows, for literals below `literals`.
    fn new(alloc: Global, literals: usize) -> Result<Occurrences, AllocError> {
        Ok(Occurrences {
            heads: vec![in alloc; NONE; literals]?,
            lengths: vec![in alloc; 0u32; literals]?,
            rows: Vec::new(alloc),
            nexts: Vec::new(alloc),
        })
    }

    /// Notes that the row has the literal.
    fn note(&mut self, literal: u32, row: u32) -> Result<(), AllocError> {
        let entry = (self.rows.len() as u64 & 0xFFFF_FFFF) as u32;
        self.rows.push(row)?;
        self.nexts.push(at(&self.heads, literal))?;
        put(&mut self.heads, literal, entry);
        raise(&mut self.lengths, literal);
        Ok(())
    }

    /// Makes room for the two literals of one more gate.
    fn extend(&mut self) -> Result<(), AllocError> {
        for _literal in 0..2 {
            self.heads.push(NONE)?;
            self.lengths.push(0)?;
        }
        Ok(())
    }

    /// The literal of a pair that is in fewer rows.
    fn rarer(&self, pair: LiteralPair) -> u32 {
        if at(&self.lengths, pair.low) < at(&self.lengths, pair.high) {
            pair.low
        } else {
            pair.high
        }
    }

    /// The rows that have, or had, a literal.
    fn rows_with(&self, alloc: Global, literal: u32) -> Result<Vec<u32>, AllocError> {
        let mut found = Vec::new(alloc);
        let mut entry = at(&self.heads, literal);
        for _passed in 0..self.rows.len() {
            if entry == NONE {
                break;
            }
            found.push(at(&self.rows, entry))?;
            entry = at(&self.nexts, entry);
        }
        Ok(found)
    }
}

/// Counts the pairs of a row with the literal at `index` first.
fn count_with(pairs: &mut PairCounts, literals: &[u32], index: usize) -> Result<(), AllocError> {
    let Some(literal) = literals.get(index) else {
        return Ok(());
    };
    for other in literals.iter().skip(index + 1) {
        pairs.count(*literal, *other)?;
    }
    Ok(())
}

/// Counts the pairs of a row, and notes where its literals occur.
fn count_row(
    pairs: &mut PairCounts,
    occurrences: &mut Occurrences,
    literals: &[u32],
    row: u32,
) -> Result<(), AllocError> {
    for (index, literal) in literals.iter().enumerate() {
        occurrences.note(*literal, row)?;
        count_with(pairs, literals, index)?;
    }
    Ok(())
}

/// Counts the pairs of all rows, up to `MOST_PAIRS`.
fn count_all(
    pairs: &mut PairCounts,
    occurrences: &mut Occurrences,
    rows: &[LiteralRow],
) -> Result<(), AllocError> {
    for (row, entry) in rows.iter().enumerate() {
        if pairs.len() < MOST_PAIRS {
            let row = (row as u64 & 0xFFFF_FFFF) as u32;
            count_row(pairs, occurrences, &entry.literals, row)?;
        }
    }
    Ok(())
}

/// A literal leaves a row: its pairs with the others are one row less.
fn remove_pairs(pairs: &mut PairCounts, literals: &[u32], literal: u32) -> Result<(), AllocError> {
    for other in literals {
        pairs.remove(*other, literal)?;
    }
    Ok(())
}

/// A literal enters a row: its pairs with the others are one row more.
fn add_pairs(pairs: &mut PairCounts, literals: &[u32], literal: u32) -> Result<(), AllocError> {
    for other in literals {
        pairs.add(*other, literal)?;
    }
    Ok(())
}

/// Replaces both literals of the pair by the gate's literal in a row that has both.
fn replace_in(
    pairs: &mut PairCounts,
    occurrences: &mut Occurrences,
    literals: &mut Vec<u32>,
    row: u32,
    pair: LiteralPair,
    literal: u32,
) -> Result<(), AllocError> {
    if !literals.contains(&pair.low) || !literals.contains(&pair.high) {
        return Ok(());
    }
    literals.retain(|entry| *entry != pair.low);
    remove_pairs(pairs, literals, pair.low)?;
    literals.retain(|entry| *entry != pair.high);
    remove_pairs(pairs, literals, pair.high)?;
    add_pairs(pairs, literals, literal)?;
    literals.push(literal)?;
    occurrences.note(literal, row)
}

/// Extracts a pair from all rows that have it.
fn take_out(
    alloc: Global,
    pairs: &mut PairCounts,
    occurrences: &mut Occurrences,
    rows: &mut [LiteralRow],
    pair: LiteralPair,
    literal: u32,
) -> Result<(), AllocError> {
    occurrences.extend()?;
    let having = occurrences.rows_with(alloc, occurrences.rarer(pair))?;
    for row in &having {
        if let Some(entry) = rows.get_mut(*row as usize) {
            replace_in(pairs, occurrences, &mut entry.literals, *row, pair, literal)?;
        }
    }
    Ok(())
}

/// Extracts pairs while some pair occurs in two rows.
pub fn extract(
    alloc: Global,
    substitution: &mut Substitution,
    nodes: u32,
    rows: &mut [LiteralRow],
    is_xor: bool,
) -> Result<(), AllocError> {
    let mut pairs = PairCounts::new(alloc);
    let mut occurrences = Occurrences::new(alloc, 2 * nodes as usize)?;
    count_all(&mut pairs, &mut occurrences, rows)?;
    pairs.rank_all()?;
    for _rank in 0..MOST_RANKS {
        let Some(taken) = pairs.take()? else {
            break;
        };
        let Some(pair) = taken else {
            continue;
        };
        let literal = substitution.gate(XagGate {
            first: pair.low,
            second: pair.high,
            is_xor,
        })?;
        take_out(alloc, &mut pairs, &mut occurrences, rows, pair, literal)?;
    }
    Ok(())
}

/// Makes a chain of gates of what is left of a row, and substitutes it for the root.
pub fn fold(
    substitution: &mut Substitution,
    row: &LiteralRow,
    is_xor: bool,
) -> Result<(), AllocError> {
    let mut joined = at(&row.literals, 0);
    for literal in row.literals.iter().skip(1) {
        joined = substitution.gate(XagGate {
            first: joined,
            second: *literal,
            is_xor,
        })?;
    }
    substitution.substitute(row.root, joined)
}
