//! What is told of a run, and to whom.

use text_core::{after, next_line, number_up_to};

/// How much of an answer was written.
#[derive(Clone, Copy)]
pub struct Written {
    /// Its bytes so far.
    pub bytes: u64,
    /// The size of the last section of a certificate, if one was written.
    pub size: Option<u32>,
}

/// The size of a piece that begins a section of a certificate.
fn size_of(piece: &[u8]) -> Option<u32> {
    let Some((line, _, _)) = next_line(piece) else {
        return None;
    };
    match after(b"size ", line) {
        Some(number) => number_up_to(u32::MAX, number),
        None => None,
    }
}

impl Written {
    /// Nothing.
    pub fn nothing() -> Self {
        Written {
            bytes: 0,
            size: None,
        }
    }

    /// What is written once a piece is written too.
    pub fn and(self, piece: &[u8]) -> Self {
        Written {
            bytes: self.bytes.saturating_add(piece.len() as u64),
            size: size_of(piece).or(self.size),
        }
    }
}

/// What a run has done so far.
#[derive(Clone, Copy)]
pub enum Progress {
    /// So many bytes of an input were read.
    Read(u64),
    /// So much of an answer was written.
    Written(Written),
    /// After a further stage a netlist has so many gates.
    Gates(usize),
    /// A round over all roots of windows begins.
    Round,
    /// The windows of a root are attempted next.
    Root {
        /// How many roots a round has behind it.
        done: u32,
        /// How many roots it has.
        all: u32,
    },
    /// A subproblem is searched next.
    Subproblem {
        /// The size of its chains.
        size: u32,
        /// Its number among those that are searched together, from 1.
        number: usize,
        /// How many these are.
        all: usize,
    },
    /// The log of a subproblem has so many lines.
    Logged(usize),
    /// A gate is compared next with an earlier one.
    Compared {
        /// How many gates a round has behind it.
        done: u32,
        /// How many gates it has.
        all: u32,
        /// The comparison is given up after so many conflicts.
        limit: u32,
    },
    /// Text is written next that people see where they see the progress.
    Text,
}

/// Whoever is told of a run's progress.
pub trait Tell {
    /// Hears of it.
    fn tell(&self, progress: Progress);
}

/// Nobody.
#[derive(Clone, Copy)]
pub struct Silent;

impl Tell for Silent {
    fn tell(&self, _progress: Progress) {}
}
