//! The table of faults: for each one that an error line names, where it is and what was expected there. Its entries
//! stand in `chain_faults` and `net_faults`.

use crate::chain_faults::{CERTIFICATES, CHAINS, DEPTHS, PARTS, STEPS, TABLES};
use crate::net_faults::{AIGERS, BENCHES, BLIFS, NETLISTS, PAIRS, WORDS};
use help_text::Part;
use net_theory::{MOST_OF_NETLIST, MOST_OF_TWO};

/// What a command reads.
#[derive(Clone, Copy, PartialEq, Eq)]
pub enum Subject {
    /// Truth tables, which `synth` reads.
    Tables,
    /// Tables and a chain, which `agree` reads.
    Question,
    /// A certificate.
    Certificate,
    /// A depth certificate.
    Depth,
    /// A netlist in BLIF.
    Blif,
    /// A netlist in BENCH.
    Bench,
    /// A netlist in AIGER.
    Aiger,
    /// Two netlists.
    Pair,
}

/// Where a fault is.
#[derive(Clone, Copy)]
pub(crate) enum Place {
    /// On the line whose number comes next.
    Line,
    /// On this line.
    At(u32),
    /// Where the name that comes next is read.
    Read,
    /// Where it is driven first.
    Driven,
    /// Where it is driven again.
    DrivenAgain,
    /// On no line; what comes next is how many there are.
    Counted,
    /// On no line.
    Nowhere,
}

/// A fault.
#[derive(Clone, Copy)]
pub(crate) struct Entry {
    pub(crate) name: &'static [u8],
    pub(crate) place: Place,
    pub(crate) says: &'static [Part],
}

/// The most bytes of tables, and of tables with a chain.
const MOST_OF_TABLES: usize = 65_536;

/// The most bytes of a certificate.
const MOST_OF_CERTIFICATE: usize = 268_435_456;

/// Faults of every command.
const COMMON: &[Entry] = &[
    Entry {
        name: b"ReadFault",
        place: Place::Nowhere,
        says: &[Part::Text(b"the input couldn't be read")],
    },
    Entry {
        name: b"WriteFault",
        place: Place::Nowhere,
        says: &[Part::Text(b"the answer couldn't be written")],
    },
    Entry {
        name: b"Memory",
        place: Place::Nowhere,
        says: &[Part::Text(b"there wasn't memory enough")],
    },
];

/// The entry with a name among some.
fn among(entries: &[Entry], name: &[u8]) -> Option<Entry> {
    for entry in entries {
        if entry.name == name {
            return Some(*entry);
        }
    }
    None
}

/// The entry of a name in one table, or else in another.
fn in_either(first: &[Entry], second: &[Entry], name: &[u8]) -> Option<Entry> {
    match among(first, name) {
        Some(entry) => Some(entry),
        None => among(second, name),
    }
}

/// The entry of a fault of what a command reads.
pub(crate) fn entry_of(subject: Subject, name: &[u8]) -> Option<Entry> {
    let own = match subject {
        Subject::Tables => among(TABLES, name),
        Subject::Question => in_either(TABLES, CHAINS, name),
        Subject::Certificate => in_either(CERTIFICATES, PARTS, name),
        Subject::Depth => among(DEPTHS, name),
        Subject::Blif => in_either(BLIFS, NETLISTS, name),
        Subject::Bench => in_either(BENCHES, NETLISTS, name),
        Subject::Aiger => in_either(AIGERS, NETLISTS, name),
        Subject::Pair => among(PAIRS, name),
    };
    match own {
        Some(entry) => Some(entry),
        None => among(COMMON, name),
    }
}

/// The entry of a fault of a log's line.
pub(crate) fn step_entry(name: &[u8]) -> Option<Entry> {
    among(STEPS, name)
}

/// The entry of a word of BLIF that isn't read.
pub(crate) fn word_entry(word: &[u8]) -> Option<Entry> {
    among(WORDS, word)
}

/// Whether the table has a fault of what a command reads.
pub fn has_entry(subject: Subject, name: &[u8]) -> bool {
    entry_of(subject, name).is_some()
        || name == b"StepRefused".as_slice()
        || name == b"TooLong".as_slice()
}

/// Whether the table has a fault of a log's line.
pub fn has_step_entry(name: &[u8]) -> bool {
    step_entry(name).is_some()
}

/// The most bytes of what a command reads.
pub(crate) fn most_bytes(subject: Subject) -> usize {
    match subject {
        Subject::Tables | Subject::Question => MOST_OF_TABLES,
        Subject::Certificate | Subject::Depth => MOST_OF_CERTIFICATE,
        Subject::Blif | Subject::Bench | Subject::Aiger => MOST_OF_NETLIST,
        Subject::Pair => MOST_OF_TWO,
    }
}

/// What a line says after the most bytes: an option sets those of a certificate.
pub(crate) fn after_most_bytes(subject: Subject) -> &'static [u8] {
    match subject {
        Subject::Certificate | Subject::Depth =>
            b" bytes are read; recheck --most-bytes N reads more",
        _ => b" bytes are read",
    }
}
