//! What options of a command ask of each other: a table of rules, of which the first that words break is told.

use crate::commands::{CommandName, name_of};
use crate::options::row_named;
use crate::pen::{Part, push_parts};
use crate::phrases::{push_takes, push_word};
use crate::values::{ends_with, file_at, has_value, value_of};
use op_basis::{BENCH, read_basis};
use std::alloc::AllocError;
use text_core::number_up_to;

/// The operators that AIGER can express: all but XOR and its complement.
const AND_SET: u16 = 64_959;

/// When words break a rule.
#[derive(Clone, Copy)]
enum Breach {
    /// This option isn't named.
    Missing(&'static [u8]),
    /// The first option is named, and the second isn't.
    Alone(&'static [u8], &'static [u8]),
    /// Both options are named.
    Both(&'static [u8], &'static [u8]),
    /// The first option is named, and the second has this value.
    Beside(&'static [u8], &'static [u8], &'static [u8]),
    /// The first option has the first value, and the second option hasn't the second value.
    Without(&'static [u8], &'static [u8], &'static [u8], &'static [u8]),
    /// The number of the first option is greater than that of the second.
    Greater(&'static [u8], &'static [u8]),
    /// Both options name one file.
    OneFile(&'static [u8], &'static [u8]),
    /// This option names standard output.
    ToOutput(&'static [u8]),
    /// This option names one of the two netlists.
    Netlist(&'static [u8]),
    /// This option is named, and the file at this place is missing or standard input.
    Unnamed(&'static [u8], usize),
    /// This option is named, and fewer than two files are.
    Few(&'static [u8]),
    /// This option is named, and the netlist is in a format without it, since the words break no other rule.
    Beyond(&'static [u8]),
    /// The netlist is in BENCH, and the basis has an operator that BENCH doesn't have.
    BeyondBench,
    /// The netlist may be in AIGER, and the basis has an operator that AIGER can't express.
    BeyondAiger,
}

/// A rule: when words break it, and what is said then.
#[derive(Clone, Copy)]
pub(crate) struct Rule {
    breach: Breach,
    says: &'static [u8],
}

/// The rules of all commands.
const COMMON: &[Rule] = &[
    Rule {
        breach: Breach::OneFile(b"-o", b"--certificate"),
        says: b"-o and --certificate name one file",
    },
    Rule {
        breach: Breach::ToOutput(b"--certificate"),
        says: b"--certificate names a file, and not standard output",
    },
];

const SYNTH: &[Rule] = &[
    Rule {
        breach: Breach::Without(b"--least-depth", b"yes", b"--method", b"fence"),
        says: b"--least-depth yes goes with --method fence alone",
    },
    Rule {
        breach: Breach::Alone(b"--part", b"--size"),
        says: b"",
    },
    Rule {
        breach: Breach::Greater(b"--size", b"--max"),
        says: b"--size is at most --max",
    },
    Rule {
        breach: Breach::Both(b"--size", b"--certificate"),
        says: b"with --size only a part is written, to the file of -o, and not of --certificate",
    },
    Rule {
        breach: Breach::Beside(b"--size", b"--least-depth", b"yes"),
        says: b"with --size only a part is searched, without --least-depth yes",
    },
];

const FORMULA: &[Rule] = &[
    Rule {
        breach: Breach::ToOutput(b"--log"),
        says: b"--log names a file, and not standard output",
    },
    Rule {
        breach: Breach::OneFile(b"-o", b"--log"),
        says: b"-o and --log name one file",
    },
    Rule {
        breach: Breach::Unnamed(b"--log", 0),
        says: b"with --log the certificate is read twice: it has to be a file",
    },
];

const IMPROVE: &[Rule] = &[
    Rule {
        breach: Breach::BeyondBench,
        says: b"with --format bench the basis has operators of bench alone, and not ",
    },
    Rule {
        breach: Breach::BeyondAiger,
        says: b"for AIGER the basis is without 0110 and 1001, as u2 or nand, and not ",
    },
    Rule {
        breach: Breach::Beyond(b"--covers"),
        says: b"--covers goes with BLIF alone",
    },
    Rule {
        breach: Breach::Beyond(b"--only"),
        says: b"--only goes with BLIF and BENCH: AIGER has AND gates alone",
    },
];

const EQUIV: &[Rule] = &[
    Rule {
        breach: Breach::Both(b"--at", b"--conflicts"),
        says: b"--at asks for values alone, without --conflicts",
    },
    Rule {
        breach: Breach::Both(b"--at", b"--formula"),
        says: b"--at asks for values alone, without --formula",
    },
    Rule {
        breach: Breach::Both(b"--at", b"--log"),
        says: b"--at asks for values alone, without --log",
    },
    Rule {
        breach: Breach::Both(b"--at", b"--certificate"),
        says: b"--at asks for values alone, without --certificate",
    },
    Rule {
        breach: Breach::Few(b"--at"),
        says: b"with --at equiv reads two files",
    },
    Rule {
        breach: Breach::Both(b"--match", b"--at"),
        says: b"--match compares two files alone, without --at",
    },
    Rule {
        breach: Breach::Both(b"--match", b"--formula"),
        says: b"--match compares two files alone, without --formula",
    },
    Rule {
        breach: Breach::Few(b"--match"),
        says: b"with --match equiv reads two files",
    },
    Rule {
        breach: Breach::Alone(b"--log", b"--formula"),
        says: b"",
    },
    Rule {
        breach: Breach::ToOutput(b"--formula"),
        says: b"--formula names a file, and not standard output",
    },
    Rule {
        breach: Breach::ToOutput(b"--log"),
        says: b"--log names a file, and not standard output",
    },
    Rule {
        breach: Breach::OneFile(b"-o", b"--formula"),
        says: b"-o and --formula name one file",
    },
    Rule {
        breach: Breach::OneFile(b"--certificate", b"--formula"),
        says: b"--certificate and --formula name one file",
    },
    Rule {
        breach: Breach::OneFile(b"--formula", b"--log"),
        says: b"--formula and --log name one file",
    },
    Rule {
        breach: Breach::OneFile(b"-o", b"--log"),
        says: b"-o and --log name one file",
    },
    Rule {
        breach: Breach::OneFile(b"--certificate", b"--log"),
        says: b"--certificate and --log name one file",
    },
    Rule {
        breach: Breach::Netlist(b"--formula"),
        says: b"--formula names a file of its own, and not one of the netlists",
    },
    Rule {
        breach: Breach::Netlist(b"--log"),
        says: b"--log names a file of its own, and not one of the netlists",
    },
    Rule {
        breach: Breach::Unnamed(b"--formula", 0),
        says: b"with --formula both netlists are read twice: they have to be files",
    },
    Rule {
        breach: Breach::Unnamed(b"--formula", 1),
        says: b"with --formula both netlists are read twice: they have to be files",
    },
    Rule {
        breach: Breach::Few(b"--format"),
        says: b"with --format equiv reads two files",
    },
];

const GEN: &[Rule] = &[Rule {
    breach: Breach::Missing(b"--blocks"),
    says: b"",
}];

/// The rules of a command.
fn rules_of(command: CommandName) -> &'static [Rule] {
    match command {
        CommandName::Synth => SYNTH,
        CommandName::Improve => IMPROVE,
        CommandName::Gen => GEN,
        CommandName::Formula => FORMULA,
        CommandName::Equiv => EQUIV,
        CommandName::Recheck | CommandName::Agree => &[],
    }
}

// ---- when words break them

/// Whether an option is named.
fn is_named(name: &[u8], words: &[String]) -> bool {
    value_of(name, words).is_some()
}

/// Whether two options name one file.
fn is_one_file(name: &[u8], other: &[u8], words: &[String]) -> bool {
    match (value_of(name, words), value_of(other, words)) {
        (Some(file), Some(other_file)) => file == other_file,
        _ => false,
    }
}

/// The number that an option has.
fn number_at(name: &[u8], words: &[String]) -> Option<u32> {
    number_up_to(u32::MAX, value_of(name, words)?)
}

/// Whether the number of an option is greater than that of another.
fn is_greater(name: &[u8], other: &[u8], words: &[String]) -> bool {
    match (number_at(name, words), number_at(other, words)) {
        (Some(number), Some(bound)) => number > bound,
        _ => false,
    }
}

/// Whether an option names one of the two netlists.
fn is_netlist(name: &[u8], words: &[String]) -> bool {
    match value_of(name, words) {
        Some(file) => file_at(0, words) == Some(file) || file_at(1, words) == Some(file),
        None => false,
    }
}

/// Whether the file at a place is named, and isn't standard input.
fn is_plain(place: usize, words: &[String]) -> bool {
    match file_at(place, words) {
        Some(file) => file != b"-".as_slice(),
        None => false,
    }
}

/// Whether the netlist is in BENCH: by `--format`, or else by the end of the file's name.
fn is_bench(words: &[String]) -> bool {
    match value_of(b"--format", words) {
        Some(format) => format == b"bench".as_slice(),
        None => match file_at(0, words) {
            Some(file) => ends_with(file, b".bench"),
            None => false,
        },
    }
}

/// Whether the netlist may be in AIGER: in place of `--format aiger` the words may have `--format blif`.
fn may_be_aiger(words: &[String]) -> bool {
    !is_bench(words)
}

/// Whether the basis has an operator that isn't in a set.
fn is_beyond(set: u16, words: &[String]) -> bool {
    let Some(word) = value_of(b"--basis", words) else {
        return false;
    };
    match read_basis(word) {
        Ok(basis) => basis.get() & set != basis.get(),
        Err(_) => false,
    }
}

/// Whether words break a rule.
fn is_broken(breach: Breach, words: &[String]) -> bool {
    match breach {
        Breach::Missing(name) => !is_named(name, words),
        Breach::Alone(name, other) => is_named(name, words) && !is_named(other, words),
        Breach::Both(name, other) => is_named(name, words) && is_named(other, words),
        Breach::Beside(name, other, value) => {
            is_named(name, words) && has_value(other, value, words)
        }
        Breach::Without(name, value, other, other_value) => {
            has_value(name, value, words) && !has_value(other, other_value, words)
        }
        Breach::Greater(name, other) => is_greater(name, other, words),
        Breach::OneFile(name, other) => is_one_file(name, other, words),
        Breach::ToOutput(name) => has_value(name, b"-", words),
        Breach::Netlist(name) => is_netlist(name, words),
        Breach::Unnamed(name, place) => is_named(name, words) && !is_plain(place, words),
        Breach::Few(name) => is_named(name, words) && file_at(1, words).is_none(),
        Breach::Beyond(name) => is_named(name, words),
        Breach::BeyondBench => is_bench(words) && is_beyond(BENCH, words),
        Breach::BeyondAiger => may_be_aiger(words) && is_beyond(AND_SET, words),
    }
}

/// The first of some rules that words break.
fn first_broken(rules: &[Rule], words: &[String]) -> Option<Rule> {
    for rule in rules {
        if is_broken(rule.breach, words) {
            return Some(*rule);
        }
    }
    None
}

/// The first rule that the words after a command break.
pub(crate) fn first_clash(command: CommandName, words: &[String]) -> Option<Rule> {
    match first_broken(COMMON, words) {
        Some(rule) => Some(rule),
        None => first_broken(rules_of(command), words),
    }
}

// ---- what is said

/// Appends that a command needs an option.
fn push_needed(text: &mut Vec<u8>, command: CommandName, name: &[u8]) -> Result<(), AllocError> {
    let Some(row) = row_named(command, name) else {
        return Ok(());
    };
    push_parts(
        text,
        &[Part::Text(name_of(command)), Part::Text(b" needs ")],
    )?;
    push_takes(text, &row, b" with a value: ")
}

/// Appends what a rule says that words break.
pub(crate) fn push_clash(
    text: &mut Vec<u8>,
    command: CommandName,
    rule: Rule,
    words: &[String],
) -> Result<(), AllocError> {
    match rule.breach {
        Breach::Missing(name) | Breach::Alone(_, name) => push_needed(text, command, name),
        Breach::BeyondBench | Breach::BeyondAiger => {
            let basis = value_of(b"--basis", words).unwrap_or(b"");
            push_word(text, rule.says, basis, b"")
        }
        _ => text.extend_from_slice(rule.says),
    }
}
