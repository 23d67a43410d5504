//! Where a netlist drives and reads a name.

use crate::tokens::{Separators, goes_on, next_token, without_comment};
use text_core::next_line;

/// What is looked for.
#[derive(Clone, Copy)]
pub(crate) enum Role {
    /// The first statement that reads the name.
    Read,
    /// The first that drives it.
    Driven,
    /// The second that drives it.
    DrivenAgain,
}

/// What a statement does with its names.
#[derive(Clone, Copy)]
enum Kind {
    /// It drives all of them.
    DrivesAll,
    /// It drives the last.
    DrivesLast,
    /// It drives the second.
    DrivesSecond,
    /// It drives the first, which is its first word.
    DrivesFirst,
    /// It reads all of them.
    Reads,
    /// Neither.
    Other,
}

/// A statement as far as it was read: where the name stands in it.
#[derive(Clone, Copy)]
struct Statement {
    line: u32,
    kind: Kind,
    count: u32,
    is_first: bool,
    is_second: bool,
    is_before: bool,
    is_last: bool,
}

/// The kind of a statement of BLIF.
fn blif_kind(word: &[u8]) -> Kind {
    if word == b".inputs".as_slice() {
        Kind::DrivesAll
    } else if word == b".names".as_slice() {
        Kind::DrivesLast
    } else if word == b".latch".as_slice() {
        Kind::DrivesSecond
    } else if word == b".outputs".as_slice() || word == b".clock".as_slice() {
        Kind::Reads
    } else {
        Kind::Other
    }
}

/// The kind of a line of BENCH.
fn bench_kind(word: &[u8]) -> Kind {
    if word == b"INPUT".as_slice() || word == b"input".as_slice() {
        Kind::DrivesAll
    } else if word == b"OUTPUT".as_slice() || word == b"output".as_slice() {
        Kind::Reads
    } else {
        Kind::DrivesFirst
    }
}

/// The statement before its first word.
fn begun(line: u32) -> Statement {
    Statement {
        line,
        kind: Kind::Other,
        count: 0,
        is_first: false,
        is_second: false,
        is_before: false,
        is_last: false,
    }
}

/// The kind of a statement by its first word.
fn kind_of(separators: Separators, word: &[u8]) -> Kind {
    match separators {
        Separators::Blanks => blif_kind(word),
        Separators::Bench => bench_kind(word),
    }
}

/// The statement after one more word, which is the name or isn't.
fn with_word(separators: Separators, s: Statement, word: &[u8], name: &[u8]) -> Statement {
    let is_name = word == name;
    let count = s.count.saturating_add(1);
    if s.count == 0 {
        return Statement {
            kind: kind_of(separators, word),
            count,
            is_first: is_name,
            ..s
        };
    }
    Statement {
        count,
        is_second: s.is_second || (s.count == 2 && is_name),
        is_before: s.is_before || s.is_last,
        is_last: is_name,
        ..s
    }
}

/// The statement after the words of a line.
fn with_line(separators: Separators, s: Statement, line: &[u8], name: &[u8]) -> Statement {
    let mut now = s;
    let mut left = line;
    for _ in 0..line.len() {
        let (word, rest) = next_token(separators, left);
        if word.is_empty() {
            break;
        }
        if word != b"\\".as_slice() {
            now = with_word(separators, now, word, name);
        }
        left = rest;
    }
    now
}

/// Whether a statement drives the name.
fn drives(s: Statement) -> bool {
    match s.kind {
        Kind::DrivesAll => s.is_before || s.is_last,
        Kind::DrivesLast => s.is_last,
        Kind::DrivesSecond => s.is_second,
        Kind::DrivesFirst => s.is_first,
        Kind::Reads | Kind::Other => false,
    }
}

/// Whether a statement reads the name.
fn reads(s: Statement) -> bool {
    let is_anywhere = s.is_before || s.is_last;
    match s.kind {
        Kind::DrivesLast => s.is_before,
        Kind::DrivesSecond => is_anywhere && !s.is_second,
        Kind::DrivesFirst | Kind::Reads => is_anywhere,
        Kind::DrivesAll | Kind::Other => false,
    }
}

/// Whether a statement is looked for, where `count` before it drive the name.
fn is_wanted(role: Role, s: Statement, count: u32) -> bool {
    match role {
        Role::Read => reads(s),
        Role::Driven => drives(s),
        Role::DrivenAgain => drives(s) && count > 0,
    }
}

/// The line of the statement of a netlist that reads or drives a name; None if there is none.
pub(crate) fn line_of_name(
    separators: Separators,
    text: &[u8],
    name: &[u8],
    role: Role,
) -> Option<u32> {
    let mut left = text;
    let mut number: u32 = 1;
    let mut count: u32 = 0;
    let mut now = begun(1);
    for _ in 0..text.len() {
        let (line, _, rest) = next_line(left)?;
        let words = without_comment(line);
        now = with_line(separators, now, words, name);
        number = number.saturating_add(1);
        if !(matches!(separators, Separators::Blanks) && goes_on(words)) {
            if is_wanted(role, now, count) {
                return Some(now.line);
            }
            if drives(now) {
                count = count.saturating_add(1);
            }
            now = begun(number);
        }
        left = rest;
    }
    None
}
