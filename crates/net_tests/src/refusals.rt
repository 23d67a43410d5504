//! The names of errors, for the tables of tests.

use net_core::NetError;

/// The name of an error with a line, and the line.
fn fault(error: &NetError) -> (&'static str, u32) {
    match error {
        NetError::Syntax(line) => ("Syntax", *line),
        NetError::NotSupported(line, _) => ("NotSupported", *line),
        NetError::MixedCover(line) => ("MixedCover", *line),
        NetError::TooWide(line) => ("TooWide", *line),
        NetError::LineTooLong(line) => ("LineTooLong", *line),
        NetError::TooManyRows(line) => ("TooManyRows", *line),
        NetError::NameTooLong(line) => ("NameTooLong", *line),
        _ => ("another", 0),
    }
}

/// Whether an error is `word` at line `line`.
pub fn reports(error: &NetError, word: &str, line: u32) -> bool {
    let (reported, at) = fault(error);
    reported == word && at == line
}

/// The name of an error with a netlist name, and that name.
fn named(error: &NetError) -> (&'static str, &[u8]) {
    match error {
        NetError::DrivenTwice(reported) => ("DrivenTwice", reported.get()),
        NetError::Undriven(reported) => ("Undriven", reported.get()),
        NetError::Cycle(reported) => ("Cycle", reported.get()),
        NetError::NotSupported(_, reported) => ("NotSupported", reported.get()),
        _ => ("another", b""),
    }
}

/// Whether an error is `word` with the name `name`.
pub fn names(error: &NetError, word: &str, name: &[u8]) -> bool {
    let (reported, at) = named(error);
    reported == word && at == name
}
