//! What is known of a command line, up to some word.

/// What the next word of a command line is.
#[derive(Clone, Copy)]
pub enum Next {
    /// An option's name, an operand, or `--`.
    Word,
    /// The value of an option of the command.
    Value,
    /// The value of `-o`.
    Output,
    /// The value of `--certificate`.
    Certificate,
    /// An operand: `--` came before.
    Operand,
    /// None: an option is named twice.
    Nothing,
}

/// A command line as far as it was read, or all of it.
#[derive(Drop)]
pub struct FileLine {
    /// The command's name and its own options, without files.
    pub words: Vec<String>,
    /// The files that are read.
    pub operands: Vec<String>,
    /// The file of `-o`.
    pub output: Option<String>,
    /// The file of `--certificate`.
    pub certificate: Option<String>,
    /// What the next word is.
    pub next: Next,
}
