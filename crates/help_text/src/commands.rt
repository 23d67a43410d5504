//! The commands by name, and what each is for.

/// A command.
#[derive(Clone, Copy)]
pub(crate) enum CommandName {
    Synth,
    Recheck,
    Formula,
    Agree,
    Improve,
    Equiv,
    Gen,
}

/// All commands, in the order of the pages.
pub(crate) const COMMANDS: &[CommandName] = &[
    CommandName::Synth,
    CommandName::Recheck,
    CommandName::Formula,
    CommandName::Agree,
    CommandName::Improve,
    CommandName::Equiv,
    CommandName::Gen,
];

/// The name of a command.
pub(crate) fn name_of(command: CommandName) -> &'static [u8] {
    match command {
        CommandName::Synth => b"synth",
        CommandName::Recheck => b"recheck",
        CommandName::Formula => b"formula",
        CommandName::Agree => b"agree",
        CommandName::Improve => b"improve",
        CommandName::Equiv => b"equiv",
        CommandName::Gen => b"gen",
    }
}

/// What a command is for, in one line.
pub(crate) fn purpose_of(command: CommandName) -> &'static [u8] {
    match command {
        CommandName::Synth =>
            b"truth tables -> a chain with the fewest two-input steps, and a certificate",
        CommandName::Recheck => b"a certificate -> its verdict, if and only if it is valid",
        CommandName::Formula =>
            b"a certificate -> the formula of a size in DIMACS, and its log as LRAT",
        CommandName::Agree =>
            b"truth tables and a chain -> whether the chain has every specified value",
        CommandName::Improve =>
            b"a netlist (BLIF, BENCH, AIGER) -> an equivalent one with no more gates, and a report",
        CommandName::Equiv =>
            b"two netlists -> equal, with an LRAT refutation; or a counterexample",
        CommandName::Gen => b"a number -> a BLIF netlist of that many blocks",
    }
}

/// The command with a name.
pub(crate) fn command_named(word: &[u8]) -> Option<CommandName> {
    for command in COMMANDS {
        if name_of(*command) == word {
            return Some(*command);
        }
    }
    None
}

/// The most files that a command reads.
pub(crate) fn most_files(command: CommandName) -> usize {
    match command {
        CommandName::Gen => 0,
        CommandName::Synth | CommandName::Recheck | CommandName::Formula => 1,
        CommandName::Agree | CommandName::Improve => 1,
        CommandName::Equiv => 2,
    }
}
