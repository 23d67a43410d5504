//! The commands that a command line can ask for.

use settings::{ImproveSettings, SynthSettings};

/// A format of netlists.
#[derive(Clone, Copy, PartialEq, Eq)]
pub enum Format {
    Blif,
    Bench,
}

/// What `gen` does with the netlist.
#[derive(Clone, Copy, PartialEq, Eq)]
pub enum GenAction {
    /// Write it.
    Write,
    /// Improve it, as `improve` does, and write the result.
    Improve,
}

/// A command with its settings.
#[derive(Clone, Copy, PartialEq, Eq)]
pub enum Command {
    /// Report whether a chain implements its tables, or the first difference.
    Agree,
    /// Report whether a certificate is valid, and its verdict.
    Recheck,
    /// Report the same for a certificate that the chain has the fewest levels too.
    RecheckDepth,
    /// Find a chain with the fewest steps, and write the certificate.
    Synth(SynthSettings),
    /// Find a chain with the fewest steps, and among those one with the fewest levels, by fences.
    LeastDepth(SynthSettings),
    /// Write an equivalent netlist with no more gates, found by resynthesis of windows.
    Improve {
        format: Format,
        settings: ImproveSettings,
    },
    /// Decide whether two netlists are equivalent, within a budget of conflicts. Each pair or output that is
    /// given up costs its limit, and the last search costs the clauses that it learns.
    Equiv(u32),
    /// Generate a netlist of `blocks` blocks, 1 to 10,000, and write or improve it.
    Gen {
        blocks: u32,
        action: GenAction,
    },
}

/// Why the arguments aren't a command.
#[derive(Clone, Copy, PartialEq, Eq)]
pub enum WordsError {
    /// They aren't a command line.
    Usage,
}
