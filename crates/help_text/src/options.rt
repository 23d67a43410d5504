//! The table of options: for each command what it takes, with ranges and defaults.

use crate::commands::CommandName;
use crate::pen::Part;
use settings::{
    DEFAULT_CONFLICTS, DEFAULT_EFFORT, ImproveSettings, MOST_BLOCKS, MOST_CONFLICTS, MOST_EFFORT,
    MOST_GATES_OF_WINDOW, MOST_ROUNDS, MOST_SEED, MOST_STEPS,
};
use text_core::MOST_NUMBER;

/// The values that an option takes.
#[derive(Clone, Copy)]
pub(crate) enum Allowed {
    /// A number from the first to the second.
    Number(u32, u32),
    /// A number of bytes up to this one.
    Bytes(usize),
    /// One of these words.
    Words(&'static [&'static [u8]]),
    /// A set of operators.
    Basis,
    /// The name of a file.
    File,
    /// Zeros and ones, or `-` for none.
    Bits,
    /// One of these words, or a number up to this one.
    WordsOr(&'static [&'static [u8]], u32),
}

/// The value of an option that isn't named.
#[derive(Clone, Copy)]
pub(crate) enum Default {
    /// There is none: the option has to be named.
    Needed,
    /// Nothing happens without the option.
    Nothing,
    /// A word.
    Word(&'static [u8]),
    /// A number.
    Number(u32),
    /// The setting of `improve` of that name.
    Cap,
    /// The same.
    Rounds,
    /// The same.
    Effort,
    /// The same.
    Seed,
}

/// An option.
#[derive(Clone, Copy)]
pub(crate) struct Row {
    /// Its name.
    pub(crate) name: &'static [u8],
    /// What its value is called.
    pub(crate) value: &'static [u8],
    /// The values that it takes.
    pub(crate) allowed: Allowed,
    /// The value without it.
    pub(crate) default: Default,
    /// What it means.
    pub(crate) says: &'static [u8],
}

/// The most bytes of a certificate that are read if no number is named, and the greatest number.
const MOST_OF_CERTIFICATE: u32 = 268_435_456;

const MOST_OF_LONG: usize = 1_099_511_627_776;

/// The greatest number of levels that can be named.
const MOST_LEVELS: u32 = 1_000_000;

const YES_OR_NO: Allowed = Allowed::Words(&[b"yes", b"no"]);

const METHODS: Allowed = Allowed::Words(&[
    b"ssv",
    b"select",
    b"fence",
    b"strong",
    b"strong-fence",
    b"plain",
]);

const CHOICES: Allowed = Allowed::Words(&[
    b"ssv",
    b"select",
    b"fence",
    b"strong",
    b"strong-fence",
    b"plain",
    b"auto",
]);

const OUTPUT: Row = Row {
    name: b"-o",
    value: b"FILE",
    allowed: Allowed::File,
    default: Default::Nothing,
    says: b"the answer goes to FILE, which is written completely or not at all",
};

const CERTIFICATE: Row = Row {
    name: b"--certificate",
    value: b"FILE",
    allowed: Allowed::File,
    default: Default::Nothing,
    says: b"the whole answer goes to FILE, and only its chain and verdict, or its result, are written",
};

const BASIS: Row = Row {
    name: b"--basis",
    value: b"BASIS",
    allowed: Allowed::Basis,
    default: Default::Word(b"all"),
    says: b"operators that a step may have",
};

const METHOD: Row = Row {
    name: b"--method",
    value: b"METHOD",
    allowed: METHODS,
    default: Default::Word(b"ssv"),
    says: b"how a size becomes a formula; what a verdict means is the same",
};

const CHOICE: Row = Row {
    name: b"--method",
    value: b"METHOD",
    allowed: CHOICES,
    default: Default::Word(b"ssv"),
    says: b"how a size becomes a formula; what a verdict means is the same; auto: by the tables, as for a named FILE",
};

const MAX: Row = Row {
    name: b"--max",
    value: b"R",
    allowed: Allowed::Number(0, MOST_STEPS),
    default: Default::Number(MOST_STEPS),
    says: b"the greatest size to try",
};

const CONFLICTS: Row = Row {
    name: b"--conflicts",
    value: b"N",
    allowed: Allowed::Number(1, MOST_CONFLICTS),
    default: Default::Number(DEFAULT_CONFLICTS),
    says: b"learnt clauses before a formula is left open",
};

const SYNTH_EFFORT: Row = Row {
    name: b"--effort",
    value: b"N",
    allowed: Allowed::Number(0, MOST_EFFORT),
    default: Default::Number(DEFAULT_EFFORT),
    says: b"a factor for the work of walks that look for a chain before formulas do",
};

const LEAST_DEPTH: Row = Row {
    name: b"--least-depth",
    value: b"yes or no",
    allowed: YES_OR_NO,
    default: Default::Word(b"no"),
    says: b"also the fewest levels among the chains of the fewest steps; only with --method fence",
};

const SIZE: Row = Row {
    name: b"--size",
    value: b"R",
    allowed: Allowed::Number(0, MOST_STEPS),
    default: Default::Nothing,
    says: b"only a part of this size is searched, and what a certificate has for it is written",
};

const PART: Row = Row {
    name: b"--part",
    value: b"P",
    allowed: Allowed::Number(1, MOST_NUMBER),
    default: Default::Number(1),
    says: b"the part of --size; a size has one, and by fence and strong-fence one for each fence",
};

const SYNTH: &[Row] = &[
    BASIS,
    CHOICE,
    MAX,
    CONFLICTS,
    SYNTH_EFFORT,
    LEAST_DEPTH,
    SIZE,
    PART,
    OUTPUT,
    CERTIFICATE,
];

const RECHECK: &[Row] = &[
    Row {
        name: b"--depth",
        value: b"yes or no",
        allowed: YES_OR_NO,
        default: Default::Word(b"no"),
        says: b"the certificate is one of `--least-depth yes`",
    },
    Row {
        name: b"--most-bytes",
        value: b"N",
        allowed: Allowed::Bytes(MOST_OF_LONG),
        default: Default::Number(MOST_OF_CERTIFICATE),
        says: b"the most bytes that are read; the memory is that of one formula and its live clauses",
    },
    OUTPUT,
];

const FORMULA: &[Row] = &[
    Row {
        name: b"--size",
        value: b"R",
        allowed: Allowed::Number(0, MOST_NUMBER),
        default: Default::Nothing,
        says: b"the size; without it the last one that has a section",
    },
    Row {
        name: b"--part",
        value: b"P",
        allowed: Allowed::Number(0, MOST_NUMBER),
        default: Default::Number(1),
        says: b"the part of the size; only with fence and strong-fence are there several",
    },
    Row {
        name: b"--log",
        value: b"FILE",
        allowed: Allowed::File,
        default: Default::Nothing,
        says: b"the log goes to FILE as plain LRAT; the certificate has to be a file, since it is read again",
    },
    OUTPUT,
];

const AGREE: &[Row] = &[OUTPUT];

const IMPROVE: &[Row] = &[
    Row {
        name: b"--cap",
        value: b"N",
        allowed: Allowed::Number(0, MOST_GATES_OF_WINDOW),
        default: Default::Cap,
        says: b"the most gates of a window; 0 only removes dangling gates",
    },
    Row {
        name: b"--observe",
        value: b"yes or no",
        allowed: YES_OR_NO,
        default: Default::Word(b"no"),
        says: b"use observability don't-cares (ODC) besides satisfiability don't-cares (SDC)",
    },
    Row {
        name: b"--effort",
        value: b"N",
        allowed: Allowed::Number(0, MOST_EFFORT),
        default: Default::Effort,
        says: b"further stages of walks over random windows: more may save gates, and take longer",
    },
    Row {
        name: b"--seed",
        value: b"N",
        allowed: Allowed::Number(0, MOST_SEED),
        default: Default::Seed,
        says: b"the seed of random choices",
    },
    Row {
        name: b"--basis",
        value: b"BASIS",
        allowed: Allowed::Basis,
        default: Default::Word(b"all"),
        says: b"operators that new gates may have; for BENCH a subset of `bench`, for AIGER all but 0110 and 1001",
    },
    Row {
        name: b"--only",
        value: b"yes or no",
        allowed: YES_OR_NO,
        default: Default::Word(b"no"),
        says: b"of BLIF and BENCH: all gates are over --basis; others are first made of gates over it",
    },
    Row {
        name: b"--levels",
        value: b"LEVELS",
        allowed: Allowed::WordsOr(&[b"tell", b"keep"], MOST_LEVELS),
        default: Default::Nothing,
        says: b"tell: the report has the levels before and after; keep or N: no more levels than before, or than N",
    },
    Row {
        name: b"--covers",
        value: b"COVERS",
        allowed: Allowed::Words(&[b"rows", b"least"]),
        default: Default::Word(b"rows"),
        says: b"of BLIF: a table has its rows with 1; with least the one with 0 where three have 1",
    },
    METHOD,
    Row {
        name: b"--conflicts",
        value: b"N",
        allowed: Allowed::Number(1, MOST_CONFLICTS),
        default: Default::Number(DEFAULT_CONFLICTS),
        says: b"as of synth, for each window of six gates or more",
    },
    Row {
        name: b"--rounds",
        value: b"N",
        allowed: Allowed::Number(1, MOST_ROUNDS),
        default: Default::Rounds,
        says: b"rounds over all windows that may change something",
    },
    Row {
        name: b"--format",
        value: b"FORMAT",
        allowed: Allowed::Words(&[b"blif", b"bench", b"aiger"]),
        default: Default::Word(b"blif"),
        says: b"of both netlists; for a file whose name ends with .bench, .aag or .aig the default is bench or aiger",
    },
    OUTPUT,
];

const EQUIV: &[Row] = &[
    Row {
        name: b"--conflicts",
        value: b"N",
        allowed: Allowed::Number(1, MOST_CONFLICTS),
        default: Default::Number(DEFAULT_CONFLICTS),
        says: b"conflicts without a result before the answer is `undecided`",
    },
    Row {
        name: b"--formula",
        value: b"FILE",
        allowed: Allowed::File,
        default: Default::Nothing,
        says: b"the miter goes to FILE in DIMACS; the netlists have to be two BLIF files, since they are read again",
    },
    Row {
        name: b"--log",
        value: b"FILE",
        allowed: Allowed::File,
        default: Default::Nothing,
        says: b"with --formula, of two BLIF files: where they are equal, the log goes to FILE as plain LRAT",
    },
    Row {
        name: b"--at",
        value: b"BITS",
        allowed: Allowed::Bits,
        default: Default::Nothing,
        says: b"no comparison: the values in both netlists where the inputs and then the latches have these bits",
    },
    Row {
        name: b"--match",
        value: b"names",
        allowed: Allowed::Words(&[b"names"]),
        default: Default::Nothing,
        says: b"inputs, outputs and latches of two files correspond by their names, in any order",
    },
    Row {
        name: b"--format",
        value: b"FORMAT",
        allowed: Allowed::Words(&[b"blif", b"bench", b"aiger"]),
        default: Default::Word(b"blif"),
        says: b"of both files; without it each has that of its name's end: .bench, .aag, .aig, and else BLIF",
    },
    OUTPUT,
    CERTIFICATE,
];

const GEN: &[Row] = &[
    Row {
        name: b"--blocks",
        value: b"N",
        allowed: Allowed::Number(1, MOST_BLOCKS),
        default: Default::Needed,
        says: b"the number of blocks",
    },
    Row {
        name: b"--run",
        value: b"WHAT",
        allowed: Allowed::Words(&[b"write", b"improve"]),
        default: Default::Word(b"write"),
        says: b"the netlist, or what `improve` makes of it",
    },
    OUTPUT,
];

/// The options of a command.
pub(crate) fn options_of(command: CommandName) -> &'static [Row] {
    match command {
        CommandName::Synth => SYNTH,
        CommandName::Recheck => RECHECK,
        CommandName::Formula => FORMULA,
        CommandName::Agree => AGREE,
        CommandName::Improve => IMPROVE,
        CommandName::Equiv => EQUIV,
        CommandName::Gen => GEN,
    }
}

/// The option with a name.
pub(crate) fn row_named(command: CommandName, name: &[u8]) -> Option<Row> {
    for row in options_of(command) {
        if row.name == name {
            return Some(*row);
        }
    }
    None
}

/// The default of an option, as text; None if there is none.
pub(crate) fn default_of(row: &Row) -> Option<Part> {
    match row.default {
        Default::Needed | Default::Nothing => None,
        Default::Word(word) => Some(Part::Text(word)),
        Default::Number(number) => Some(Part::Number(number)),
        Default::Cap => Some(Part::Number(ImproveSettings::defaults().cap)),
        Default::Rounds => Some(Part::Number(ImproveSettings::defaults().rounds)),
        Default::Effort => Some(Part::Number(ImproveSettings::defaults().effort)),
        Default::Seed => Some(Part::Number(ImproveSettings::defaults().seed)),
    }
}
