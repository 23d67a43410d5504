//! Entries of netlists.

use crate::expected::{Entry, Place};
use help_text::Part;
use net_theory::{
    DEFAULT_GATES, MOST_CUBES, MOST_GATES, MOST_LINE_BYTES, MOST_NAME_BYTES, MOST_TABLE_INPUTS,
};

/// Faults of netlists of both formats.
pub(crate) const NETLISTS: &[Entry] = &[
    Entry {
        name: b"MixedCover",
        place: Place::Line,
        says: &[Part::Text(b"all lines of a table have one output value")],
    },
    Entry {
        name: b"TooWide",
        place: Place::Line,
        says: &[
            Part::Text(b"at most "),
            Part::Count(MOST_TABLE_INPUTS),
            Part::Text(b" inputs of a table or a gate"),
        ],
    },
    Entry {
        name: b"TooManyGates",
        place: Place::Counted,
        says: &[Part::Text(b" gates; at most "), Part::Number(DEFAULT_GATES)],
    },
    Entry {
        name: b"CannotExpress",
        place: Place::Nowhere,
        says: &[Part::Text(
            b"gates over --basis can't make this gate, as `improve --cap 0` names it; allow more operators",
        )],
    },
    Entry {
        name: b"TooManyOverBasis",
        place: Place::Nowhere,
        says: &[
            Part::Text(b"over --basis the netlist could have more than "),
            Part::Number(MOST_GATES),
            Part::Text(b" gates; allow more operators, or improve it without --only first"),
        ],
    },
    Entry {
        name: b"DrivenTwice",
        place: Place::DrivenAgain,
        says: &[Part::Text(b"a name is driven once: by an input, a table or gate, or a latch")],
    },
    Entry {
        name: b"Undriven",
        place: Place::Read,
        says: &[Part::Text(b"an input, a table or gate, or a latch drives each name that is read")],
    },
    Entry {
        name: b"NoInput",
        place: Place::Read,
        says: &[Part::Text(b"an input of this name, as the other netlist has one")],
    },
    Entry {
        name: b"NoOutput",
        place: Place::Read,
        says: &[Part::Text(b"an output of this name, as the other netlist has one")],
    },
    Entry {
        name: b"NoLatch",
        place: Place::Driven,
        says: &[Part::Text(b"a latch with this output, as the other netlist has one")],
    },
    Entry {
        name: b"Cycle",
        place: Place::Driven,
        says: &[Part::Text(b"tables and gates form no loop; a latch breaks one")],
    },
    Entry {
        name: b"LineTooLong",
        place: Place::Line,
        says: &[
            Part::Text(b"at most "),
            Part::Count(MOST_LINE_BYTES),
            Part::Text(b" bytes in a line"),
        ],
    },
    Entry {
        name: b"TooManyRows",
        place: Place::Line,
        says: &[
            Part::Text(b"at most "),
            Part::Count(MOST_CUBES),
            Part::Text(b" cover lines of a table"),
        ],
    },
    Entry {
        name: b"NameTooLong",
        place: Place::Line,
        says: &[
            Part::Text(b"at most "),
            Part::Count(MOST_NAME_BYTES),
            Part::Text(b" bytes in a name"),
        ],
    },
    Entry {
        name: b"Empty",
        place: Place::Nowhere,
        says: &[Part::Text(b"a netlist; an empty text is what a command that failed leaves")],
    },
];

/// Faults of netlists in BLIF.
pub(crate) const BLIFS: &[Entry] = &[
    Entry {
        name: b"Syntax",
        place: Place::Line,
        says: &[Part::Text(
            b"a statement as `.names a b y`, or a line of its table as `1- 1` (batsokemi help blif)",
        )],
    },
    Entry {
        name: b"NotSupported",
        place: Place::Line,
        says: &[Part::Text(b"a statement that is read (batsokemi help blif)")],
    },
];

/// Faults of netlists in BENCH.
pub(crate) const BENCHES: &[Entry] = &[
    Entry {
        name: b"Syntax",
        place: Place::Line,
        says: &[Part::Text(b"`INPUT(a)`, `OUTPUT(y)` or `y = AND(a, b)` (batsokemi help bench)")],
    },
    Entry {
        name: b"NotSupported",
        place: Place::Line,
        says: &[Part::Text(
            b"a gate that is read: AND, NAND, OR, NOR, XOR, XNOR, NOT, BUFF, BUF or DFF",
        )],
    },
];

/// Faults of netlists in AIGER.
pub(crate) const AIGERS: &[Entry] = &[
    Entry {
        name: b"Syntax",
        place: Place::Line,
        says: &[Part::Text(
            b"`aag M I L O A`, then inputs, latches, outputs, gates and symbols (batsokemi help aiger)",
        )],
    },
    Entry {
        name: b"NotSupported",
        place: Place::Line,
        says: &[Part::Text(
            b"counts within the limits, no justice or fairness property, and no name that begins with `&`",
        )],
    },
];

/// Faults of two netlists.
pub(crate) const PAIRS: &[Entry] = &[
    Entry {
        name: b"NoSecond",
        place: Place::Nowhere,
        says: &[Part::Text(
            b"two netlists: two files, or one text of which the first ends with its line `.end`",
        )],
    },
    Entry {
        name: b"DifferentInterface",
        place: Place::Nowhere,
        says: &[Part::Text(
            b"the same inputs, outputs and clocks in the same order, and the same latches",
        )],
    },
    Entry {
        name: b"DifferentLatches",
        place: Place::Nowhere,
        says: &[Part::Text(
            b"the same clocks, and one control and initial value of the latches of each name",
        )],
    },
    Entry {
        name: b"SourceCount",
        place: Place::Counted,
        says: &[Part::Text(b" inputs and latches; --at has one bit for each of them")],
    },
];

/// What a word of BLIF that isn't read asks for.
pub(crate) const WORDS: &[Entry] = &[
    Entry {
        name: b".subckt",
        place: Place::Line,
        says: &[Part::Text(
            b"a netlist of one model without hierarchy is read; yosys: flatten; techmap",
        )],
    },
    Entry {
        name: b".gate",
        place: Place::Line,
        says: &[Part::Text(
            b"a netlist of tables is read; yosys: techmap, or write_blif without -gates",
        )],
    },
    Entry {
        name: b".mlatch",
        place: Place::Line,
        says: &[Part::Text(b"a latch is `.latch`; yosys: techmap, or write_blif without -gates")],
    },
    Entry {
        name: b".exdc",
        place: Place::Line,
        says: &[Part::Text(b"external don't-cares aren't read; sis: write_blif without them")],
    },
    Entry {
        name: b".model",
        place: Place::Line,
        says: &[Part::Text(b"a netlist of one model is read; yosys: flatten")],
    },
    Entry {
        name: b".search",
        place: Place::Line,
        says: &[Part::Text(b"a netlist of one file is read")],
    },
];
