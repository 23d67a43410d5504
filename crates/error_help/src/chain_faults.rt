//! Entries of tables, chains and certificates.

use crate::expected::{Entry, Place};
use chain_theory::MOST_STEPS;
use help_text::Part;
use tt_core::{MOST_INPUTS, MOST_OUTPUTS};

/// Faults of truth tables.
pub(crate) const TABLES: &[Entry] = &[
    Entry {
        name: b"BadHeader",
        place: Place::Line,
        says: &[Part::Text(b"the first line is `inputs ` and a number of at most nine digits")],
    },
    Entry {
        name: b"BadRow",
        place: Place::Line,
        says: &[Part::Text(
            b"a row has the characters 0, 1 and - alone, and nothing comes after the rows",
        )],
    },
    Entry {
        name: b"WrongLength",
        place: Place::Line,
        says: &[Part::Text(b"a row has 2^N characters, where N is the number of inputs")],
    },
    Entry {
        name: b"TooManyInputs",
        place: Place::At(1),
        says: &[
            Part::Text(b"at most "),
            Part::Number(MOST_INPUTS),
            Part::Text(b" inputs"),
        ],
    },
    Entry {
        name: b"TooManyOutputs",
        place: Place::At(10),
        says: &[
            Part::Text(b"at most "),
            Part::Count(MOST_OUTPUTS),
            Part::Text(b" rows, one for each output"),
        ],
    },
    Entry {
        name: b"NoOutput",
        place: Place::At(2),
        says: &[Part::Text(b"a row for each output comes after the line `inputs N`")],
    },
];

/// Faults of chains.
pub(crate) const CHAINS: &[Entry] = &[
    Entry {
        name: b"BadCount",
        place: Place::Line,
        says: &[Part::Text(b"`chain ` and the number of steps come after the tables")],
    },
    Entry {
        name: b"TooManySteps",
        place: Place::Line,
        says: &[
            Part::Text(b"at most "),
            Part::Number(MOST_STEPS),
            Part::Text(b" steps"),
        ],
    },
    Entry {
        name: b"BadStep",
        place: Place::Line,
        says: &[Part::Text(
            b"a step has its place, two operands and the operator's four values, as `x3 x1 x2 0110`",
        )],
    },
    Entry {
        name: b"ForwardPlace",
        place: Place::Line,
        says: &[Part::Text(b"the operands of a step are inputs or steps before it")],
    },
    Entry {
        name: b"BadOut",
        place: Place::Line,
        says: &[Part::Text(b"`out ` and 0, 1 or a place of the chain, for each output")],
    },
    Entry {
        name: b"BadEnd",
        place: Place::Line,
        says: &[Part::Text(b"the last line is `end`, and nothing comes after it")],
    },
];

/// Faults of certificates.
pub(crate) const CERTIFICATES: &[Entry] = &[
    Entry {
        name: b"Syntax",
        place: Place::Line,
        says: &[Part::Text(
            b"a line of a certificate in its one spelling (batsokemi help certificates)",
        )],
    },
    Entry {
        name: b"SizeOutOfOrder",
        place: Place::Line,
        says: &[Part::Text(
            b"sizes come in order up to `max`, and the chain has as many steps as there are sections",
        )],
    },
    Entry {
        name: b"NotRefuted",
        place: Place::Line,
        says: &[Part::Text(
            b"the log of a size derives the empty clause, and each listed fence has one",
        )],
    },
    Entry {
        name: b"ChainDiffers",
        place: Place::Nowhere,
        says: &[Part::Text(
            b"the chain has each value of the tables; the numbers are the output, from 1, and the row, from 0",
        )],
    },
    Entry {
        name: b"OperatorNotInBasis",
        place: Place::Nowhere,
        says: &[Part::Text(
            b"each step has an operator of the basis; the number is the step's place",
        )],
    },
    Entry {
        name: b"OpenTooShort",
        place: Place::Line,
        says: &[Part::Text(b"an open log has at least as many additions as `conflicts` says")],
    },
    Entry {
        name: b"NotNew",
        place: Place::Line,
        says: &[Part::Text(b"an addition of an open log isn't subsumed by a live clause")],
    },
    Entry {
        name: b"WrongVerdict",
        place: Place::Line,
        says: &[Part::Text(b"the verdict that follows from the sections and the chain")],
    },
];

/// Faults of depth certificates.
pub(crate) const DEPTHS: &[Entry] = &[
    Entry {
        name: b"NotLeastForm",
        place: Place::Nowhere,
        says: &[Part::Text(b"the certificate is by `fence`, and its verdict is `minimum`")],
    },
    Entry {
        name: b"Syntax",
        place: Place::Line,
        says: &[Part::Text(
            b"a line of a depth certificate in its one spelling (batsokemi help levels)",
        )],
    },
    Entry {
        name: b"WrongDepth",
        place: Place::Line,
        says: &[Part::Text(b"`depth ` and the levels of the chain")],
    },
    Entry {
        name: b"NotNew",
        place: Place::Line,
        says: &[Part::Text(b"an addition of an open log isn't subsumed by a live clause")],
    },
    Entry {
        name: b"NotRefuted",
        place: Place::Line,
        says: &[Part::Text(
            b"the log of a fence derives the empty clause, and each listed fence has one",
        )],
    },
    Entry {
        name: b"OpenTooShort",
        place: Place::Line,
        says: &[Part::Text(b"an open log has at least as many additions as `conflicts` says")],
    },
    Entry {
        name: b"WrongLevels",
        place: Place::Line,
        says: &[Part::Text(b"the verdict that follows from the fences")],
    },
];

/// Faults of a part of a certificate that is asked for.
pub(crate) const PARTS: &[Entry] = &[Entry {
    name: b"NoSuchPart",
    place: Place::Nowhere,
    says: &[Part::Text(
        b"a size that the certificate has a section of, and a part of it, numbered from 1 on",
    )],
}];

/// Faults of lines of logs, after `StepRefused` and the line.
pub(crate) const STEPS: &[Entry] = &[
    Entry {
        name: b"UnknownId",
        place: Place::Line,
        says: &[Part::Text(b"each hint is the id of a live clause")],
    },
    Entry {
        name: b"NotUnit",
        place: Place::Line,
        says: &[Part::Text(
            b"each hint but the last has one literal that isn't false so far, and the last has none",
        )],
    },
    Entry {
        name: b"NoConflict",
        place: Place::Line,
        says: &[Part::Text(b"the last hint has no literal that isn't false")],
    },
    Entry {
        name: b"UnknownDelete",
        place: Place::Line,
        says: &[Part::Text(b"only live clauses are deleted, each once")],
    },
    Entry {
        name: b"IdNotGreater",
        place: Place::Line,
        says: &[Part::Text(b"the id of an addition is greater than all before")],
    },
    Entry {
        name: b"UnknownVariable",
        place: Place::Line,
        says: &[Part::Text(b"the variables are those of the formula")],
    },
    Entry {
        name: b"Memory",
        place: Place::Line,
        says: &[Part::Text(b"there wasn't memory enough")],
    },
];
