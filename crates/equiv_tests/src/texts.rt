//! Two netlists in one text: where the first ends, the three answers, and the refusals. The expected answers were
//! read off the netlists by hand.

use cdcl_core::Cdcl;
use equiv_run::{CompareError, NetError, compare_texts, split};
use progress::Silent;
use std::alloc::Global;

/// The expected result for two netlists.
#[derive(Clone, Copy)]
enum Wanted {
    /// This text.
    Text(&'static [u8]),
    /// A text of this first line and a log.
    Log(&'static [u8]),
    /// A refusal of the first, and of the second, with this fault.
    First(&'static [u8]),
    Second(&'static [u8]),
    NoSecond,
    DifferentInterface,
}

/// The name of a fault, with its line number if the fault has one, of the expected ones.
fn fault(error: &NetError) -> &'static [u8] {
    match error {
        NetError::NotSupported(6, word) => model_or_not(word.get()),
        NetError::Syntax(1) => b"Syntax 1",
        NetError::Syntax(2) => b"Syntax 2",
        NetError::Syntax(3) => b"Syntax 3",
        NetError::Undriven(_) => b"Undriven",
        _ => b"",
    }
}

/// The name of a line 6 that isn't supported, by its first word.
fn model_or_not(word: &[u8]) -> &'static [u8] {
    if word == b".model".as_slice() {
        return b"NotSupported 6 .model";
    }
    b"NotSupported 6"
}

/// Whether a text is the expected one.
fn is_answer(text: &[u8], wanted: Wanted) -> bool {
    match wanted {
        Wanted::Text(whole) => text == whole,
        Wanted::Log(line) => text.starts_with(line) && text.ends_with(b"done\n"),
        _ => false,
    }
}

/// Whether a refusal is the expected one.
fn is_refusal(error: &CompareError, wanted: Wanted) -> bool {
    match (error, wanted) {
        (CompareError::NoSecond, Wanted::NoSecond) => true,
        (CompareError::DifferentInterface, Wanted::DifferentInterface) => true,
        (CompareError::First(error), Wanted::First(name)) => fault(error) == name,
        (CompareError::Second(error), Wanted::Second(name)) => fault(error) == name,
        _ => false,
    }
}

/// Whether two netlists compare as expected, on a budget of `conflicts`.
fn is_answered(alloc: Global, bytes: &[u8], conflicts: u32, wanted: Wanted) -> bool {
    if bytes.len() > 100_000 || conflicts == 0 || conflicts > 10_000_000 {
        return false;
    }
    match compare_texts::<Cdcl, Silent>(alloc, bytes, conflicts, &Silent) {
        Ok(compared) => is_answer(&compared.text, wanted),
        Err(error) => is_refusal(&error, wanted),
    }
}

/// Texts, budgets, and the expected results.
const ANSWERED: &[(&str, &[u8], u32, Wanted)] = &[
    (
        "the first sink that differs",
        b".model p\n.inputs a b\n.outputs y\n.names a b y\n11 1\n.end\n.model q\n.inputs a b\n.outputs y\n.names y\n.end\n",
        1000,
        Wanted::Text(b"differ output y\nat 11\n"),
    ),
    (
        "no source",
        b".outputs y\n.names y\n1\n.end\n.outputs y\n.names y\n.end\n",
        1000,
        Wanted::Text(b"differ output y\nat -\n"),
    ),
    (
        "an output differs before a next state",
        b".outputs x y\n.latch d q 0\n.names x\n.names q y\n1 1\n.names q d\n1 1\n.end\n.outputs x y\n.latch d q 0\n.names x\n.names y\n.names d\n.end\n",
        1000,
        Wanted::Text(b"differ output y\nat 1\n"),
    ),
    (
        "a next state alone differs",
        b".latch d q 0\n.names q d\n1 1\n.end\n.latch d q 0\n.names d\n.end\n",
        1000,
        Wanted::Text(b"differ latch q\nat 1\n"),
    ),
    (
        "XOR of four as a tree and as a chain",
        b".inputs a b c d\n.outputs y\n.names a b p\n10 1\n01 1\n.names c d q\n10 1\n01 1\n.names p q y\n10 1\n01 1\n.end\n.inputs a b c d\n.outputs y\n.names a b p\n10 1\n01 1\n.names p c q\n10 1\n01 1\n.names q d y\n10 1\n01 1\n.end\n",
        1000,
        Wanted::Log(b"equal\n"),
    ),
    (
        "XOR of six in two orders, on a budget that is spent",
        b".inputs a b c d e f\n.outputs y\n.names a b p\n10 1\n01 1\n.names p c q\n10 1\n01 1\n.names q d r\n10 1\n01 1\n.names r e s\n10 1\n01 1\n.names s f y\n10 1\n01 1\n.end\n.inputs a b c d e f\n.outputs y\n.names f b p\n10 1\n01 1\n.names p d q\n10 1\n01 1\n.names q a r\n10 1\n01 1\n.names r e s\n10 1\n01 1\n.names s c y\n10 1\n01 1\n.end\n",
        1,
        Wanted::Log(b"undecided\n"),
    ),
    ("no sink", b".end\n.end\n", 1, Wanted::Log(b"equal\n")),
    ("no line of the second", b".end", 1, Wanted::Log(b"equal\n")),
    (
        "CRs, lines between the netlists, and no last `.end`",
        b".inputs a\r\n.outputs a\r\n.end\r\n\r\n# between\r\n.inputs a\r\n.outputs a",
        1,
        Wanted::Log(b"equal\n"),
    ),
    (
        "improved: XOR by three gates and by one",
        b".model x\n.inputs a b\n.outputs y\n.names a b p\n10 1\n.names a b q\n01 1\n\
            .names p q y\n1- 1\n-1 1\n.end\n\
            .model x\n.inputs a b\n.outputs y\n.names a b y\n01 1\n10 1\n.end\n",
        1000,
        Wanted::Log(b"equal\n"),
    ),
    (
        "improved: a latch, an output that is an input, two outputs on one gate",
        b".model m\n.inputs a b \\\nclk\n.outputs a y z\n.latch d q re clk 2\n.names a b w\n00 0\n\
            .names w q d\n11 1\n.names d y\n1 1\n.names d z\n1 1\n.end\n\
            .model m\n.inputs a b clk\n.outputs a y z\n.latch y q re clk 2\n.names a b g1\n01 1\n10 1\n11 1\n\
            .names g1 q y\n11 1\n.names y z\n1 1\n.end\n",
        1000,
        Wanted::Log(b"equal\n"),
    ),
    (
        "improved: a table of three inputs",
        b".model t\n.inputs a b c\n.outputs y\n.names a b c y\n1-0 1\n-11 1\n.end\n\
            .model t\n.inputs a b c\n.outputs y\n.names a c g1\n10 1\n.names b c g2\n11 1\n\
            .names g1 g2 y\n01 1\n10 1\n11 1\n.end\n",
        1000,
        Wanted::Log(b"equal\n"),
    ),
    (
        "inputs in another order",
        b".model p\n.inputs a b\n.outputs y\n.names a b y\n11 1\n.end\n.model q\n.inputs b a\n.outputs y\n.names y\n.end\n",
        1000,
        Wanted::DifferentInterface,
    ),
    (
        "no first `.end`: everything is the first",
        b".model p\n.inputs a b\n.outputs y\n.names a b y\n11 1\n.model q\n.inputs a b\n.outputs y\n.names y\n.end\n",
        1000,
        Wanted::First(b"NotSupported 6 .model"),
    ),
    (
        "no second",
        b".model p\n.inputs a b\n.outputs y\n.names a b y\n11 1\n",
        1000,
        Wanted::NoSecond,
    ),
    (
        "a word after the first `.end`",
        b".inputs\n.end x\n.end\n",
        1000,
        Wanted::First(b"Syntax 2"),
    ),
    (
        "the second's lines are numbered from 1",
        b".inputs\n.end\n.inputs\n.outputs\nx y\n.end\n",
        1000,
        Wanted::Second(b"Syntax 3"),
    ),
    (
        "an output of the second without a driver",
        b".inputs\n.end\n.outputs y\n.end\n",
        1000,
        Wanted::Second(b"Undriven"),
    ),
    (
        "the fault of the first comes first",
        b".inputs\nx y\n.end\nx\n.end\n",
        1000,
        Wanted::First(b"Syntax 2"),
    ),
    (
        "a line between the netlists belongs to the second",
        b".inputs\n.end\nx\n.inputs\n.end\n",
        1000,
        Wanted::Second(b"Syntax 1"),
    ),
    (
        "comments and empty lines there are counted",
        b".inputs\n.end\n# between\n\nx\n.inputs\n.end\n",
        1000,
        Wanted::Second(b"Syntax 3"),
    ),
    (
        "a line after the second `.end`",
        b".inputs\n.end\n.inputs\n.end\nx\n",
        1000,
        Wanted::Second(b"Syntax 3"),
    ),
    (
        "another initial value",
        b".latch d q 0\n.names d\n.end\n.latch d q 1\n.names d\n.end\n",
        1000,
        Wanted::DifferentInterface,
    ),
];

#[test]
fn two_netlists_have_these_answers_or_faults(rt: HostRuntime) {
    for &(name, text, conflicts, wanted) in ANSWERED {
        assert!(rt; is_answered(rt.alloc(), text, conflicts, wanted), "{name}");
    }
}

/// Texts, and where the first ends.
const SPLIT: &[(&str, Option<usize>)] = &[
    (".model a\n.end # a\n.model b\n", Some(18)),
    (".inputs .end\n .end\nx", Some(19)),
    // a continued line has one first word
    (".inputs \\\n.end\n\\\n.end\n", Some(22)),
    (".end", Some(4)),
    (".end \\\n", Some(7)),
    (".ends\n# .end\n", None),
    ("", None),
];

#[test]
fn texts_are_split_after_the_first_end(rt: HostRuntime) {
    for &(text, wanted) in SPLIT {
        assert!(rt; split(text.as_bytes()) == wanted, "{text}");
    }
}
