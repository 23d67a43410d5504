//! What is wrong with words, and the pages that words ask for, as tables.

use help_text::{asked_page, push_wrong_words};
use std::alloc::{AllocError, Global};
use text_core::next_item;

/// The words of a line.
fn words_of(alloc: Global, line: &str) -> Result<Vec<String>, AllocError> {
    let mut words = Vec::new(alloc);
    let mut left = Some(line.as_bytes());
    for _ in 0..line.len() {
        let Some(bytes) = left else {
            break;
        };
        let (item, rest) = next_item(bytes);
        if let Ok(word) = std::str::from_utf8(item) {
            words.push(String::from_str(alloc, word)?)?;
        }
        left = rest;
    }
    Ok(words)
}

/// Whether this is what is wrong with words.
fn is_wrong(alloc: Global, line: &str, wanted: &str) -> bool {
    let Ok(words) = words_of(alloc, line) else {
        return false;
    };
    let mut text = Vec::new(alloc);
    push_wrong_words(&mut text, &words).is_ok() && text.as_slice() == wanted.as_bytes()
}

/// Lines, and what is wrong with them.
const WRONG: &[(&str, &str)] = &[
    (
        "sinth",
        "batsokemi: there is no command 'sinth'; \
         there is synth recheck formula agree improve equiv gen help (batsokemi help)\n",
    ),
    (
        "synth --max",
        "batsokemi: --max needs a value: 0 to 16 (batsokemi help synth)\n",
    ),
    (
        "synth --max 17",
        "batsokemi: --max takes 0 to 16, and not '17' (batsokemi help synth)\n",
    ),
    (
        "synth --max 3 --max 3",
        "batsokemi: --max is named twice (batsokemi help synth)\n",
    ),
    (
        "synth --max=3",
        "batsokemi: an option and its value are two words, and not '--max=3' (batsokemi help synth)\n",
    ),
    (
        "recheck --conflicts 3",
        "batsokemi: recheck has no option '--conflicts'; it has --depth --most-bytes -o (batsokemi help recheck)\n",
    ),
    (
        "recheck --most-bytes 1099511627777",
        "batsokemi: --most-bytes takes 0 to 1099511627776, and not '1099511627777' (batsokemi help recheck)\n",
    ),
    (
        "improve --format bench --basis all",
        "batsokemi: with --format bench the basis has operators of bench alone, \
         and not 'all' (batsokemi help improve)\n",
    ),
    (
        "improve --basis all x.bench",
        "batsokemi: with --format bench the basis has operators of bench alone, \
         and not 'all' (batsokemi help improve)\n",
    ),
    (
        "improve --levels x a",
        "batsokemi: --levels takes tell, keep, or 0 to 1000000, and not 'x' (batsokemi help improve)\n",
    ),
    (
        "improve --only maybe a",
        "batsokemi: --only takes yes, no, and not 'maybe' (batsokemi help improve)\n",
    ),
    (
        "improve --only yes a.aag",
        "batsokemi: --only goes with BLIF and BENCH: AIGER has AND gates alone (batsokemi help improve)\n",
    ),
    (
        "improve --covers few a",
        "batsokemi: --covers takes rows, least, and not 'few' (batsokemi help improve)\n",
    ),
    (
        "improve --covers least a.bench",
        "batsokemi: --covers goes with BLIF alone (batsokemi help improve)\n",
    ),
    (
        "formula --log l -",
        "batsokemi: with --log the certificate is read twice: it has to be a file (batsokemi help formula)\n",
    ),
    (
        "formula a --log l -o l",
        "batsokemi: -o and --log name one file (batsokemi help formula)\n",
    ),
    (
        "equiv --log l a b",
        "batsokemi: equiv needs --formula with a value: the name of a file (batsokemi help equiv)\n",
    ),
    (
        "equiv --formula f --log f a b",
        "batsokemi: --formula and --log name one file (batsokemi help equiv)\n",
    ),
    (
        "equiv --formula b a b",
        "batsokemi: --formula names a file of its own, and not one of the netlists (batsokemi help equiv)\n",
    ),
    (
        "equiv --formula f --log a -- a b",
        "batsokemi: --log names a file of its own, and not one of the netlists (batsokemi help equiv)\n",
    ),
    (
        "equiv --at 01x a b",
        "batsokemi: --at takes characters 0 and 1, or - for none, and not '01x' (batsokemi help equiv)\n",
    ),
    (
        "equiv --at 01 --conflicts 9 a b",
        "batsokemi: --at asks for values alone, without --conflicts (batsokemi help equiv)\n",
    ),
    (
        "equiv --at 01 a",
        "batsokemi: with --at equiv reads two files (batsokemi help equiv)\n",
    ),
    (
        "equiv --match order a b",
        "batsokemi: --match takes names, and not 'order' (batsokemi help equiv)\n",
    ),
    (
        "equiv --match names --formula f a b",
        "batsokemi: --match compares two files alone, without --formula (batsokemi help equiv)\n",
    ),
    (
        "equiv --match names a",
        "batsokemi: with --match equiv reads two files (batsokemi help equiv)\n",
    ),
    (
        "synth --size 7 --max 5",
        "batsokemi: --size is at most --max (batsokemi help synth)\n",
    ),
    (
        "synth --size 3 --certificate c",
        "batsokemi: with --size only a part is written, to the file of -o, and not of --certificate \
         (batsokemi help synth)\n",
    ),
    (
        "synth --part 2 a",
        "batsokemi: synth needs --size with a value: 0 to 16 (batsokemi help synth)\n",
    ),
    (
        "equiv --formula f - b",
        "batsokemi: with --formula both netlists are read twice: they have to be files (batsokemi help equiv)\n",
    ),
    (
        "improve --basis all --format blif -- x.aag",
        "batsokemi: for AIGER the basis is without 0110 and 1001, as u2 or nand, and not 'all' \
         (batsokemi help improve)\n",
    ),
    (
        "gen x",
        "batsokemi: gen reads no file, and 'x' is one more (batsokemi help gen)\n",
    ),
    (
        "synth -- --max b",
        "batsokemi: synth reads one file, and 'b' is one more (batsokemi help synth)\n",
    ),
];

#[test]
fn the_first_wrong_word_is_named(rt: HostRuntime) {
    for &(line, wanted) in WRONG {
        assert!(rt; is_wrong(rt.alloc(), line, wanted), "{line}");
    }
}

/// Whether a line asks for a page.
fn has_page(alloc: Global, line: &str) -> bool {
    let Ok(words) = words_of(alloc, line) else {
        return false;
    };
    match asked_page(alloc, &words) {
        Ok(page) => page.is_some(),
        Err(_) => false,
    }
}

/// Lines, and whether they ask for a page.
const ASKED: &[(&str, bool)] = &[
    ("help", true),
    ("help synth", true),
    ("help windows", true),
    ("help --completion fish", true),
    ("help --manual", true),
    ("help --options", true),
    ("--help", true),
    ("--version", true),
    ("gen --blocks 3 -h", true),
    ("synth -- --help", false),
    ("synth -o --help", false),
    ("help sinth", false),
    ("help synth gen", false),
    ("synth help", false),
];

#[test]
fn these_lines_ask_for_pages(rt: HostRuntime) {
    for &(line, wanted) in ASKED {
        assert!(rt; has_page(rt.alloc(), line) == wanted, "{line}");
    }
}
