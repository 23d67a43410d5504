//! Certificates of windows that stay undecided: each is taken from the report of `improve`, and `recheck` has to
//! report its verdict.
use crate::running::reported;
use std::alloc::{AllocError, Global};

/// Two full adders in a row. With a budget of one clause, four windows of six gates stay undecided.
const ADDER: &str =
    ".model a\n.inputs a b c d e\n.outputs s t k\n.names a b p\n01 1\n10 1\n.names p c s\n01 1\n10 1\n.names a b q\n11 1\n.names p c r\n11 1\n.names q r h\n1- 1\n-1 1\n.names d e u\n01 1\n10 1\n.names u h t\n01 1\n10 1\n.names d e v\n11 1\n.names u h w\n11 1\n.names v w k\n1- 1\n-1 1\n.end\n";

/// The same in BENCH.
const GATES: &str =
    "INPUT(a)\nINPUT(b)\nINPUT(c)\nINPUT(d)\nINPUT(e)\nOUTPUT(s)\nOUTPUT(t)\nOUTPUT(k)\np = XOR(a, b)\ns = XOR(p, c)\nq = AND(a, b)\nr = AND(p, c)\nh = OR(q, r)\nu = XOR(d, e)\nt = XOR(u, h)\nv = AND(d, e)\nw = AND(u, h)\nk = OR(v, w)\n";

/// Whether `recheck` reports the verdict `open`, which is the last line of a certificate given without its line
/// `end`.
fn is_found_open(alloc: Global, prefix: &[u8]) -> Result<bool, AllocError> {
    let mut certificate = Vec::from_slice(alloc, prefix)?;
    certificate.extend_from_slice(b"end\n")?;
    let seen = reported(alloc, "recheck", &certificate)?;
    let out = seen.out.written();
    Ok(seen.status == 0 && out.starts_with(b"open ") && prefix.ends_with(out))
}

/// How many certificates a report has; None if `recheck` doesn't report the verdict of one of them.
fn certificates_of(alloc: Global, report: &[u8]) -> Result<Option<u32>, AllocError> {
    let mut certificate = Vec::new(alloc);
    let mut count = 0u32;
    for line in report.split(|byte| *byte == b'\n') {
        if line == b"end".as_slice() {
            if !is_found_open(alloc, &certificate)? {
                return Ok(None);
            }
            count = count.saturating_add(1);
        }
        if line.starts_with(b"undecided ") {
            certificate = Vec::new(alloc);
        } else {
            certificate.extend_from_slice(line)?;
            certificate.push(b'\n')?;
        }
    }
    Ok(Some(count))
}

/// Whether the report of a command line has this many certificates, and `recheck` reports the verdict of each.
fn are_found_open(alloc: Global, line: &str, input: &str, count: u32) -> bool {
    let Ok(seen) = reported(alloc, line, input.as_bytes()) else {
        return false;
    };
    match certificates_of(alloc, seen.note.written()) {
        Ok(found) => seen.status == 0 && found == Some(count),
        Err(_) => false,
    }
}

/// Command lines, netlists, and how many windows stay undecided: none with up to five gates.
const UNDECIDED: &[(&str, &str, u32)] = &[
    ("improve --conflicts 1", ADDER, 0),
    ("improve --conflicts 1 --cap 6", ADDER, 4),
    ("improve --conflicts 1 --cap 6 --method plain", ADDER, 4),
    ("improve --conflicts 1 --cap 6 --method select", ADDER, 4),
    ("improve --conflicts 1 --cap 6 --method fence", ADDER, 4),
    ("improve --conflicts 1 --cap 6 --observe yes", ADDER, 4),
    ("improve --conflicts 1 --cap 6 --format bench", GATES, 4),
];

#[test]
fn certificates_of_undecided_windows_are_valid(rt: HostRuntime) {
    for &(line, input, count) in UNDECIDED {
        assert!(rt; are_found_open(rt.alloc(), line, input, count), "{line}");
    }
}
