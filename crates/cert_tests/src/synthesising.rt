//! The certificates of `synth`.
use cdcl_core::Cdcl;
use cert_theory::Verdict;
use op_basis::Basis;
use progress::Silent;
use settings::{Method, MethodChoice};
use size_loop::SizeSearch;
use std::alloc::{AllocError, Global};
use synth_core::{Piece, SynthSettings, begin, next_piece};
use tt_core::SpecError;

const ALL: u16 = 65_535;

/// NAND alone.
const NAND: u16 = 16_384;

/// What comes after a piece: the continued search, or the verdict.
#[derive(Drop)]
enum Next {
    Size(SizeSearch),
    End(Verdict),
}

/// A certificate as it was handed out, and its verdict.
#[derive(Drop)]
struct Synthesized {
    text: Vec<u8>,
    verdict: Verdict,
}

/// Appends the piece of the next size, and returns what comes after it.
fn push_piece(alloc: Global, search: SizeSearch, whole: &mut Vec<u8>) -> Result<Next, AllocError> {
    match next_piece::<Cdcl, Silent>(alloc, search, &Silent)? {
        Piece::Section { search, text } => {
            whole.extend_from_slice(&text)?;
            Ok(Next::Size(search))
        }
        Piece::Trailer { text, verdict } => {
            whole.extend_from_slice(&text)?;
            Ok(Next::End(verdict))
        }
    }
}

/// Appends the pieces of all sizes, at most 18.
fn push_pieces(
    alloc: Global,
    search: SizeSearch,
    whole: &mut Vec<u8>,
) -> Result<Verdict, AllocError> {
    let mut search = search;
    for _size in 0..18u32 {
        match push_piece(alloc, search, whole)? {
            Next::Size(next) => search = next,
            Next::End(verdict) => return Ok(verdict),
        }
    }
    Err(AllocError)
}

/// The certificate for tables of at most 1,000 bytes.
fn certified(
    alloc: Global,
    text: &[u8],
    basis: u16,
    method: Method,
    max: u32,
    conflicts: u32,
) -> Result<Synthesized, SpecError> {
    if text.len() > 1_000 || basis == 0 || max > 16 || conflicts == 0 || conflicts > 10_000_000 {
        return Err(SpecError::Memory);
    }
    let settings = SynthSettings {
        basis: Basis::new(basis),
        method: MethodChoice::Named(method),
        max,
        conflicts,
        effort: 1,
    };
    let begun = begin(alloc, text, &settings)?;
    let mut whole = begun.text;
    let verdict = push_pieces(alloc, begun.search, &mut whole)?;
    Ok(Synthesized {
        text: whole,
        verdict,
    })
}

/// The expected result of a text.
#[derive(Clone, Copy)]
enum Wanted {
    /// A certificate with this end.
    Ends(&'static [u8]),
    /// This certificate, with a chain without steps.
    Whole(&'static [u8]),
    Refused(SpecError),
}

/// Whether a certificate is the expected one.
fn is_wanted(certificate: &Synthesized, wanted: Wanted) -> bool {
    match wanted {
        Wanted::Ends(end) => certificate.text.ends_with(end),
        Wanted::Whole(whole) => {
            certificate.text.as_slice() == whole && certificate.verdict == Verdict::Minimum(0)
        }
        Wanted::Refused(_) => false,
    }
}

/// Whether a refusal is the expected one.
fn is_refusal(error: SpecError, wanted: Wanted) -> bool {
    match wanted {
        Wanted::Refused(reported) => reported == error,
        _ => false,
    }
}

/// Texts, the basis, the method, and the expected result.
const CERTIFIED: &[(&str, &[u8], u16, Method, Wanted)] = &[
    (
        "XOR",
        b"inputs 2\n0110\n",
        ALL,
        Method::Ssv,
        Wanted::Ends(b"\nchain 1\nx3 x1 x2 0110\nout x3\nminimum 1\nend\n"),
    ),
    (
        "AND of three: symmetry breaking leaves one chain",
        b"inputs 3\n00000001\n",
        ALL,
        Method::Ssv,
        Wanted::Ends(b"\nchain 2\nx4 x1 x2 0001\nx5 x3 x4 0001\nout x5\nminimum 2\nend\n"),
    ),
    (
        "XOR and XNOR: a complemented output needs a step",
        b"inputs 2\n0110\n1001\n",
        ALL,
        Method::Ssv,
        Wanted::Ends(b"\nminimum 2\nend\n"),
    ),
    (
        "NOT by NAND",
        b"inputs 1\n10\n",
        NAND,
        Method::Plain,
        Wanted::Ends(b"\nchain 1\nx2 x1 x1 1110\nout x2\nminimum 1\nend\n"),
    ),
    (
        "XOR of five, whose chain is found by a walk",
        b"inputs 5\n01101001100101101001011001101001\n",
        ALL,
        Method::Ssv,
        Wanted::Ends(b"\nminimum 4\nend\n"),
    ),
    (
        "cells that are all don't-cares",
        b"inputs 2\n----\n",
        ALL,
        Method::Select,
        Wanted::Ends(b"\nchain 0\nout 0\nminimum 0\nend\n"),
    ),
    (
        "operands that can't be exchanged",
        b"inputs 2\n0100\n",
        4,
        Method::Ssv,
        Wanted::Ends(b"\nchain 1\nx3 x2 x1 0010\nout x3\nminimum 1\nend\n"),
    ),
    (
        "the whole certificate of an input",
        b"inputs 2\n0--1\n",
        ALL,
        Method::Ssv,
        Wanted::Whole(
            b"chains 1\ninputs 2\n0--1\nbasis all\nmethod ssv\nconflicts 100000\nmax 16\nchain 0\nout x1\nminimum 0\nend\n",
        ),
    ),
    (
        "the empty text",
        b"",
        ALL,
        Method::Ssv,
        Wanted::Refused(SpecError::BadHeader(1)),
    ),
    (
        "a cell that is none",
        b"inputs 2\n01a0\n",
        ALL,
        Method::Ssv,
        Wanted::Refused(SpecError::BadRow(2)),
    ),
    (
        "a line that is no row",
        b"inputs 2\n0110\nend\n",
        ALL,
        Method::Ssv,
        Wanted::Refused(SpecError::BadRow(3)),
    ),
    (
        "too many inputs",
        b"inputs 7\n0110\n",
        ALL,
        Method::Ssv,
        Wanted::Refused(SpecError::TooManyInputs),
    ),
];

/// Whether the result for a text is the expected one.
fn is_certified(alloc: Global, text: &[u8], basis: u16, method: Method, wanted: Wanted) -> bool {
    match certified(alloc, text, basis, method, 16, 100_000) {
        Ok(certificate) => is_wanted(&certificate, wanted),
        Err(error) => is_refusal(error, wanted),
    }
}

/// Tables, and the end of the header of their certificate by `auto`.
const TAKEN: &[(&str, &[u8], &[u8])] = &[
    (
        "three inputs, two outputs",
        b"inputs 3\n01101001\n00010111\n",
        b"\nmethod ssv\nconflicts 7\nmax 3\n",
    ),
    (
        "four inputs, two of which are used",
        b"inputs 4\n0110011001100110\n",
        b"\nmethod ssv\nconflicts 7\nmax 3\n",
    ),
    (
        "four inputs, one output",
        b"inputs 4\n0110100110010110\n",
        b"\nmethod strong-fence\nconflicts 7\nmax 3\n",
    ),
    (
        "four inputs, two outputs",
        b"inputs 4\n0110100110010110\n0000000000000001\n",
        b"\nmethod strong\nconflicts 7\nmax 3\n",
    ),
];

/// Whether the header of the certificate for tables of at most 1,000 bytes ends so, where the method is `auto`.
fn is_headed(alloc: Global, text: &[u8], end: &[u8]) -> bool {
    if text.len() > 1_000 {
        return false;
    }
    let settings = SynthSettings {
        method: MethodChoice::Auto,
        max: 3,
        conflicts: 7,
        ..SynthSettings::defaults()
    };
    match begin(alloc, text, &settings) {
        Ok(begun) => begun.text.ends_with(end),
        Err(_) => false,
    }
}

#[test]
fn certificates_name_the_method_that_auto_takes(rt: HostRuntime) {
    for &(name, text, end) in TAKEN {
        assert!(rt; is_headed(rt.alloc(), text, end), "{name}");
    }
}

#[test]
fn certificates_end_with_least_chains(rt: HostRuntime) {
    for &(name, text, basis, method, wanted) in CERTIFIED {
        assert!(rt;
            is_certified(rt.alloc(), text, basis, method, wanted),
            "{name}"
        );
    }
}
