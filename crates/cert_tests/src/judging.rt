//! Certificates as texts, judged whole and in pieces: wherever they are cut, the answer is that of the whole.
use crate::pieces::comes_in_pieces;
use cert_file::{CertificateError, Stage, Verdict, check_certificate};
use lrat_check::CheckError;
use std::alloc::{AllocError, Global};

/// NOT by AND alone: no chain of at most one step, with a log for either size.
const NOT_BY_AND: &[u8] = b"\
    chains 1\n\
    inputs 1\n\
    10\n\
    basis 0001\n\
    method plain\n\
    conflicts 100000\n\
    max 1\n\
    size 0\n\
    refuted\n\
    done\n\
    size 1\n\
    refuted\n\
    24 -5 0 1 2 3 4 6 7 22 20 0\n\
    25 0 1 2 3 4 6 7 24 18 16 0\n\
    done\n\
    none 1\n\
    end";

/// XOR in one step.
const XOR: &[u8] = b"\
    chains 1\n\
    inputs 2\n\
    0110\n\
    basis all\n\
    method plain\n\
    conflicts 100000\n\
    max 16\n\
    size 0\n\
    refuted\n\
    done\n\
    chain 1\n\
    x3 x1 x2 0110\n\
    out x3\n\
    minimum 1\n\
    end";

/// NOT by AND alone, by fences: each size has one, and its logs have their names.
const NOT_BY_FENCES: &[u8] = b"\
    chains 1\n\
    inputs 1\n\
    10\n\
    basis 0001\n\
    method fence\n\
    conflicts 100000\n\
    max 1\n\
    size 0\n\
    fence\n\
    refuted\n\
    done\n\
    size 1\n\
    fence 1\n\
    refuted\n\
    27 -5 0 1 2 3 4 6 7 22 20 0\n\
    28 0 1 2 3 4 6 7 27 18 16 0\n\
    done\n\
    none 1\n\
    end";

/// What replaces some lines: the number of the first, from 1, how many they are, and whole lines with their ends.
type Put = (usize, usize, &'static [u8]);

/// No line is replaced.
const NOTHING: Put = (0, 0, b"");

/// Appends a line with its end, unless it is replaced; in place of the first such line the new ones.
fn push_line(text: &mut Vec<u8>, number: usize, line: &[u8], put: Put) -> Result<(), AllocError> {
    let (first, count, lines) = put;
    if number == first {
        return text.extend_from_slice(lines);
    }
    if number > first && number < first.saturating_add(count) {
        return Ok(());
    }
    text.extend_from_slice(line)?;
    text.extend_from_slice(b"\n")
}

/// The text of a certificate, some of whose lines are replaced.
fn text_of(alloc: Global, certificate: &[u8], put: Put) -> Result<Vec<u8>, AllocError> {
    let mut text = Vec::new(alloc);
    let mut number: usize = 0;
    for line in certificate.split(|byte| *byte == b'\n') {
        number = number.wrapping_add(1);
        push_line(&mut text, number, line, put)?;
    }
    Ok(text)
}

/// Certificates, what replaces some of their lines, and the answer.
const JUDGED: &[(&str, &[u8], Put, Result<Verdict, CertificateError>)] = &[
    // refutations
    (
        "NOT by AND: none of one step",
        NOT_BY_AND,
        NOTHING,
        Ok(Verdict::NoChain(1)),
    ),
    (
        "a hint is missing",
        NOT_BY_AND,
        (13, 1, b"24 -5 0 1 2 3 4 6 7 20 0\n"),
        Err(CertificateError::StepRefused(13, CheckError::NoConflict)),
    ),
    (
        "a hint too few makes another one not unit",
        NOT_BY_AND,
        (13, 1, b"24 -5 0 1 2 3 4 6 22 20 0\n"),
        Err(CertificateError::StepRefused(13, CheckError::NotUnit(22))),
    ),
    (
        "a deleted clause as a hint",
        NOT_BY_AND,
        (13, 1, b"24 -5 0 1 2 3 4 6 7 22 20 0\n25 d 16 0\n"),
        Err(CertificateError::StepRefused(15, CheckError::UnknownId(16))),
    ),
    (
        "a size is skipped",
        NOT_BY_AND,
        (11, 1, b"size 2\n"),
        Err(CertificateError::SizeOutOfOrder(11)),
    ),
    (
        "no empty clause",
        NOT_BY_AND,
        (14, 1, b""),
        Err(CertificateError::NotRefuted(14)),
    ),
    (
        "an open log that is too short",
        NOT_BY_AND,
        (12, 3, b"open\n24 -5 0 1 2 3 4 6 7 22 20 0\n"),
        Err(CertificateError::OpenTooShort(14)),
    ),
    (
        "an open log with the empty clause",
        NOT_BY_AND,
        (12, 1, b"open\n"),
        Err(CertificateError::WrongVerdict(15)),
    ),
    (
        "an open log with a clause that isn't new",
        NOT_BY_AND,
        (12, 3, b"open\n24 -5 0 1 2 3 4 6 7 22 20 0\n25 -5 3 0 1 0\n"),
        Err(CertificateError::NotNew(14)),
    ),
    (
        "none of fewer steps",
        NOT_BY_AND,
        (16, 1, b"none 0\n"),
        Err(CertificateError::WrongVerdict(16)),
    ),
    (
        "no verdict",
        NOT_BY_AND,
        (16, 2, b""),
        Err(CertificateError::Syntax(16)),
    ),
    (
        "an empty line after the end",
        NOT_BY_AND,
        (17, 1, b"end\n\n"),
        Err(CertificateError::Syntax(18)),
    ),
    (
        "an unknown method",
        NOT_BY_AND,
        (5, 1, b"method fences\n"),
        Err(CertificateError::Syntax(5)),
    ),
    (
        "too many inputs",
        NOT_BY_AND,
        (2, 1, b"inputs 7\n"),
        Err(CertificateError::Syntax(2)),
    ),
    (
        "no row",
        NOT_BY_AND,
        (3, 1, b""),
        Err(CertificateError::Syntax(3)),
    ),
    (
        "a basis out of order",
        NOT_BY_AND,
        (4, 1, b"basis 0110,0001\n"),
        Err(CertificateError::Syntax(4)),
    ),
    // with `ssv` three symmetry-breaking clauses come after the plain ones, and take the next three ids
    (
        "ssv: its clauses come before the log's",
        NOT_BY_AND,
        (
            5,
            13,
            b"method ssv\nconflicts 100000\nmax 1\nsize 0\nrefuted\ndone\nsize 1\nrefuted\n\
                27 -5 0 1 2 3 4 6 7 22 20 0\n28 0 1 2 3 4 6 7 27 18 16 0\ndone\nnone 1\nend\n",
        ),
        Ok(Verdict::NoChain(1)),
    ),
    (
        "ssv: an id of its clauses",
        NOT_BY_AND,
        (
            5,
            13,
            b"method ssv\nconflicts 100000\nmax 1\nsize 0\nrefuted\ndone\nsize 1\nrefuted\n\
                26 -5 0 1 2 3 4 6 7 22 20 0\n",
        ),
        Err(CertificateError::StepRefused(13, CheckError::IdNotGreater(26))),
    ),
    // chains
    ("XOR in one step", XOR, NOTHING, Ok(Verdict::Minimum(1))),
    (
        "XOR with ssv",
        XOR,
        (5, 1, b"method ssv\n"),
        Ok(Verdict::Minimum(1)),
    ),
    (
        "XOR with select",
        XOR,
        (5, 1, b"method select\n"),
        Ok(Verdict::Minimum(1)),
    ),
    (
        "a chain that differs",
        XOR,
        (12, 1, b"x3 x1 x2 1001\n"),
        Err(CertificateError::ChainDiffers(1, 0)),
    ),
    (
        "an operator outside the basis",
        XOR,
        (4, 1, b"basis 0001\n"),
        Err(CertificateError::OperatorNotInBasis(3)),
    ),
    (
        "a minimum that isn't the chain's",
        XOR,
        (14, 1, b"minimum 2\n"),
        Err(CertificateError::WrongVerdict(14)),
    ),
    (
        "none, beside a chain",
        XOR,
        (14, 1, b"none 1\n"),
        Err(CertificateError::Syntax(14)),
    ),
    (
        "a chain of another size",
        XOR,
        (11, 1, b"chain 2\n"),
        Err(CertificateError::SizeOutOfOrder(11)),
    ),
    (
        "a chain that is too long",
        XOR,
        (11, 1, b"chain 17\n"),
        Err(CertificateError::Syntax(11)),
    ),
    (
        "no end",
        XOR,
        (15, 1, b""),
        Err(CertificateError::Syntax(15)),
    ),
    (
        "a line after the end",
        XOR,
        (15, 1, b"end\n\n"),
        Err(CertificateError::Syntax(16)),
    ),
    // the names of fences are compared
    (
        "fences: none of one step",
        NOT_BY_FENCES,
        NOTHING,
        Ok(Verdict::NoChain(1)),
    ),
    (
        "a fence for a size",
        NOT_BY_FENCES,
        (8, 1, b"fence\n"),
        Err(CertificateError::Syntax(8)),
    ),
    (
        "a size without its fence",
        NOT_BY_FENCES,
        (9, 1, b""),
        Err(CertificateError::Syntax(9)),
    ),
    (
        "the next size for a fence",
        NOT_BY_FENCES,
        (9, 1, b"size 1\n"),
        Err(CertificateError::NotRefuted(9)),
    ),
    (
        "a verdict for a fence",
        NOT_BY_FENCES,
        (9, 1, b"none 1\n"),
        Err(CertificateError::NotRefuted(9)),
    ),
    (
        "a chain for a fence",
        NOT_BY_FENCES,
        (9, 1, b"chain 17\n"),
        Err(CertificateError::Syntax(9)),
    ),
    (
        "another fence",
        NOT_BY_FENCES,
        (13, 1, b"fence 0\n"),
        Err(CertificateError::NotRefuted(13)),
    ),
    (
        "a number with a leading zero",
        NOT_BY_FENCES,
        (13, 1, b"fence 01\n"),
        Err(CertificateError::Syntax(13)),
    ),
    (
        "a blank at the end of a line",
        NOT_BY_FENCES,
        (13, 1, b"fence 1 \n"),
        Err(CertificateError::Syntax(13)),
    ),
    (
        "the fence again",
        NOT_BY_FENCES,
        (18, 1, b"fence 1\n"),
        Err(CertificateError::NotRefuted(18)),
    ),
    (
        "a verdict of more steps",
        NOT_BY_FENCES,
        (18, 1, b"none 2\n"),
        Err(CertificateError::WrongVerdict(18)),
    ),
    (
        "a fence with another method",
        NOT_BY_FENCES,
        (5, 1, b"method ssv\n"),
        Err(CertificateError::Syntax(9)),
    ),
];

/// Whether a certificate in which some lines are replaced has this answer.
fn is_judged(
    alloc: Global,
    certificate: &[u8],
    put: Put,
    answer: Result<Verdict, CertificateError>,
) -> bool {
    match text_of(alloc, certificate, put) {
        Ok(text) => {
            check_certificate(alloc, &text) == answer
                && comes_in_pieces::<Stage>(alloc, &text, &answer)
        }
        Err(_) => false,
    }
}

#[test]
fn certificates_are_judged_alike_whole_and_in_pieces(rt: HostRuntime) {
    for &(name, certificate, put, answer) in JUDGED {
        let well = is_judged(rt.alloc(), certificate, put, answer);
        assert!(rt; well, "{name}");
    }
}
