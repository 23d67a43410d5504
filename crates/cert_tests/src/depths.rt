//! Depth certificates in pieces: wherever they are cut, the answer is that of the whole.
use crate::pieces::comes_in_pieces;
use depth_file::{DepthError, DepthVerdict, Stage, check_depth};
use std::alloc::{AllocError, Global};

/// A certificate of x1 AND x2, and of that AND x3: two steps, on two levels.
const CERTIFICATE: &[u8] =
    b"chains 1\ninputs 3\n00000011\n00000001\nbasis all\nmethod fence\nconflicts 1\nmax 16\nsize 0\nfence\nrefuted\ndone\nsize 1\nfence 1\nrefuted\n132 0 1 2 9 17 0\ndone\nchain 2\nx4 x1 x2 0001\nx5 x3 x4 0001\nout x4\nout x5\nminimum 2\nend\n";

/// A certificate by another method.
const BY_PAIRS: &[u8] =
    b"chains 1\ninputs 1\n01\nbasis all\nmethod ssv\nconflicts 7\nmax 0\nchain 0\nout x1\nminimum 0\nend\n";

/// A certificate and the lines after it.
fn text_of(alloc: Global, certificate: &[u8], following: &[u8]) -> Result<Vec<u8>, AllocError> {
    let mut text = Vec::new(alloc);
    text.extend_from_slice(certificate)?;
    text.extend_from_slice(following)?;
    Ok(text)
}

/// Certificates, the lines after them, and the answer.
const JUDGED: &[(&str, &[u8], &[u8], Result<DepthVerdict, DepthError>)] = &[
    (
        "a lower level open",
        CERTIFICATE,
        b"depth 2\nfence 2\nopen\n276 -1 0 3 19 274 0\ndone\nlevels-bounded 1 2\nend\n",
        Ok(DepthVerdict::Bounded { low: 1, levels: 2 }),
    ),
    (
        "levels for an open level",
        CERTIFICATE,
        b"depth 2\nfence 2\nopen\n276 -1 0 3 19 274 0\ndone\nlevels 2\nend\n",
        Err(DepthError::WrongLevels(30)),
    ),
    (
        "no end",
        CERTIFICATE,
        b"depth 2\nfence 2\nopen\n276 -1 0 3 19 274 0\ndone\nlevels-bounded 1 2\n",
        Err(DepthError::Syntax(31)),
    ),
    (
        "a depth that isn't the chain's",
        CERTIFICATE,
        b"depth 3\n",
        Err(DepthError::WrongDepth(25)),
    ),
    (
        "a line without its end",
        CERTIFICATE,
        b"depth 2",
        Err(DepthError::Syntax(25)),
    ),
    (
        "no log of the lower level",
        CERTIFICATE,
        b"depth 2\nlevels 2\nend\n",
        Err(DepthError::NotRefuted(26)),
    ),
    (
        "an open log without a clause",
        CERTIFICATE,
        b"depth 2\nfence 2\nopen\ndone\n",
        Err(DepthError::OpenTooShort(28)),
    ),
    ("no depth", CERTIFICATE, b"", Err(DepthError::Syntax(25))),
    (
        "another method",
        BY_PAIRS,
        b"depth 0\n",
        Err(DepthError::NotLeastForm),
    ),
    (
        "a certificate that is cut off",
        b"chains 1\ninputs 3\n",
        b"",
        Err(DepthError::Certificate(cert_file::CertificateError::Syntax(3))),
    ),
];

/// Whether a certificate with the lines after it has this answer, whole and in pieces.
fn is_judged(
    alloc: Global,
    certificate: &[u8],
    following: &[u8],
    answer: Result<DepthVerdict, DepthError>,
) -> bool {
    match text_of(alloc, certificate, following) {
        Ok(text) => {
            check_depth(alloc, &text) == answer && comes_in_pieces::<Stage>(alloc, &text, &answer)
        }
        Err(_) => false,
    }
}

#[test]
fn depth_certificates_are_judged_alike_whole_and_in_pieces(rt: HostRuntime) {
    for &(name, certificate, following, answer) in JUDGED {
        assert!(rt;
            is_judged(rt.alloc(), certificate, following, answer),
            "{name}"
        );
    }
}
