//! Certificates as they are written, piece by piece.
use cert_text::{write_header, write_section, write_trailer};
use cert_theory::{LogEnd, Section, SubproblemLog, Verdict};
use cnf_core::Lit;
use enc_theory::Subproblem;
use fence_core::Fence;
use log_core::Log;
use op_basis::Basis;
use settings::Method;
use std::alloc::{AllocError, Global};
use std::test::Fail;
use tt_core::read_tables;

/// A section of size 0: the whole size with no line, refuted, and a fence with one line, open.
fn section(alloc: Global) -> Result<Section, AllocError> {
    let mut log = Log::new(alloc);
    log.add(5, &[Lit::of(2, true)], &[1, 2])?;
    let whole = SubproblemLog {
        subproblem: Subproblem::Whole,
        ended: LogEnd::Refuted,
        log: Log::new(alloc),
    };
    let fence = SubproblemLog {
        subproblem: Subproblem::Levels(Fence::new(vec![in alloc; 2, 1]?)),
        ended: LogEnd::Open,
        log,
    };
    Ok(Section {
        size: 0,
        subproblems: vec![in alloc; whole, fence]?,
    })
}

#[test]
fn pieces_make_one_certificate(rt: HostRuntime) -> Result<(), Fail> {
    let alloc = rt.alloc();
    let Ok(tables) = read_tables(alloc, b"inputs 2\n01-0\n1001\n") else {
        return Err(Fail::from("tables"));
    };
    let Ok(section) = section(alloc) else {
        return Err(Fail::from("section"));
    };
    let mut text = Vec::new(alloc);
    let all = Basis::new(65_535);
    assert!(rt; write_header(&tables.spec, all, Method::Plain, 100_000, 16, &mut text).is_ok());
    assert!(rt; write_section(&section, &mut text).is_ok());
    assert!(rt; write_trailer(&None, Verdict::Bounded { low: 1, r: 2 }, &mut text).is_ok());
    let expected =
        b"chains 1\ninputs 2\n01-0\n1001\nbasis all\nmethod plain\nconflicts 100000\nmax 16\nsize 0\nrefuted\ndone\nfence 2 1\nopen\n5 2 0 1 2 0\ndone\nbounded 1 2\nend\n";
    assert!(rt; text.as_slice() == expected.as_slice());
    Ok(())
}
