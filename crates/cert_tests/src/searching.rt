//! The search for a chain of the fewest steps.
use cdcl_core::Cdcl;
use cert_theory::{Certificate, Verdict};
use op_basis::Basis;
use progress::Silent;
use settings::Method;
use size_loop::{Advance, SizeSearch, search};
use std::alloc::Global;
use tt_core::read_tables;

const ALL: u16 = 65_535;

/// NAND alone.
const NAND: u16 = 16_384;

/// The search for tables of at most 1,000 bytes.
fn searched(
    alloc: Global,
    text: &[u8],
    basis: u16,
    method: Method,
    max: u32,
    budget: u32,
) -> Option<Certificate> {
    if text.len() > 1_000 || basis == 0 || max > 16 || budget == 0 || budget > 10_000_000 {
        return None;
    }
    let Ok(tables) = read_tables(alloc, text) else {
        return None;
    };
    match search::<Cdcl, Silent>(
        alloc,
        &tables.spec,
        Basis::new(basis),
        method,
        max,
        budget,
        0,
        &Silent,
    ) {
        Ok(certificate) => Some(certificate),
        Err(_) => None,
    }
}

/// XOR.
const XOR: &[u8] = b"inputs 2\n0110\n";

/// NOT.
const NOT: &[u8] = b"inputs 1\n10\n";

/// AND of three inputs.
const AND: &[u8] = b"inputs 3\n00000001\n";

/// Cells that are all free.
const FREE: &[u8] = b"inputs 2\n----\n";

/// The full adder.
const ADDER: &[u8] = b"inputs 3\n01101001\n00010111\n";

/// XOR and its complement: NOT needs a constant step.
const XORS: u16 = 576;

/// Tables, the basis, the method, and the fewest steps, which is the number of sections.
const FOUND: &[(&str, &[u8], u16, Method, u32)] = &[
    ("XOR, plain", XOR, ALL, Method::Plain, 1),
    ("XOR, ssv", XOR, ALL, Method::Ssv, 1),
    ("XOR by NAND, plain", XOR, NAND, Method::Plain, 4),
    ("XOR by NAND, ssv", XOR, NAND, Method::Ssv, 4),
    ("NOT by NAND", NOT, NAND, Method::Ssv, 1),
    ("NOT by XOR and XNOR", NOT, XORS, Method::Ssv, 2),
    ("AND of three, ssv", AND, ALL, Method::Ssv, 2),
    ("AND of three, select", AND, ALL, Method::Select, 2),
    ("AND of three, fence", AND, ALL, Method::Fence, 2),
    ("XOR by NAND, strong", XOR, NAND, Method::Strong, 4),
    (
        "XOR by NAND, strong-fence",
        XOR,
        NAND,
        Method::StrongFence,
        4,
    ),
    ("cells that are all free", FREE, ALL, Method::Plain, 0),
];

/// Tables, the basis, the method, the most steps, the budget of learnt clauses, the verdict, and the number of
/// sections. In the last row the budget is one clause.
const LIMITED: &[(&str, &[u8], u16, Method, u32, u32, Verdict, usize)] = &[
    (
        "XOR by NAND in three steps",
        XOR,
        NAND,
        Method::Plain,
        3,
        100_000,
        Verdict::NoChain(3),
        4,
    ),
    (
        "AND of three in one step",
        AND,
        ALL,
        Method::Ssv,
        1,
        100_000,
        Verdict::NoChain(1),
        2,
    ),
    (
        "a full adder with a budget of one clause",
        ADDER,
        ALL,
        Method::Plain,
        2,
        1,
        Verdict::Open { low: 2 },
        3,
    ),
];

/// Whether a search ends with a verdict and a number of sections.
fn ends_in(
    alloc: Global,
    text: &[u8],
    basis: u16,
    method: Method,
    limits: (u32, u32),
    end: (Verdict, usize),
) -> bool {
    match searched(alloc, text, basis, method, limits.0, limits.1) {
        Some(certificate) => certificate.verdict == end.0 && certificate.sections.len() == end.1,
        None => false,
    }
}

#[test]
fn a_search_ends_with_the_fewest_steps(rt: HostRuntime) {
    for &(name, text, basis, method, steps) in FOUND {
        let end = (Verdict::Minimum(steps), steps as usize);
        let well = ends_in(rt.alloc(), text, basis, method, (16, 100_000), end);
        assert!(rt; well, "{name}");
    }
}

#[test]
fn the_most_steps_and_the_budget_end_a_search(rt: HostRuntime) {
    for &(name, text, basis, method, max, budget, verdict, sections) in LIMITED {
        let end = (verdict, sections);
        let well = ends_in(rt.alloc(), text, basis, method, (max, budget), end);
        assert!(rt; well, "{name}");
    }
}

/// Whether the last section of a search for the full adder has one log, where the budget is one clause.
fn stops_at_open(alloc: Global) -> bool {
    let Some(certificate) = searched(alloc, ADDER, ALL, Method::StrongFence, 3, 1) else {
        return false;
    };
    match certificate.sections.last() {
        Some(section) => section.is_open() && section.subproblems.len() == 1,
        None => false,
    }
}

#[test]
fn a_size_ends_with_its_first_open_fence(rt: HostRuntime) {
    assert!(rt; stops_at_open(rt.alloc()));
}

/// Whether a search has ended with a chain of one step.
fn has_ended(advance: &Advance) -> bool {
    match advance {
        Advance::Ended { chain, verdict } => { chain.is_some() && *verdict == Verdict::Minimum(1) }
        _ => false,
    }
}

/// Whether the next size is the last, with a chain of one step.
fn ends(alloc: Global, search: SizeSearch) -> bool {
    match search.advance::<Cdcl, Silent>(alloc, &Silent) {
        Ok(advance) => has_ended(&advance),
        Err(_) => false,
    }
}

/// Whether the search for a chain for XOR continues after size 0 and ends after size 1.
fn goes_on(alloc: Global) -> bool {
    let Ok(tables) = read_tables(alloc, XOR) else {
        return false;
    };
    let search = SizeSearch::new(tables.spec, Basis::new(ALL), Method::Plain, 16, 100_000, 0);
    match search.advance::<Cdcl, Silent>(alloc, &Silent) {
        Ok(Advance::Section { rest, section }) => ends(alloc, rest) && section.size == 0,
        _ => false,
    }
}

#[test]
fn a_search_has_a_section_for_each_size_without_a_chain(rt: HostRuntime) {
    assert!(rt; goes_on(rt.alloc()));
}
