//! Solving under assumptions: the result of a call, the values after it, and the answer to the formula
//! afterwards.
use crate::building::{clause, formula};
use cdcl_core::{Cdcl, Solved};
use cnf_core::{Clause, Cnf};
use sat_solve::{AssumptionResult, Cones, Solver};
use std::alloc::{AllocError, Global};

/// A call under assumptions, with the fanins of `CONES`, and its expected results.
#[derive(Clone, Copy)]
struct Query {
    name: &'static str,
    clauses: &'static [&'static [u8]],
    vars: u32,
    assumptions: &'static [u8],
    limit: u32,
    ended: AssumptionResult,
    /// a variable, and its expected value after the call
    bit: (u32, Option<bool>),
    satisfiable: bool,
}

/// 3 and 4 are both 1 AND 2, and 5 is true if they differ.
const MITER: &[&[u8]] = &[
    b"1 -3 1 0 0",
    b"2 -3 2 0 0",
    b"3 3 -1 -2 0 0",
    b"4 -4 1 0 0",
    b"5 -4 2 0 0",
    b"6 4 -1 -2 0 0",
    b"7 -5 3 4 0 0",
    b"8 -5 -3 -4 0 0",
    b"9 5 -3 4 0 0",
    b"10 5 3 -4 0 0",
];

/// The fanins and ranks of 3, 4 and 5.
const CONES: Cones = Cones {
    first: &[0, 0, 0, 1, 1, 3],
    second: &[0, 0, 0, 2, 2, 4],
    rank: &[0, 0, 0, 1, 1, 2],
};

const CONTRADICTION: &[&[u8]] = &[b"1 1 2 0 0", b"2 -1 2 0 0", b"3 1 -2 0 0", b"4 -1 -2 0 0"];

const QUERIES: &[Query] = &[
    Query {
        name: "two equal nodes can't differ",
        clauses: MITER,
        vars: 5,
        assumptions: b"1 3 -4 0 0",
        limit: 10,
        ended: AssumptionResult::Unsat,
        bit: (9, None),
        satisfiable: true,
    },
    Query {
        name: "a node can be 1",
        clauses: MITER,
        vars: 5,
        assumptions: b"1 4 0 0",
        limit: 10,
        ended: AssumptionResult::Sat,
        bit: (2, Some(true)),
        satisfiable: true,
    },
    Query {
        name: "a node can be 0",
        clauses: MITER,
        vars: 5,
        assumptions: b"1 -4 0 0",
        limit: 10,
        ended: AssumptionResult::Sat,
        bit: (4, Some(false)),
        satisfiable: true,
    },
    Query {
        name: "a limit of 0 conflicts",
        clauses: MITER,
        vars: 5,
        assumptions: b"1 5 0 0",
        limit: 0,
        ended: AssumptionResult::Limit,
        bit: (5, None),
        satisfiable: true,
    },
    Query {
        name: "a contradiction",
        clauses: CONTRADICTION,
        vars: 2,
        assumptions: b"1 1 0 0",
        limit: 10,
        ended: AssumptionResult::Refuted,
        bit: (0, None),
        satisfiable: false,
    },
];

/// Whether two results are equal.
fn are_same(first: AssumptionResult, second: AssumptionResult) -> bool {
    match first {
        AssumptionResult::Refuted => matches!(second, AssumptionResult::Refuted),
        AssumptionResult::Unsat => matches!(second, AssumptionResult::Unsat),
        AssumptionResult::Sat => matches!(second, AssumptionResult::Sat),
        AssumptionResult::Limit => matches!(second, AssumptionResult::Limit),
    }
}

/// Whether a call has the expected results, and the formula the expected answer afterwards.
fn is_as_expected<S: Solver>(
    alloc: Global,
    cnf: &Cnf,
    assumptions: &Clause,
    row: &Query,
) -> Result<bool, AllocError> {
    let vars = cnf.vars();
    let mut solver = S::new(alloc, cnf, 10)?;
    if !assumptions.is_within(vars) {
        return Ok(false);
    }
    let ended = solver.solve_assuming(assumptions.lits(), CONES, row.limit)?;
    let reported = are_same(ended, row.ended) && solver.bit(row.bit.0) == row.bit.1;
    match solver.finish(alloc, 10)? {
        Solved::Sat(_) => Ok(reported && row.satisfiable),
        Solved::Unsat(_) => Ok(reported && !row.satisfiable),
        Solved::Open(_) => Ok(false),
    }
}

/// Whether the call of a row has the expected results.
fn is_answered(alloc: Global, row: &Query) -> Result<bool, AllocError> {
    let cnf = formula(alloc, row.vars, row.clauses)?;
    let assumptions = clause(alloc, row.assumptions);
    is_as_expected::<Cdcl>(alloc, &cnf, &assumptions, row)
}

#[test]
fn calls_under_assumptions_keep_the_answer_to_the_formula(rt: HostRuntime) {
    for row in QUERIES {
        let answered = is_answered(rt.alloc(), row);
        assert!(rt; matches!(answered, Ok(true)), "{}", row.name);
    }
}
