//! The cache finds the result of a specification again for one that differs only by an input permutation: the
//! second question goes to a solver that answers nothing.
ghost use Rattle.std.specs.Prelude.{◌≡◌, IfSome};
ghost use Rattle.cert_theory.specs.Certificate.{IsHeader};

use cdcl_core::Cdcl;
use cnf_core::{Cnf, Lit};
use decide_core::{Decided, Header, SpecCache, decide};
use op_basis::Basis;
use sat_solve::{AssumptionResult, Cones, Solved, Solver};
use settings::Method;
use std::alloc::{AllocError, Global};
use tt_core::read_tables;

/// A solver that always runs out of memory.
#[derive(Drop)]
struct Silent;

impl Solver for Silent {
    ghost IsSolverOf = { λ f least s. Unit {0} };

    ghost vars_of = { λ s. 0 };

    ghost additions_of = { λ s. 0 };

    fn new(_alloc: Global, _cnf: &Cnf, _least: u32) -> Result<Silent, AllocError> {
        Err(AllocError)
    }

    fn solve_assuming(
        &mut self,
        _targets: &[Lit],
        _cones: Cones,
        _limit: u32,
    ) -> Result<AssumptionResult, AllocError> {
        Err(AllocError)
    }

    fn bit(&self, _variable: u32) -> Option<bool> {
        None
    }

    fn additions(&self) -> u32 {
        0
    }

    fn finish(self, _alloc: Global, _budget: u32) -> Result<Solved, AllocError> {
        Err(AllocError)
    }
}

/// The question whether tables, of at most 1,000 bytes, have a chain of at most `max` steps, up to 16, over a
/// basis.
fn header_of(alloc: Global, text: &[u8], basis: Basis, max: u32) -> Option<Header>
    ensures header { IfSome result IsHeader }
    ensures basis { IfSome result (λ header. header.basis ≡ basis) }
{
    if text.len() > 1_000 || basis.get() == 0 || max > 16 {
        return None;
    }
    let Ok(tables) = read_tables(alloc, text) else {
        return None;
    };
    // for the prover: brings in the type invariant
    let _inputs = tables.spec.n();
    Some(Header {
        spec: tables.spec,
        basis,
        method: Method::Ssv,
        conflicts: 100_000,
        max,
    })
}

/// How a question is answered.
#[derive(Clone, Copy, PartialEq, Eq)]
enum Answer {
    Shorter,
    Least,
    Open,
    Nothing,
}

/// The answer to a question, with a cache for its basis.
fn answer_of<S: Solver>(alloc: Global, memory: &mut SpecCache, header: &Header) -> Answer
    requires header { IsHeader header.now }
    requires basis { memory.old.basis ≡ header.now.basis }
    ensures { memory.new.basis ≡ memory.old.basis }
{
    match decide::<S>(alloc, memory, header) {
        Ok(Decided::Shorter(_)) => Answer::Shorter,
        Ok(Decided::Least) => Answer::Least,
        Ok(Decided::Open(_)) => Answer::Open,
        Err(_) => Answer::Nothing,
    }
}

/// All operators.
const ALL: u16 = 65_535;

/// Whether tables have the answer `wanted` by a solver, and other tables then have the same one without a solver, which
/// had the answer `alone` before.
fn is_found_again(
    alloc: Global,
    first: &[u8],
    second: &[u8],
    max: u32,
    wanted: Answer,
    alone: Answer,
) -> bool {
    let basis = Basis::new(ALL);
    let Some(header) = header_of(alloc, first, basis, max) else {
        return false;
    };
    let Some(turned) = header_of(alloc, second, basis, max) else {
        return false;
    };
    let mut memory = SpecCache::new(alloc, basis);
    let before = answer_of::<Silent>(alloc, &mut memory, &turned);
    let found = answer_of::<Cdcl>(alloc, &mut memory, &header);
    let again = answer_of::<Silent>(alloc, &mut memory, &turned);
    before == alone && found == wanted && again == wanted
}

/// Tables, the same tables with their inputs permuted, the greatest number of steps, the answer, and that without a
/// solver. Fewer than five steps are enumerated without a search, and up to seven may be refuted so.
const PERMUTED: &[(&str, &[u8], &[u8], u32, Answer, Answer)] = &[
    (
        "a full adder beside an AND: five steps",
        b"inputs 3\n01101001\n00010111\n00000011\n",
        b"inputs 3\n01101001\n00010111\n00000101\n",
        5,
        Answer::Shorter,
        Answer::Nothing,
    ),
    (
        "a full adder beside an AND of three: no five steps",
        b"inputs 3\n01101001\n00010111\n00000010\n",
        b"inputs 3\n01101001\n00010111\n00000100\n",
        5,
        Answer::Least,
        Answer::Least,
    ),
];

#[test]
fn decided_specifications_are_found_in_any_order_of_inputs(rt: HostRuntime) {
    for &(name, first, second, max, wanted, alone) in PERMUTED {
        assert!(rt;
            is_found_again(rt.alloc(), first, second, max, wanted, alone),
            "{name}"
        );
    }
}
