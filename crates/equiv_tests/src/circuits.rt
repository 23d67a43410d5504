//! The miter of two circuits, clause by clause, and the comparison of two circuits. The expected clauses and
//! answers were derived by hand from the definition of the miter.
ghost use Rattle.std.specs.Prelude.{IsTrue, IfSome};
ghost use Rattle.net_theory.specs.Circuit.{IsProper};
ghost use Rattle.equiv_theory.specs.Counterexample.{HaveSameInterface};
ghost use Rattle.equiv_core.specs.Limits.{IsSmall};

use blif_core::{Circuit, read_blif};
use cdcl_core::Cdcl;
use cnf_core::{Clause, Cnf};
use equiv_core::{EquivError, EquivResult, equiv, miter};
use progress::Silent;
use std::alloc::Global;

/// Whether a circuit has few sources and sinks.
fn is_small(circuit: &Circuit) -> bool
    ensures { IsTrue result → IsSmall circuit.now.net }
{
    circuit.net.sources() < 100 && circuit.net.sinks().len() < 100
}

/// The circuit of a short text, if it has few sources and sinks.
pub fn circuit(alloc: Global, text: &[u8]) -> Option<Circuit>
    ensures proper { IfSome result IsProper }
    ensures small { IfSome result (λ c. IsSmall c.net) }
{
    if text.len() > 1000 {
        return None;
    }
    let Ok(circuit) = read_blif(alloc, text) else {
        return None;
    };
    if !is_small(&circuit) {
        return None;
    }
    Some(circuit)
}

/// Whether a clause has these literals in this order.
fn has_literals(clause: &Clause, wanted: &[i32]) -> bool {
    let mut left = wanted;
    for lit in clause.lits() {
        let Some((number, rest)) = left.split_first() else {
            return false;
        };
        if lit.get() != *number {
            return false;
        }
        left = rest;
    }
    left.is_empty()
}

/// Whether a formula has these clauses in this order.
fn has_clauses(cnf: &Cnf, wanted: &[&[i32]]) -> bool {
    let clauses = cnf.clauses();
    if clauses.len() != wanted.len() {
        return false;
    }
    for index in 0..wanted.len() {
        if !has_literals(&clauses[index], wanted[index]) {
            return false;
        }
    }
    true
}

/// The expected result for two circuits.
#[derive(Clone, Copy)]
enum Wanted {
    Equal,
    Undecided,
    Differ(u32, &'static [bool]),
    DifferentInterface,
    /// The circuits have one interface, and this miter: the number of its variables, and its clauses.
    Miter(u32, &'static [&'static [i32]]),
}

/// Whether an answer is the expected one. If the miter is expected, any answer is.
fn meets(answer: &EquivResult, wanted: Wanted) -> bool {
    match (answer, wanted) {
        (EquivResult::Equal(_), Wanted::Equal) => true,
        (EquivResult::Undecided(_), Wanted::Undecided) => true,
        (EquivResult::Differ { sink, at }, Wanted::Differ(place, bits)) => {
            *sink == place && at.bits() == bits
        }
        (_, Wanted::Miter(_, _)) => true,
        _ => false,
    }
}

/// Whether a refusal is the expected one.
fn is_refused(error: EquivError, wanted: Wanted) -> bool {
    match (error, wanted) {
        (EquivError::DifferentInterface, Wanted::DifferentInterface) => true,
        _ => false,
    }
}

/// Whether two circuits of one interface have the expected miter, if one is expected.
fn is_mitered(alloc: Global, first: &Circuit, second: &Circuit, wanted: Wanted) -> bool
    requires first { IsProper first.now }
    requires second { IsProper second.now }
    requires interface { HaveSameInterface first.now second.now }
    requires small { IsSmall first.now.net }
{
    let Wanted::Miter(vars, clauses) = wanted else {
        return true;
    };
    match miter(alloc, first, second) {
        Ok(cnf) => cnf.vars() == vars && has_clauses(&cnf, clauses),
        Err(_) => false,
    }
}

/// Whether two circuits compare as expected, and have the expected miter.
fn compare(alloc: Global, first: &Circuit, second: &Circuit, budget: u32, wanted: Wanted) -> bool
    requires first { IsProper first.now }
    requires second { IsProper second.now }
    requires small { IsSmall first.now.net }
    requires other { IsSmall second.now.net }
{
    if budget == 0 || budget > 1000 {
        return false;
    }
    match equiv::<Cdcl, Silent>(alloc, first, second, budget, &Silent) {
        Ok(answer) => meets(&answer, wanted) && is_mitered(alloc, first, second, wanted),
        Err(error) => is_refused(error, wanted),
    }
}

/// Whether two short netlists compare as expected.
fn are_compared(alloc: Global, first: &[u8], second: &[u8], budget: u32, wanted: Wanted) -> bool {
    let Some(one) = circuit(alloc, first) else {
        return false;
    };
    match circuit(alloc, second) {
        Some(other) => compare(alloc, &one, &other, budget, wanted),
        None => false,
    }
}

/// Two netlists, the budget, and the expected result.
const COMPARED: &[(&str, &[u8], &[u8], u32, Wanted)] = &[
    (
        "the miter of AND and 0",
        b".inputs a b\n.outputs y\n.names a b y\n11 1\n.end\n",
        b".inputs a b\n.outputs y\n.names y\n.end\n",
        100,
        Wanted::Miter(
            4,
            &[
                &[1, 2, -3],
                &[1, -2, -3],
                &[-1, 2, -3],
                &[-1, -2, 3],
                &[-4, 3],
                &[4],
            ],
        ),
    ),
    (
        "the miter of a copy and 1, and of NOT and a copy",
        b".inputs a\n.outputs x y\n.names a x\n1 1\n.names a y\n0 1\n.end\n",
        b".inputs a\n.outputs x y\n.names x\n1\n.names a y\n1 1\n.end\n",
        100,
        Wanted::Miter(
            4,
            &[
                &[1, 2],
                &[-1, -2],
                &[-3, -1],
                &[-4, -2, -1],
                &[-4, 2, 1],
                &[3, 4],
            ],
        ),
    ),
    (
        "the miter without sinks",
        b".inputs a\n.end\n",
        b".inputs a\n.end\n",
        100,
        Wanted::Miter(1, &[&[]]),
    ),
    (
        "AND and 0 differ",
        b".inputs a b\n.outputs y\n.names a b y\n11 1\n.end\n",
        b".inputs a b\n.outputs y\n.names y\n.end\n",
        100,
        Wanted::Differ(1, &[true, true]),
    ),
    (
        "the second output differs",
        b".inputs a\n.outputs a y\n.names y\n.end\n",
        b".inputs a\n.outputs a y\n.names a y\n1 1\n.end\n",
        100,
        Wanted::Differ(2, &[true]),
    ),
    (
        "a next state, which comes after the outputs, differs",
        b".inputs a\n.outputs a\n.latch d q\n.names a q d\n10 0\n.end\n",
        b".inputs a\n.outputs a\n.latch d q\n.names d\n1\n.end\n",
        100,
        Wanted::Differ(2, &[true, false]),
    ),
    (
        "AND, and NOR of complements",
        b".inputs a b\n.outputs y\n.names a b y\n11 1\n.end\n",
        b".inputs a b\n.outputs y\n.names a p\n0 1\n.names b q\n0 1\n.names p q y\n00 1\n.end\n",
        100,
        Wanted::Equal,
    ),
    (
        "other names of latch inputs",
        b".latch d q\n.names q d\n0 1\n.end\n",
        b".latch e q\n.names q e\n0 1\n.end\n",
        100,
        Wanted::Equal,
    ),
    (
        "inputs in another order",
        b".inputs a b\n.end\n",
        b".inputs b a\n.end\n",
        100,
        Wanted::DifferentInterface,
    ),
    (
        "one output more",
        b".inputs a\n.outputs a\n.end\n",
        b".inputs a\n.outputs a a\n.end\n",
        100,
        Wanted::DifferentInterface,
    ),
    (
        "one clock less",
        b".clock c\n.end\n",
        b".end\n",
        100,
        Wanted::DifferentInterface,
    ),
    (
        "latches in another order",
        b".latch p p\n.latch q q\n.end\n",
        b".latch q q\n.latch p p\n.end\n",
        100,
        Wanted::DifferentInterface,
    ),
    (
        "one latch less",
        b".latch p p\n.end\n",
        b".end\n",
        100,
        Wanted::DifferentInterface,
    ),
    (
        "another kind of control",
        b".clock c\n.latch p p re c 0\n.end\n",
        b".clock c\n.latch p p fe c 0\n.end\n",
        100,
        Wanted::DifferentInterface,
    ),
    (
        "another control",
        b".clock b c\n.latch p p re b 0\n.end\n",
        b".clock b c\n.latch p p re c 0\n.end\n",
        100,
        Wanted::DifferentInterface,
    ),
    (
        "another initial value",
        b".latch p p\n.end\n",
        b".latch p p 3\n.end\n",
        100,
        Wanted::DifferentInterface,
    ),
    (
        "XOR of four as a tree and as a chain",
        b".inputs a b c d\n.outputs y\n.names a b p\n10 1\n01 1\n.names c d q\n10 1\n01 1\n.names p q y\n10 1\n01 1\n.end\n",
        b".inputs a b c d\n.outputs y\n.names a b p\n10 1\n01 1\n.names p c q\n10 1\n01 1\n.names q d y\n10 1\n01 1\n.end\n",
        10,
        Wanted::Equal,
    ),
    (
        "XOR of six in two orders, on a budget that is spent",
        b".inputs a b c d e f\n.outputs y\n.names a b p\n10 1\n01 1\n.names p c q\n10 1\n01 1\n.names q d r\n10 1\n01 1\n.names r e s\n10 1\n01 1\n.names s f y\n10 1\n01 1\n.end\n",
        b".inputs a b c d e f\n.outputs y\n.names f b p\n10 1\n01 1\n.names p d q\n10 1\n01 1\n.names q a r\n10 1\n01 1\n.names r e s\n10 1\n01 1\n.names s c y\n10 1\n01 1\n.end\n",
        1,
        Wanted::Undecided,
    ),
    (
        "a node that is a complement, and one that is constant",
        b".inputs a b c\n.outputs y\n.names a b p\n11 1\n.names p c y\n01 1\n10 1\n.end\n",
        b".inputs a b c\n.outputs y\n.names a b p\n0- 1\n-0 1\n.names a r\n0 1\n.names a r q\n11 1\n\
            .names p c s\n00 1\n11 1\n.names s q y\n1- 1\n-1 1\n.end\n",
        10,
        Wanted::Equal,
    ),
    (
        "a last sink that differs under one assignment of 8192",
        b".inputs a b c d e f g h i j k l m\n.outputs x y\n.names a b x\n11 1\n.names a b c d e f g h i j k l m y\n1111111111111 1\n.end\n",
        b".inputs a b c d e f g h i j k l m\n.outputs x y\n.names a b x\n11 1\n.names y\n.end\n",
        2,
        Wanted::Differ(
            2,
            &[
                true, true, true, true, true, true, true, true, true, true, true, true, true,
            ],
        ),
    ),
];

#[test]
fn circuits_have_these_miters_and_answers(rt: HostRuntime) {
    for &(name, first, second, budget, wanted) in COMPARED {
        let well = are_compared(rt.alloc(), first, second, budget, wanted);
        assert!(rt; well, "{name}");
    }
}
