//! Which nodes SAT sweeping merges, if its questions are answered by truth tables. No contract states this. The
//! numbers were counted by hand.
ghost use Rattle.std.specs.Prelude.{◌≡◌};

use crate::circuits::circuit;
use cnf_core::{Cnf, Lit};
use net_core::{Gate, Net, Sig};
use progress::Silent;
use sat_solve::{AssumptionResult, Cones, Solved, Solver};
use sat_sweep::{Swept, sweep};
use std::alloc::{AllocError, Global};

/// A solver that knows the values of the miter's variables under all 64 assignments of six sources, and counts the
/// nodes that it was asked about until it was known that they are constant, or equal or complementary to another
/// node.
#[derive(Drop)]
struct Tables {
    /// The values of the variables, a bit for each assignment; those of the constant 0 first.
    words: Vec<u64>,
    /// The number of variables, and the first that belongs to a sink.
    vars: u32,
    first_sink: u32,
    /// The assignment that answered the last question.
    row: u32,
    /// Whether the last question was about two nodes, and found one of the two ways to differ impossible.
    half: bool,
    merged: u32,
}

/// The value of a variable under each assignment.
fn word_at(words: &[u64], variable: u32) -> u64 {
    words.get(variable as usize).copied().unwrap_or(0)
}

impl Tables {
    /// Counts a question that no assignment satisfies.
    fn count(&mut self, assumptions: &[Lit])
        ensures { self.new.vars ≡ self.old.vars }
    {
        let is_node = match assumptions {
            [lit] => lit.variable() < self.first_sink,
            _ => false,
        };
        let is_whole = assumptions.len() == 2 && self.half;
        if is_node || is_whole {
            self.merged = self.merged.saturating_add(1);
        }
        self.half = assumptions.len() == 2 && !self.half;
    }
}

impl Solver for Tables {
    ghost IsSolverOf = { λ f least s. Unit {0} };

    ghost vars_of = { λ s. s.vars };

    ghost additions_of = { λ s. 0 };

    fn new(_alloc: Global, _cnf: &Cnf, _least: u32) -> Result<Tables, AllocError> {
        Err(AllocError)
    }

    fn solve_assuming(
        &mut self,
        assumptions: &[Lit],
        _cones: Cones,
        limit: u32,
    ) -> Result<AssumptionResult, AllocError> {
        let mut rows = u64::MAX;
        for lit in assumptions {
            let word = word_at(&self.words, lit.variable());
            rows &= if lit.is_positive() { word } else { !word };
        }
        if rows != 0 {
            self.row = rows.trailing_zeros() % 64;
            self.half = false;
            return Ok(AssumptionResult::Sat);
        }
        // with fewer conflicts only binary clauses are asked for
        if limit > 2 {
            self.count(assumptions);
        }
        Ok(AssumptionResult::Unsat)
    }

    fn bit(&self, variable: u32) -> Option<bool> {
        Some((word_at(&self.words, variable) >> (self.row % 64)) & 1 == 1)
    }

    fn additions(&self) -> u32 {
        0
    }

    fn finish(self, _alloc: Global, _budget: u32) -> Result<Solved, AllocError> {
        Err(AllocError)
    }
}

/// The value of a signal under each assignment, where the gates come after `before` gates of another net.
fn signal_word(words: &[u64], sources: u32, before: u32, sig: Sig) -> u64 {
    match sig {
        Sig::Zero => 0,
        Sig::One => u64::MAX,
        Sig::Node(node) if node <= sources => word_at(words, node),
        Sig::Node(node) => word_at(words, node.wrapping_add(before)),
    }
}

/// The value of a gate under each assignment.
fn gate_word(gate: &Gate, a: u64, b: u64) -> u64 {
    let mut word = 0;
    for (first, second) in [(false, false), (false, true), (true, false), (true, true)] {
        if gate.op.apply(first, second) {
            word |= (if first { a } else { !a }) & (if second { b } else { !b });
        }
    }
    word
}

/// Appends the values of the gates of a net.
fn push_gates(words: &mut Vec<u64>, net: &Net, before: u32) -> Result<(), AllocError> {
    for gate in net.gates() {
        let a = signal_word(words, net.sources(), before, gate.a);
        let b = signal_word(words, net.sources(), before, gate.b);
        words.push(gate_word(gate, a, b))?;
    }
    Ok(())
}

/// The values of six sources under 64 assignments.
const SOURCES: [u64; 6] = [
    0xAAAA_AAAA_AAAA_AAAA,
    0xCCCC_CCCC_CCCC_CCCC,
    0xF0F0_F0F0_F0F0_F0F0,
    0xFF00_FF00_FF00_FF00,
    0xFFFF_0000_FFFF_0000,
    0xFFFF_FFFF_0000_0000,
];

/// The values of the variables of the miter of two nets, of which the first has `before` gates.
fn words_of(alloc: Global, first: &Net, second: &Net, before: u32) -> Result<Vec<u64>, AllocError> {
    let mut words = vec![in alloc; 0u64]?;
    for word in SOURCES.iter().take(first.sources() as usize) {
        words.push(*word)?;
    }
    push_gates(&mut words, first, 0)?;
    push_gates(&mut words, second, before)?;
    for (one, other) in first.sinks().iter().zip(second.sinks()) {
        let word = signal_word(&words, first.sources(), 0, *one);
        words.push(word ^ signal_word(&words, first.sources(), before, *other))?;
    }
    Ok(words)
}

/// The number of nodes of two nets, of at most six sources, that a sweep merges; None if it finds that a sink differs,
/// or gives up a question.
fn merged(alloc: Global, first: &Net, second: &Net) -> Result<Option<u32>, AllocError> {
    let fits = first.sources() <= 6 && second.sources() == first.sources();
    if !fits || first.sinks().len() > 100 || second.sinks().len() != first.sinks().len() {
        return Ok(None);
    }
    if first.gates().len() > 100 || second.gates().len() > 100 {
        return Ok(None);
    }
    let before = first.gates().len() as u32;
    let nodes = first.sources() + before + second.gates().len() as u32;
    let mut tables = Tables {
        words: words_of(alloc, first, second, before)?,
        vars: nodes + first.sinks().len() as u32,
        first_sink: nodes + 1,
        row: 0,
        half: false,
        merged: 0,
    };
    match sweep(alloc, first, second, &mut tables, 1000, 1000, &Silent)? {
        Swept::Swept { spent: 0 } => Ok(Some(tables.merged)),
        _ => Ok(None),
    }
}

/// The same for two netlists; None also if memory runs out.
fn merged_of(alloc: Global, first: &[u8], second: &[u8]) -> Option<u32> {
    let one = circuit(alloc, first)?;
    let other = circuit(alloc, second)?;
    merged(alloc, &one.net, &other.net).ok()?
}

/// XOR of an AND and a third input.
const XOR_OF_AND: &[u8] =
    b".inputs a b c\n.outputs y\n.names a b p\n11 1\n.names p c y\n10 1\n01 1\n.end\n";

/// A full adder.
const ADDER: &[u8] =
    b".inputs a b c\n.outputs s k\n.names a b p\n10 1\n01 1\n.names p c s\n10 1\n01 1\n.names a b q\n11 1\n\
        .names p c r\n11 1\n.names q r k\n1- 1\n-1 1\n.end\n";

/// Pairs of netlists, and the number of nodes of both that are merged.
const MERGED: &[(&str, &[u8], &[u8], Option<u32>)] = &[
    ("a copy: each gate of it", XOR_OF_AND, XOR_OF_AND, Some(2)),
    (
        "operands exchanged: each gate",
        XOR_OF_AND,
        b".inputs a b c\n.outputs y\n.names b a p\n11 1\n.names c p y\n10 1\n01 1\n.end\n",
        Some(2),
    ),
    (
        "NAND under XNOR: a complement and an equal gate",
        XOR_OF_AND,
        b".inputs a b c\n.outputs y\n.names a b p\n11 0\n.names p c y\n11 1\n00 1\n.end\n",
        Some(2),
    ),
    (
        "AND by NOR of complements: both NOTs, the NOR and the last gate",
        XOR_OF_AND,
        b".inputs a b c\n.outputs y\n.names a n\n0 1\n.names b m\n0 1\n.names n m p\n00 1\n.names p c y\n10 1\n01 1\n.end\n",
        Some(4),
    ),
    (
        "XOR of four as a tree and as a chain: a pair and the last gate",
        b".inputs a b c d\n.outputs y\n.names a b p\n10 1\n01 1\n.names c d q\n10 1\n01 1\n.names p q y\n10 1\n01 1\n.end\n",
        b".inputs a b c d\n.outputs y\n.names a b p\n10 1\n01 1\n.names p c q\n10 1\n01 1\n.names q d y\n10 1\n01 1\n.end\n",
        Some(2),
    ),
    (
        "full adders with two carries: all gates but two of the second's carry",
        ADDER,
        b".inputs a b c\n.outputs s k\n.names a b p\n10 1\n01 1\n.names p c s\n10 1\n01 1\n.names a b q\n11 1\n\
            .names a b o\n1- 1\n-1 1\n.names o c r\n11 1\n.names q r k\n1- 1\n-1 1\n.end\n",
        Some(4),
    ),
    (
        "AND OR a gate that is always 0: that gate and two ANDs",
        b".inputs a b\n.outputs y\n.names a b y\n11 1\n.end\n",
        b".inputs a b\n.outputs y\n.names a b p\n11 1\n.names a b q\n00 1\n.names p q r\n11 1\n\
            .names p r y\n1- 1\n-1 1\n.end\n",
        Some(3),
    ),
    (
        "AND and OR differ",
        b".inputs a b\n.outputs y\n.names a b y\n11 1\n.end\n",
        b".inputs a b\n.outputs y\n.names a b y\n1- 1\n-1 1\n.end\n",
        None,
    ),
];

#[test]
fn equal_complementary_and_constant_nodes_are_merged(rt: HostRuntime) {
    for &(name, first, second, wanted) in MERGED {
        assert!(rt; merged_of(rt.alloc(), first, second) == wanted, "{name}");
    }
}
