//! The AND gates of a net: AND and OR with complements of their operands and of their results are one gate each, unless
//! an operand is a constant or both are the same variable; constants, copies and complements are none.

ghost use Rattle.std.specs.Prelude.{◌≡◌, ◌||◌, ◌==◌, ◌+◌, ◌≤◌, ◌<◌, ◌^◌, length, OnOk, IfOk};
ghost use Rattle.aiger_core.specs.Written as spec;

use crate::literals::{complement, evens, flipped, sig_literal};
use aiger_text::AigGate;
use net_core::{Gate, Net};
use std::alloc::{AllocError, Global};
use std::marker::Model;

/// The gates so far, and the literals of the nodes so far; node 0 doesn't exist.
#[derive(Drop)]
pub struct Mapped {
    pub gates: Vec<AigGate>,
    pub literals: Vec<u32>,
}

impl Model for Mapped {
    ghost use Rattle.aiger_core.specs.Written as written;

    ghost Value = { written.Mapped };

    ghost view = { λ m. record { gates = m.gates.items; literals = m.literals.items } };
}

/// Which operands of an AND are complemented, and whether its result is.
#[derive(Clone, Copy)]
struct Flips {
    first: bool,
    second: bool,
    out: bool,
}

/// The gate of a literal, its greater fanin first.
fn and_gate(literal: u32, a: u32, b: u32) -> AigGate
    ensures { result ≡ spec.and_gate literal a b }
{
    if b <= a {
        AigGate {
            literal,
            first: a,
            second: b,
        }
    } else {
        AigGate {
            literal,
            first: b,
            second: a,
        }
    }
}

/// Whether AND of two literals is 0 without a gate.
fn is_zero(a: u32, b: u32) -> bool
    ensures { result ≡ (a == 0 || b == 0 || a == spec.complement b) }
{
    a == 0 || b == 0 || a == complement(b)
}

/// Whether AND of two literals is the first one without a gate.
fn is_first(a: u32, b: u32) -> bool
    ensures { result ≡ (b == 1 || a == b) }
{
    b == 1 || a == b
}

/// AND of two literals; adds a gate unless it is a constant or one of the two.
#[tactic(auto, unfolding(aiger_core::specs::Written::anded))]
fn anded(gates: &mut Vec<AigGate>, sources: u32, a: u32, b: u32) -> Result<u32, AllocError>
    requires { sources + length gates.old.items + 1 < 2 ^ 31 }
    ensures literal { IfOk result (λ l. spec.without gates.new.items l ≡
        spec.anded sources gates.old.items a b) }
    ensures few { OnOk result (length gates.new.items ≤ length gates.old.items + 1) }
{
    if is_zero(a, b) {
        return Ok(0);
    }
    if a == 1 {
        return Ok(b);
    }
    if is_first(a, b) {
        return Ok(a);
    }
    let literal = (sources + gates.len() as u32 + 1) * 2;
    gates.push(and_gate(literal, a, b))?;
    Ok(literal)
}

/// AND with complements of the operands and of the result.
fn anded_with(
    gates: &mut Vec<AigGate>,
    sources: u32,
    a: u32,
    b: u32,
    flips: Flips,
) -> Result<u32, AllocError>
    requires { sources + length gates.old.items + 1 < 2 ^ 31 }
    ensures literal { IfOk result (λ l. spec.without gates.new.items l ≡
        spec.anded_with sources gates.old.items a b flips.first flips.second flips.out) }
    ensures few { OnOk result (length gates.new.items ≤ length gates.old.items + 1) }
{
    let literal = anded(
        gates,
        sources,
        flipped(flips.first, a),
        flipped(flips.second, b),
    )?;
    Ok(flipped(flips.out, literal))
}

/// Complements by three bits, which are 1 for a complement.
fn complements(first: u8, second: u8, out: u8) -> Flips
    ensures first { result.first ≡ (first == 1) }
    ensures second { result.second ≡ (second == 1) }
    ensures out { result.out ≡ (out == 1) }
{
    Flips {
        first: first == 1,
        second: second == 1,
        out: out == 1,
    }
}

/// A gate, by the word of its operator. An operator that can't be written gives the constant 0.
#[tactic(auto, unfolding(aiger_core::specs::Written::operated))]
fn operated(
    gates: &mut Vec<AigGate>,
    sources: u32,
    word: u8,
    a: u32,
    b: u32,
) -> Result<u32, AllocError>
    requires { sources + length gates.old.items + 1 < 2 ^ 31 }
    ensures literal { IfOk result (λ l. spec.without gates.new.items l ≡
        spec.operated sources gates.old.items word a b) }
    ensures few { OnOk result (length gates.new.items ≤ length gates.old.items + 1) }
{
    match word {
        1 => anded_with(gates, sources, a, b, complements(0, 0, 0)),
        2 => anded_with(gates, sources, a, b, complements(0, 1, 0)),
        4 => anded_with(gates, sources, a, b, complements(1, 0, 0)),
        8 => anded_with(gates, sources, a, b, complements(1, 1, 0)),
        14 => anded_with(gates, sources, a, b, complements(0, 0, 1)),
        13 => anded_with(gates, sources, a, b, complements(0, 1, 1)),
        11 => anded_with(gates, sources, a, b, complements(1, 0, 1)),
        7 => anded_with(gates, sources, a, b, complements(1, 1, 1)),
        3 => Ok(a),
        5 => Ok(b),
        12 => Ok(complement(a)),
        10 => Ok(complement(b)),
        15 => Ok(1),
        _ => Ok(0),
    }
}

/// Adds a gate of the net, and the literal of its node.
fn add_node(mapped: &mut Mapped, sources: u32, gate: &Gate) -> Result<(), AllocError>
    requires { sources + length mapped.old.gates + 1 < 2 ^ 31 }
    ensures node { OnOk result (mapped.new ≡ spec.with_node sources mapped.old gate.now) }
    ensures few { OnOk result (length mapped.new.gates ≤ length mapped.old.gates + 1) }
{
    let a = sig_literal(&mapped.literals, gate.a);
    let b = sig_literal(&mapped.literals, gate.b);
    let literal = operated(&mut mapped.gates, sources, gate.op.get(), a, b)?;
    mapped.literals.push(literal)?;
    Ok(())
}

/// The gates of a net, and the literals of its nodes.
#[tactic(auto, unfolding(aiger_core::specs::Written::mapped_from))]
pub fn mapped_net(alloc: Global, net: &Net) -> Result<Mapped, AllocError>
    requires { net.now.sources + 1 + length net.now.gates < 2 ^ 31 }
    ensures mapped { IfOk result (λ m. m ≡ spec.mapped net.now) }
    ensures few { IfOk result (λ m. length m.gates ≤ length net.now.gates) }
{
    let sources = net.sources();
    let mut mapped = Mapped {
        gates: Vec::new(alloc),
        literals: evens(alloc, 0, sources + 1)?,
    };
    let mut left = net.gates();
    while let Some((gate, rest)) = left.split_first() {
        add_node(&mut mapped, sources, gate)?;
        left = rest;
    }
    Ok(mapped)
}
