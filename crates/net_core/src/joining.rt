//! AND, OR or XOR of several signals, as a left-deep chain of gates.

ghost use Rattle.std.specs.Prelude.{◌≡◌, ◌+◌, ◌≤◌, ◌<◌, ◌^◌, length, vec_len, OnOk, IfOk};
ghost use Rattle.net_theory.specs.Expansion.{with_gate, joined, join_from, join_all as join_all_of};
ghost use Rattle.net_core.specs.Growing.{built, joint, word_of, IsPrefixOfGates};

use net_theory::{Gate, Sig, Signed};
use op_basis::Op;
use std::alloc::AllocError;

/// The function that joins signals.
#[derive(Clone, Copy)]
pub enum Connective {
    And,
    Or,
    Xor,
}

/// The operator that joins two signals; `first` and `second` tell whether they are complemented.
fn operator(connective: Connective, first: bool, second: bool) -> Op
    ensures word { result ≡ word_of connective first second }
    ensures below { result < 16 }
{
    let word = match connective {
        Connective::And => match (first, second) {
            (false, false) => 1,
            (false, true) => 2,
            (true, false) => 4,
            (true, true) => 8,
        },
        Connective::Or => match (first, second) {
            (false, false) => 7,
            (false, true) => 11,
            (true, false) => 13,
            (true, true) => 14,
        },
        Connective::Xor => match (first, second) {
            (false, false) | (true, true) => 6,
            (false, true) | (true, false) => 9,
        },
    };
    Op::new(word)
}

/// Appends a gate and returns its node.
pub fn push_gate(sources: u32, gates: &mut Vec<Gate>, gate: Gate) -> Result<Sig, AllocError>
    requires { sources + vec_len gates.old ≤ 2 ^ 31 }
    ensures gate { IfOk result (λ sig. built gates.new.items sig ≡ with_gate sources gates.old.items gate) }
    ensures count { OnOk result (vec_len gates.new ≡ vec_len gates.old + 1) }
    ensures prefix { IsPrefixOfGates gates.old.items gates.new.items }
{
    let node = sources + 1 + gates.len() as u32;
    gates.push(gate)?;
    Ok(Sig::Node(node))
}

/// Joins `next` to `out`, the result so far.
fn join(
    connective: Connective,
    sources: u32,
    gates: &mut Vec<Gate>,
    out: Signed,
    next: Signed,
) -> Result<Signed, AllocError>
    requires { sources + vec_len gates.old ≤ 2 ^ 31 }
    ensures gate { IfOk result (λ new. joint gates.new.items new ≡
        joined (word_of connective) sources (joint gates.old.items out) next) }
    ensures count { OnOk result (vec_len gates.new ≡ vec_len gates.old + 1) }
    ensures prefix { IsPrefixOfGates gates.old.items gates.new.items }
{
    let gate = Gate {
        op: operator(connective, out.turned, next.turned),
        a: out.sig,
        b: next.sig,
    };
    let sig = push_gate(sources, gates, gate)?;
    Ok(Signed { sig, turned: false })
}

/// Joins `signals` to `first`.
#[tactic(auto, using(crate::proofs::Prefixes::prefixes), unfolding(net_theory::specs::Expansion::join_from))]
fn join_more(
    connective: Connective,
    sources: u32,
    gates: &mut Vec<Gate>,
    first: Signed,
    signals: &[Signed],
) -> Result<Signed, AllocError>
    requires { sources + vec_len gates.old + length signals.now ≤ 2 ^ 31 }
    ensures gates { IfOk result (λ out. joint gates.new.items out ≡
        join_from (word_of connective) sources (joint gates.old.items first) signals.now) }
    ensures count { OnOk result (vec_len gates.new ≡ vec_len gates.old + length signals.now) }
    ensures prefix { IsPrefixOfGates gates.old.items gates.new.items }
{
    let mut out = first;
    let mut left = signals;
    while let Some((next, rest)) = left.split_first() {
        out = join(connective, sources, gates, out, *next)?;
        left = rest;
    }
    Ok(out)
}

/// Joins all signals of a nonempty list.
#[tactic(auto, using(crate::proofs::Prefixes::prefixes), unfolding(net_theory::specs::Expansion::join_all))]
pub fn join_all(
    connective: Connective,
    sources: u32,
    gates: &mut Vec<Gate>,
    signals: &[Signed],
) -> Result<Signed, AllocError>
    requires some { 0 < length signals.now }
    requires room { sources + vec_len gates.old + length signals.now ≤ 2 ^ 31 }
    ensures gates { IfOk result (λ out. joint gates.new.items out ≡
        join_all_of (word_of connective) sources gates.old.items signals.now) }
    ensures count { OnOk result (vec_len gates.new + 1 ≡ vec_len gates.old + length signals.now) }
    ensures prefix { IsPrefixOfGates gates.old.items gates.new.items }
{
    match signals.split_first() {
        Some((first, rest)) => join_more(connective, sources, gates, *first, rest),
        None => unreachable!(),
    }
}
