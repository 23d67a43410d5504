//! The gates of a chain for an operator, appended for two signals as its inputs a and b. The table `at` has the signal
//! of each function that is known.
ghost use Rattle.std.specs.Prelude.{◌≡◌, ◌+◌, ◌<◌, ◌^◌, true, length, IfOk, OnOk, vec_len};
ghost use Rattle.net_theory.specs.Net.{IsSigBelow, AreGates};
ghost use Rattle.net_core.specs.Marks.{kept};
ghost use Rattle.op_basis.specs.Basis.{members};
ghost use Rattle.net_basis.specs.Joins.{operands, makes};
ghost use Rattle.net_basis.specs.Placing.{with_join, placed, IsExpressed};

use crate::join::{Join, function_of};
use crate::table::{put, put_operands, signal_of};
use net_core::{Gate, Sig};
use op_basis::{Basis, Op};
use std::alloc::AllocError;

/// Appends the gate of a step.
fn push_join(
    sources: u32,
    gates: &mut Vec<Gate>,
    join: &Join,
    at: &mut [Sig],
) -> Result<(), AllocError>
    requires room { sources + 1 + vec_len gates.old < 2 ^ 31 }
    requires table { length at.old ≡ 16 }
    ensures placed { OnOk result (kept at.new gates.new.items ≡
        with_join sources (kept at.old gates.old.items) join.now) }
    ensures count { OnOk result (vec_len gates.new ≡ vec_len gates.old + 1) }
    ensures table { length at.new ≡ length at.old }
{
    let sig = Sig::Node(sources + 1 + gates.len() as u32);
    gates.push(Gate {
        op: join.op,
        a: signal_of(at, join.first),
        b: signal_of(at, join.second),
    })?;
    put(at, function_of(join), sig);
    Ok(())
}

/// Appends the gates of steps.
fn push_joins(
    sources: u32,
    gates: &mut Vec<Gate>,
    joins: &[Join],
    at: &mut [Sig],
) -> Result<(), AllocError>
    requires room { sources + 1 + vec_len gates.old + length joins.now < 2 ^ 31 }
    requires table { length at.old ≡ 16 }
    ensures placed { OnOk result (kept at.new gates.new.items ≡
        placed sources (kept at.old gates.old.items) joins.now) }
    ensures count { OnOk result (vec_len gates.new ≡ vec_len gates.old + length joins.now) }
    ensures table { length at.new ≡ length at.old }
{
    let mut left = joins;
    while let Some((join, rest)) = left.split_first() {
        push_join(sources, gates, join, at)?;
        left = rest;
    }
    Ok(())
}

/// Appends the gates of steps that make the operator `op`, for the signals a and b: the signal of `op`.
pub fn push_chain(
    basis: Basis,
    sources: u32,
    gates: &mut Vec<Gate>,
    joins: &[Join],
    op: Op,
    a: Sig,
    b: Sig,
) -> Result<Sig, AllocError>
    requires gates { AreGates sources gates.old.items }
    requires first { IsSigBelow (sources + 1 + length gates.old.items) a }
    requires second { IsSigBelow (sources + 1 + length gates.old.items) b }
    requires made { makes (members basis) operands joins.now op ≡ true }
    requires room { sources + 1 + vec_len gates.old + length joins.now < 2 ^ 31 }
    ensures expressed { IfOk result (IsExpressed (members basis) sources gates.old.items gates.new.items a b op) }
    ensures count { OnOk result (vec_len gates.new ≡ vec_len gates.old + length joins.now) }
{
    // for the prover: no member of the basis is above 15
    let _members = basis.get();
    let mut at = [Sig::Zero; 16];
    put_operands(&mut at, a, b);
    push_joins(sources, gates, joins, &mut at)?;
    Ok(signal_of(&at, op))
}
