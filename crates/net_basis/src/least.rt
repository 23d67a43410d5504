//! A least chain for an operator. Chains of no step, of one, of two, and so on are looked for in turn, until there is one:
//! of the steps that make one function, the first stands for all.
ghost use Rattle.std.specs.Prelude.{◌≡◌, ◌<◌, ◌∷◌, true, IfOk, IfSome, IfNone};
ghost use Rattle.op_basis.specs.Basis.{members};
ghost use Rattle.net_basis.specs.Joins.{function_of as function_of_join, operands as operands_of};
ghost use Rattle.net_basis.specs.Joins.{may_join as may_join_of, makes};
ghost use Rattle.net_basis.specs.LeastChains.{join_at, is_untried as is_untried_of, IsChainWithin, IsOutOfReach};
ghost use Rattle.net_basis.specs.LeastChains.{IsLeastChain};

use crate::join::{Join, function_of, may_join, operands, with_function};
use op_basis::{Basis, Op};
use std::alloc::{AllocError, Global};

/// The number of all steps: sixteen operators, each of two of the sixteen functions.
const JOINS: u16 = 4096;

/// The step of a number.
fn join_of(code: u16) -> Join
    requires { code < 4096 }
    ensures { result ≡ join_at code }
{
    Join {
        op: Op::new((code / 256) as u8),
        first: Op::new((code / 16 % 16) as u8),
        second: Op::new((code % 16) as u8),
    }
}

/// Whether the operator's value depends on its first operand.
fn reads_first(op: Op) -> bool {
    op.apply(false, false) != op.apply(true, false) || op.apply(false, true) != op.apply(true, true)
}

/// Whether it depends on its second operand.
fn reads_second(op: Op) -> bool {
    op.apply(false, false) != op.apply(false, true) || op.apply(true, false) != op.apply(true, true)
}

/// The step with its operands, where one that doesn't matter is as the other: it reads no gate that isn't needed.
fn needed(op: Op, first: Op, second: Op) -> Join {
    if !reads_second(op) {
        return Join {
            op,
            first,
            second: first,
        };
    }
    if !reads_first(op) {
        return Join {
            op,
            first: second,
            second,
        };
    }
    Join { op, first, second }
}

/// Whether a step may take the place of another: it may be one, and makes the same function.
fn is_as_good(basis: Basis, known: Basis, lean: &Join, join: &Join) -> bool
    ensures may { result ≡ true → may_join_of (members basis) (members known) lean.now ≡ true }
    ensures same { result ≡ true → function_of_join lean.now ≡ function_of_join join.now }
{
    may_join(basis, known, lean) && function_of(lean).get() == function_of(join).get()
}

/// The step, or one that makes the same function and reads no gate that isn't needed.
fn leaner(basis: Basis, known: Basis, join: &Join) -> Join
    requires { may_join_of (members basis) (members known) join.now ≡ true }
    ensures may { may_join_of (members basis) (members known) result ≡ true }
    ensures same { function_of_join result ≡ function_of_join join.now }
{
    let lean = needed(join.op, join.first, join.second);
    if is_as_good(basis, known, &lean, join) {
        return lean;
    }
    *join
}

/// Whether the step may be one, and makes a function that wasn't tried.
fn is_untried(basis: Basis, known: Basis, tried: Basis, join: &Join) -> bool
    ensures { result ≡ is_untried_of (members basis) (members known) (members tried) join.now }
{
    may_join(basis, known, join) && !tried.contains(function_of(join))
}

/// The steps after a first one.
fn with_first(join: Join, rest: Vec<Join>) -> Result<Vec<Join>, AllocError>
    ensures { IfOk result (λ joins. joins.items ≡ join ∷ rest.items) }
{
    let mut joins = rest;
    joins.insert(0, join)?;
    Ok(joins)
}

/// At most `most` steps that make the function after what is known, if there are any. Each function that one step makes
/// is tried in turn.
fn chain_within(
    alloc: Global,
    basis: Basis,
    known: Basis,
    function: Op,
    most: usize,
) -> Result<Option<Vec<Join>>, AllocError>
    ensures some { IfOk result (λ found. IfSome found (λ joins.
        IsChainWithin (members basis) (members known) function most joins.items)) }
    ensures none { IfOk result (λ found. IfNone found
        (IsOutOfReach (members basis) (members known) function most)) }
{
    if known.contains(function) {
        return Ok(Some(Vec::new(alloc)));
    }
    if most == 0 {
        return Ok(None);
    }
    // for the prover: no member of either set is above 15
    let _members = basis.get();
    let _known = known.get();
    let mut tried = known;
    for code in 0..JOINS {
        let join = join_of(code);
        if !is_untried(basis, known, tried, &join) {
            continue;
        }
        let made = function_of(&join);
        let next = with_function(known, made);
        if let Some(rest) = chain_within(alloc, basis, next, function, most - 1)? {
            return Ok(Some(with_first(leaner(basis, known, &join), rest)?));
        }
        tried = with_function(tried, made);
    }
    Ok(None)
}

/// A least chain for a function, of which the chain `enough` is one.
pub fn least_joins(
    alloc: Global,
    basis: Basis,
    enough: &[Join],
    function: Op,
) -> Result<Vec<Join>, AllocError>
    requires { makes (members basis) operands_of enough.now function ≡ true }
    ensures { IfOk result (λ joins. IsLeastChain (members basis) function joins.items) }
{
    let known = operands();
    for steps in 0..enough.len() {
        if let Some(joins) = chain_within(alloc, basis, known, function, steps)? {
            return Ok(joins);
        }
    }
    let mut joins = Vec::new(alloc);
    joins.extend_from_slice(enough)?;
    Ok(joins)
}
