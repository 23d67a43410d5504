//! All functions of two operands that the operators of a basis make, one step after the other: a step is added as long
//! as one makes a function that isn't known.
ghost use Rattle.std.specs.Prelude.{◌≡◌, true, IfOk, IfSome, IfNone};
ghost use Rattle.op_basis.specs.Basis.{members};
ghost use Rattle.op_basis.specs.Closed.{every};
ghost use Rattle.net_basis.specs.Joins.{has_joined_on, has_all_joined, is_closed, is_new as is_new_of, IsNewJoin};
ghost use Rattle.net_basis.specs.Placing.{IsClosure};

use crate::join::{Join, function_of, may_join, operands, with_function};
use op_basis::{Basis, Op};
use std::alloc::{AllocError, Global};

/// The functions that the basis makes of two operands, and steps that make them.
#[derive(Drop)]
pub struct Closure {
    pub known: Basis,
    pub joins: Vec<Join>,
}

/// Whether a step reads known functions and makes one that isn't known.
fn is_new(basis: Basis, known: Basis, join: &Join) -> bool
    ensures { result ≡ is_new_of (members basis) (members known) join.now }
{
    may_join(basis, known, join) && !known.contains(function_of(join))
}

/// A new step with this operator and first operand.
#[tactic(auto, using(crate::proofs::Every::passing), unfolding(crate::specs::Joins::has_joined_on))]
fn new_second(basis: Basis, known: Basis, op: Op, first: Op) -> Option<Join>
    requires { members basis op ≡ true }
    ensures some { IfSome result (IsNewJoin (members basis) (members known)) }
    ensures none { IfNone result (has_joined_on (members known) op first ≡ true) }
{
    for word in 0..16u8 {
        let join = Join {
            op,
            first,
            second: Op::new(word),
        };
        if is_new(basis, known, &join) {
            return Some(join);
        }
    }
    None
}

/// A new step with this operator.
#[tactic(auto, using(crate::proofs::Every::passing))]
fn new_first(basis: Basis, known: Basis, op: Op) -> Option<Join>
    requires { members basis op ≡ true }
    ensures some { IfSome result (IsNewJoin (members basis) (members known)) }
    ensures none { IfNone result (every (has_joined_on (members known) op) ≡ true) }
{
    for word in 0..16u8 {
        if let Some(join) = new_second(basis, known, op, Op::new(word)) {
            return Some(join);
        }
    }
    None
}

/// A new step with this operator, if it is in the basis.
#[tactic(auto, unfolding(crate::specs::Joins::has_all_joined))]
fn new_with(basis: Basis, known: Basis, op: Op) -> Option<Join>
    ensures some { IfSome result (IsNewJoin (members basis) (members known)) }
    ensures none { IfNone result (has_all_joined (members basis) (members known) op ≡ true) }
{
    if !basis.contains(op) {
        return None;
    }
    new_first(basis, known, op)
}

/// A new step; None where the known functions are closed under the basis.
#[tactic(auto, using(crate::proofs::Every::passing))]
fn new_join(basis: Basis, known: Basis) -> Option<Join>
    ensures some { IfSome result (IsNewJoin (members basis) (members known)) }
    ensures none { IfNone result (is_closed (members basis) (members known) ≡ true) }
{
    for word in 0..16u8 {
        if let Some(join) = new_with(basis, known, Op::new(word)) {
            return Some(join);
        }
    }
    None
}

/// All functions that the basis makes of two operands.
pub fn closure_of(alloc: Global, basis: Basis) -> Result<Closure, AllocError>
    ensures { IfOk result (λ all. IsClosure (members basis) (members all.known) all.joins.items) }
{
    let mut joins = Vec::new(alloc);
    let mut known = operands();
    while let Some(join) = new_join(basis, known) {
        known = with_function(known, function_of(&join));
        joins.push(join)?;
    }
    Ok(Closure { known, joins })
}
