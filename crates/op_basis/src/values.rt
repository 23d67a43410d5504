//! Operators built from their values.
ghost use Rattle.std.specs.Prelude.{◌≡◌};
ghost use Rattle.op_basis.specs.Operator.{apply};
ghost use Rattle.op_basis.specs.Closed.{operator_of, swapped as swapped_of, complement as complement_of};
ghost use Rattle.op_basis.specs.Closed.{first_complemented as first_complemented_of};
ghost use Rattle.op_basis.specs.Closed.{second_complemented as second_complemented_of};
ghost use Rattle.op_basis.specs.Closed.{left_on_first as left_on_first_of, left_on_second as left_on_second_of};
ghost use Rattle.op_basis.specs.Closed.{right_on_first as right_on_first_of, right_on_second as right_on_second_of};

use crate::Op;

/// The word of the operator a of (a, b).
const FIRST: u8 = 0b0011;

/// The word of the operator b of (a, b).
const SECOND: u8 = 0b0101;

/// The word of the operator not a of (a, b).
const NOT_FIRST: u8 = 0b1100;

/// The word of the operator not b of (a, b).
const NOT_SECOND: u8 = 0b1010;

/// The operator with its operands exchanged.
#[tactic(auto, unfolding(crate::specs::Closed::swapped))]
pub fn swapped(op: Op) -> Op
    ensures { result ≡ swapped_of op }
{
    Op::with_values(
        op.apply(false, false),
        op.apply(true, false),
        op.apply(false, true),
        op.apply(true, true),
    )
}

/// The operator's complement.
#[tactic(auto, unfolding(crate::specs::Closed::complement))]
pub(crate) fn complement(op: Op) -> Op
    ensures { result ≡ complement_of op }
{
    Op::with_values(
        !op.apply(false, false),
        !op.apply(false, true),
        !op.apply(true, false),
        !op.apply(true, true),
    )
}

/// The operator outer(left(a,b), right(a,b)) of (a, b).
fn composed(outer: Op, left: Op, right: Op) -> Op
    ensures { result ≡ operator_of (λ a b. apply outer (apply left a b) (apply right a b)) }
{
    Op::with_values(
        outer.apply(left.apply(false, false), right.apply(false, false)),
        outer.apply(left.apply(false, true), right.apply(false, true)),
        outer.apply(left.apply(true, false), right.apply(true, false)),
        outer.apply(left.apply(true, true), right.apply(true, true)),
    )
}

/// The operator with its first operand complemented.
#[tactic(auto, unfolding(crate::specs::Closed::first_complemented))]
pub(crate) fn first_complemented(op: Op) -> Op
    ensures { result ≡ first_complemented_of op }
{
    composed(op, Op::new(NOT_FIRST), Op::new(SECOND))
}

/// The operator with its second operand complemented.
#[tactic(auto, unfolding(crate::specs::Closed::second_complemented))]
pub(crate) fn second_complemented(op: Op) -> Op
    ensures { result ≡ second_complemented_of op }
{
    composed(op, Op::new(FIRST), Op::new(NOT_SECOND))
}

/// The operator q(p(a,b), a) of (a, b).
#[tactic(auto, unfolding(crate::specs::Closed::left_on_first))]
pub(crate) fn left_on_first(p: Op, q: Op) -> Op
    ensures { result ≡ left_on_first_of p q }
{
    composed(q, p, Op::new(FIRST))
}

/// The operator q(p(a,b), b) of (a, b).
#[tactic(auto, unfolding(crate::specs::Closed::left_on_second))]
pub(crate) fn left_on_second(p: Op, q: Op) -> Op
    ensures { result ≡ left_on_second_of p q }
{
    composed(q, p, Op::new(SECOND))
}

/// The operator q(a, p(a,b)) of (a, b).
#[tactic(auto, unfolding(crate::specs::Closed::right_on_first))]
pub(crate) fn right_on_first(p: Op, q: Op) -> Op
    ensures { result ≡ right_on_first_of p q }
{
    composed(q, Op::new(FIRST), p)
}

/// The operator q(b, p(a,b)) of (a, b).
#[tactic(auto, unfolding(crate::specs::Closed::right_on_second))]
pub(crate) fn right_on_second(p: Op, q: Op) -> Op
    ensures { result ≡ right_on_second_of p q }
{
    composed(q, Op::new(SECOND), p)
}
