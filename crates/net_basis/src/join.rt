//! A step of a chain for an operator, by the functions that it reads and makes.
ghost use Rattle.std.specs.Prelude.{◌≡◌, ◌≤◌, ◌<◌, true};
ghost use Rattle.chain_theory.specs.Value.{extended};
ghost use Rattle.op_basis.specs.Basis.{members};
ghost use Rattle.net_basis.specs.Joins.{function_of as function_of_join, operands as operands_of};
ghost use Rattle.net_basis.specs.Joins.{may_join as may_join_of};

use op_basis::{Basis, Op};

/// A step of a chain with the inputs a and b: an operator, and the functions of a and b that it reads, each of them
/// named by its operator.
#[derive(Clone, Copy)]
pub struct Join {
    pub op: Op,
    pub first: Op,
    pub second: Op,
}

/// The function of a and b that the step makes.
#[tactic(auto, unfolding(crate::specs::Joins::joined))]
pub fn function_of(join: &Join) -> Op
    ensures { result ≡ function_of_join join.now }
{
    let Join { op, first, second } = *join;
    Op::with_values(
        op.apply(first.apply(false, false), second.apply(false, false)),
        op.apply(first.apply(false, true), second.apply(false, true)),
        op.apply(first.apply(true, false), second.apply(true, false)),
        op.apply(first.apply(true, true), second.apply(true, true)),
    )
}

/// The set with one more function.
#[tactic(auto, using(crate::proofs::Sets::growing))]
pub fn with_function(known: Basis, function: Op) -> Basis
    ensures members { members result ≡ extended (members known) function true }
    ensures more { known ≤ result }
    ensures below { result < 65536 }
{
    Basis::new(known.get() | 1 << function.get())
}

/// The set of the constants, which are 0 and 15.
fn constants() -> Basis
    ensures { members result ≡ extended (extended (members 0) 0 true) 15 true }
{
    let none = Basis::new(0);
    let zero = Op::new(0);
    let one = Op::new(15);
    with_function(with_function(none, zero), one)
}

/// The set of the functions that need no gate: a and b, which are 3 and 5, and the constants.
pub fn operands() -> Basis
    ensures { members result ≡ operands_of }
{
    let bits = constants();
    let first = Op::new(3);
    let second = Op::new(5);
    with_function(with_function(bits, first), second)
}

/// Whether the step's operator is in the basis, and the functions that it reads are known.
pub fn may_join(basis: Basis, known: Basis, join: &Join) -> bool
    ensures { result ≡ may_join_of (members basis) (members known) join.now }
{
    basis.contains(join.op) && known.contains(join.first) && known.contains(join.second)
}
