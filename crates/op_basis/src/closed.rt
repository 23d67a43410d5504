//! Closure properties of a basis. They decide which normal forms a search for chains may assume.
//! Each test goes over all sixteen operators.
ghost use Rattle.std.specs.Prelude.{◌≡◌};
ghost use Rattle.op_basis.specs.Basis.{members};
ghost use Rattle.op_basis.specs.Closed.{every, swaps as swaps_of, swap_closed as swap_closed_of};
ghost use Rattle.op_basis.specs.Closed.{has_no_negation_at as has_no_negation_at_of, has_negation as has_negation_of};
ghost use Rattle.op_basis.specs.Closed.{negates_one as negates_one_of, keeps_constants as keeps_constants_of};
ghost use Rattle.op_basis.specs.Closed.{const_closed as const_closed_of, polarity_closed as polarity_closed_of};
ghost use Rattle.op_basis.specs.Closed.{has_complements as has_complements_of, is_allowed as is_allowed_of};
ghost use Rattle.op_basis.specs.Closed.{reapplies as reapplies_of, reapplies_all as reapplies_all_of};
ghost use Rattle.op_basis.specs.Closed.{reapply_closed as reapply_closed_of};

use crate::values::{
    complement, first_complemented, left_on_first, left_on_second, right_on_first, right_on_second,
    second_complemented, swapped,
};
use crate::{Basis, Op};

/// Whether the operator is the complement of one operand when the other is fixed to some constant.
#[tactic(auto, unfolding(crate::specs::Closed::negates_one))]
fn negates_one(op: Op) -> bool
    ensures { result ≡ negates_one_of op }
{
    (op.apply(false, false) && !op.apply(false, true))
        || (op.apply(true, false) && !op.apply(true, true))
        || (op.apply(false, false) && !op.apply(true, false))
        || (op.apply(false, true) && !op.apply(true, true))
}

impl Basis {
    /// The operator isn't a member, or it is a member with its operands exchanged, too.
    #[tactic(auto, unfolding(crate::specs::Closed::swaps))]
    fn swaps(self, op: Op) -> bool
        ensures { result ≡ swaps_of (members self) op }
    {
        !self.contains(op) || self.contains(swapped(op))
    }

    /// Whether each member is a member with its operands exchanged, too.
    #[tactic(auto, using(crate::proofs::Every::passing))]
    pub fn swap_closed(self) -> bool
        ensures { result ≡ swap_closed_of (members self) }
    {
        for word in 0..16u8 {
            if !self.swaps(Op::new(word)) {
                return false;
            }
        }
        true
    }

    /// The operator isn't a member, or it isn't a negation on equal operands.
    #[tactic(auto, unfolding(crate::specs::Closed::has_no_negation_at, crate::specs::Closed::negates_both))]
    fn has_no_negation_at(self, op: Op) -> bool
        ensures { result ≡ has_no_negation_at_of (members self) op }
    {
        !self.contains(op) || !(op.apply(false, false) && !op.apply(true, true))
    }

    /// Whether some member has the value 1 at (0,0) and 0 at (1,1), and so is a negation on equal
    /// operands.
    #[tactic(auto, using(crate::proofs::Every::passing))]
    pub fn has_negation(self) -> bool
        ensures { result ≡ has_negation_of (members self) }
    {
        for word in 0..16u8 {
            if !self.has_no_negation_at(Op::new(word)) {
                return true;
            }
        }
        false
    }

    /// The operator isn't a member, or it never is the complement of one operand when the other is
    /// fixed to a constant.
    #[tactic(auto, unfolding(crate::specs::Closed::keeps_constants))]
    fn keeps_constants(self, op: Op) -> bool
        ensures { result ≡ keeps_constants_of (members self) op }
    {
        !self.contains(op) || !negates_one(op)
    }

    /// Whether no member is the complement of one operand when the other is fixed to a constant.
    #[tactic(auto, using(crate::proofs::Every::passing))]
    fn all_keep_constants(self) -> bool
        ensures { result ≡ every (keeps_constants_of (members self)) }
    {
        for word in 0..16u8 {
            if !self.keeps_constants(Op::new(word)) {
                return false;
            }
        }
        true
    }

    /// Whether constant steps can be left out of a chain: some member is a negation on equal operands,
    /// or no member is the complement of one operand when the other is fixed to a constant.
    pub fn const_closed(self) -> bool
        ensures { result ≡ const_closed_of (members self) }
    {
        self.has_negation() || self.all_keep_constants()
    }

    /// The operator isn't a member, or its complement and the operators with one operand complemented
    /// are members too.
    #[tactic(auto, unfolding(crate::specs::Closed::has_complements))]
    fn has_complements(self, op: Op) -> bool
        ensures { result ≡ has_complements_of (members self) op }
    {
        !self.contains(op)
            || (self.contains(complement(op))
                && self.contains(first_complemented(op))
                && self.contains(second_complemented(op)))
    }

    /// Whether the basis is closed under complements: for each member, its complement and the operators
    /// with one operand complemented are members.
    #[tactic(auto, using(crate::proofs::Every::passing))]
    pub fn polarity_closed(self) -> bool
        ensures { result ≡ polarity_closed_of (members self) }
    {
        for word in 0..16u8 {
            if !self.has_complements(Op::new(word)) {
                return false;
            }
        }
        true
    }

    /// A step with this operator can be one step over the basis, or be left out: the operator is a
    /// member, with its operands exchanged or not; or an operand; or a constant, if constants can be
    /// left out; or the complement of an operand, if there is a negation.
    #[tactic(auto, unfolding(crate::specs::Closed::is_allowed))]
    fn is_allowed(self, op: Op) -> bool
        ensures { result ≡ is_allowed_of (members self) op }
    {
        if self.contains(op) || self.contains(swapped(op)) {
            return true;
        }
        match op.get() {
            0b0011 | 0b0101 => true,
            0b0000 | 0b1111 => self.const_closed(),
            0b1100 | 0b1010 => self.has_negation(),
            _ => false,
        }
    }

    /// `q` isn't a member, or the four operators that apply `q` to `p` and one of its operands are
    /// allowed.
    #[tactic(auto, unfolding(crate::specs::Closed::reapplies))]
    fn reapplies(self, p: Op, q: Op) -> bool
        ensures { result ≡ reapplies_of (members self) p q }
    {
        !self.contains(q)
            || (self.is_allowed(left_on_first(p, q))
                && self.is_allowed(left_on_second(p, q))
                && self.is_allowed(right_on_first(p, q))
                && self.is_allowed(right_on_second(p, q)))
    }

    /// The same for each of the sixteen operators as `q`.
    #[tactic(auto, using(crate::proofs::Every::passing))]
    fn reapplies_each(self, p: Op) -> bool
        ensures { result ≡ every (reapplies_of (members self) p) }
    {
        for word in 0..16u8 {
            if !self.reapplies(p, Op::new(word)) {
                return false;
            }
        }
        true
    }

    /// `p` isn't a member, or each member may be applied to `p` and one of its operands.
    #[tactic(auto, unfolding(crate::specs::Closed::reapplies_all))]
    fn reapplies_all(self, p: Op) -> bool
        ensures { result ≡ reapplies_all_of (members self) p }
    {
        !self.contains(p) || self.reapplies_each(p)
    }

    /// Whether re-applications can be left out of a chain: for all members p and q, each of the
    /// operators q(p(a,b), a), q(p(a,b), b), q(a, p(a,b)) and q(b, p(a,b)) is a member, with its
    /// operands exchanged or not; or an operand; or a constant, if constants can be left out; or the
    /// complement of an operand, if there is a negation.
    #[tactic(auto, using(crate::proofs::Every::passing))]
    pub fn reapply_closed(self) -> bool
        ensures { result ≡ reapply_closed_of (members self) }
    {
        for word in 0..16u8 {
            if !self.reapplies_all(Op::new(word)) {
                return false;
            }
        }
        true
    }
}
