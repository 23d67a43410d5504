//! The settings of the enumeration: the basis, which prunings it permits, and whether the first solution ends it.
ghost use Rattle.std.specs.Prelude.{◌≡◌};
ghost use Rattle.op_basis.specs.Basis.{members};
ghost use Rattle.op_basis.specs.Closed.{swap_closed, polarity_closed, const_closed};

use op_basis::{Basis, Op};
use std::marker::Model;

/// The basis with the results of its tests, each computed once, and `whole`: whether the first solution ends
/// the enumeration. Contracts see the basis and `whole`.
#[derive(Drop)]
pub struct Rules {
    basis: Basis,
    whole: bool,
    orders_operands: bool,
    normal: bool,
    constants: bool,
}

impl Model for Rules {
    ghost use Rattle.step_core.specs.Rules.{AreRules, RulesView};

    ghost Value = { RulesView };

    ghost view = { λ rules. record { basis = rules.basis; whole = rules.whole } };

    ghost invariant = { λ rules. AreRules rules.basis rules.orders_operands rules.normal rules.constants };
}

impl Rules {
    /// The rules for a basis. If `whole` is false, the enumeration may skip solutions.
    pub fn new(basis: Basis, whole: bool) -> Rules
        ensures { result ≡ record { basis = basis; whole = whole } }
    {
        let orders_operands = basis.swap_closed();
        let normal = basis.polarity_closed();
        let constants = basis.const_closed();
        Rules {
            basis,
            whole,
            orders_operands,
            normal,
            constants,
        }
    }

    /// Whether the first solution ends the enumeration, so that none is skipped.
    pub fn whole(&self) -> bool
        ensures { result ≡ self.now.whole }
    {
        self.whole
    }

    /// Whether an operator is a member of the basis.
    pub fn contains(&self, op: Op) -> bool
        ensures { result ≡ members self.now.basis op }
    {
        self.basis.contains(op)
    }

    /// Whether the first operand may be assumed to be the smaller one: the basis is closed under exchanged
    /// operands.
    pub fn orders_operands(&self) -> bool
        ensures { result ≡ swap_closed (members self.now.basis) }
    {
        self.orders_operands
    }

    /// Whether steps may be assumed to be normal (0 on row 0): the basis is closed under complements.
    pub fn normal(&self) -> bool
        ensures { result ≡ polarity_closed (members self.now.basis) }
    {
        self.normal
    }

    /// Whether constant steps can be left out: some member negates equal operands, or no member becomes a
    /// negation when one operand is a constant.
    pub fn constants(&self) -> bool
        ensures { result ≡ const_closed (members self.now.basis) }
    {
        self.constants
    }
}
