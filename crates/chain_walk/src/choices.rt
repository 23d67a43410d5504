//! The operators of a basis as a search asks for them: which of them have given values, which may be the outer one of
//! two gates, and whether complements of signals cost nothing.

use crate::operator::Operator;
use rows::{Random, at};
use std::alloc::{AllocError, Global};

/// The operators of a basis. A gate's operands have no order here, so an operator counts as a member if it is one with
/// its operands exchanged.
#[derive(Drop)]
pub struct Choices {
    members: u32,
    set: u32,
    absorbs: bool,
    negation: Option<Operator>,
    fitting: Vec<u32>,
    outers: Vec<Operator>,
}

/// Whether bit `code` of the set is 1.
fn is_in(set: u32, code: u32) -> bool {
    set.wrapping_shr(code & 15) & 1 == 1
}

/// The set with bit `code`.
fn with(set: u32, code: u32) -> u32 {
    set | 1u32.wrapping_shl(code & 15)
}

/// The members, and the members with their operands exchanged.
fn both_orders(set: u32) -> u32 {
    let mut both = 0;
    for code in 0..16 {
        if is_in(set, code) {
            both = with(with(both, code), Operator::new(code).swapped().code());
        }
    }
    both
}

/// Whether the set has an operator also with its value, and each operand, complemented.
fn keeps_complements(set: u32, operator: Operator) -> bool {
    is_in(set, operator.complemented().code())
        && is_in(set, operator.first_complemented().code())
        && is_in(set, operator.second_complemented().code())
}

/// Whether the set has each operator that depends on both operands also with complements.
fn absorbs_complements(set: u32) -> bool {
    for code in 0..16 {
        let operator = Operator::new(code);
        if is_in(set, code) && !operator.is_degenerate() && !keeps_complements(set, operator) {
            return false;
        }
    }
    true
}

/// The first operator of the set that is a negation on equal operands.
fn negation_of(set: u32) -> Option<Operator> {
    for code in 0..16 {
        if is_in(set, code) && Operator::new(code).is_negation() {
            return Some(Operator::new(code));
        }
    }
    None
}

/// The operators that a search may use. Where complements cost nothing, those that depend on one operand are left out.
fn usable(set: u32, absorbs: bool) -> u32 {
    let mut kept = 0;
    for code in 0..16 {
        if is_in(set, code) && !(absorbs && Operator::new(code).is_degenerate()) {
            kept = with(kept, code);
        }
    }
    kept
}

/// The operators of the set that have the value 1 at the places of `ones` and 0 at those of `zeros`.
fn fitting_of(set: u32, ones: u32, zeros: u32) -> u32 {
    let mut fitting = 0;
    for code in 0..16u32 {
        if is_in(set, code) && code & ones == ones && code & zeros == 0 {
            fitting = with(fitting, code);
        }
    }
    fitting
}

/// The operators that fit, for each pair of ones and zeros.
fn all_fitting(alloc: Global, set: u32) -> Result<Vec<u32>, AllocError> {
    let mut fitting = Vec::with_capacity(alloc, 256)?;
    for demand in 0..256u32 {
        fitting.push(fitting_of(set, demand >> 4, demand & 15))?;
    }
    Ok(fitting)
}

/// The operators for the outer of two gates. Where complements cost nothing, the inner gate's is free, and one of two
/// operators that differ by it is enough.
fn outers_of(alloc: Global, set: u32, absorbs: bool) -> Result<Vec<Operator>, AllocError> {
    let mut outers = Vec::with_capacity(alloc, 16)?;
    for code in 0..16 {
        let operator = Operator::new(code);
        let other = operator.second_complemented().code();
        if is_in(set, code) && !operator.is_degenerate() && !(absorbs && other < code) {
            outers.push(operator)?;
        }
    }
    Ok(outers)
}

impl Choices {
    /// The operators of a basis: operator k is a member where bit k of `basis` is 1.
    pub fn new(alloc: Global, basis: u16) -> Result<Choices, AllocError> {
        let set = u32::from(basis);
        let both = both_orders(set);
        let absorbs = absorbs_complements(both);
        let members = usable(both, absorbs);
        let fitting = all_fitting(alloc, members)?;
        let outers = outers_of(alloc, members, absorbs)?;
        Ok(Choices {
            members,
            set,
            absorbs,
            negation: negation_of(both),
            fitting,
            outers,
        })
    }

    /// Whether complements of signals cost nothing, since the operators that read and make them absorb them.
    pub fn absorbs(&self) -> bool {
        self.absorbs
    }

    /// Whether a gate may have the operator, with its operands in some order.
    pub fn has(&self, operator: Operator) -> bool {
        is_in(self.members, operator.code())
    }

    /// Whether the operator is a member with its operands in this order.
    pub fn has_in_order(&self, operator: Operator) -> bool {
        is_in(self.set, operator.code())
    }

    /// The operator by which a gate is a negation, if there is one.
    pub fn negation(&self) -> Option<Operator> {
        self.negation
    }

    /// The operators that have the value 1 at the places of `ones` and 0 at those of `zeros`, as a set of codes.
    pub fn fitting(&self, ones: u32, zeros: u32) -> u32 {
        at(&self.fitting, (ones & 15).wrapping_mul(16) | (zeros & 15))
    }

    /// The operators for the outer of two gates.
    pub fn outers(&self) -> &[Operator] {
        &self.outers
    }
}

/// A random operator of a set of codes; operator 0 of an empty set.
pub fn random_operator(set: u32, random: &mut Random) -> Operator {
    let mut left = random.below(set.count_ones());
    for code in 0..16 {
        if is_in(set, code) {
            if left == 0 {
                return Operator::new(code);
            }
            left = left.saturating_sub(1);
        }
    }
    Operator::new(0)
}
