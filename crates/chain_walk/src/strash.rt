//! Structural hashing: gates over literals, folded where an operand is a constant, shared where the gate is there, and
//! made of operators of the basis. NONE stands for what the basis can't make.

use crate::choices::Choices;
use crate::operator::{AND, Operator};
use crate::small_net::{Gate, NONE, SmallNet, literal_of};
use std::alloc::AllocError;

/// The literal of a function of one signal, by its values at 0 and 1.
fn unary(at_0: u32, at_1: u32, signal: u32) -> u32 {
    match (at_0, at_1) {
        (0, 0) => 0,
        (0, _) => literal_of(signal, 0),
        (_, 0) => literal_of(signal, 1),
        _ => 1,
    }
}

/// The literal that a gate is, where it depends on at most one signal.
fn folded(gate: Gate) -> u32 {
    let operator = gate.operator;
    if gate.first == 0 {
        return unary(operator.at_00(), operator.at_01(), gate.second);
    }
    if gate.second == 0 {
        return unary(operator.at_00(), operator.at_10(), gate.first);
    }
    if gate.first == gate.second {
        return unary(operator.at_00(), operator.at_11(), gate.first);
    }
    match operator.code() {
        0 => 0,
        3 => literal_of(gate.first, 0),
        5 => literal_of(gate.second, 0),
        10 => literal_of(gate.second, 1),
        12 => literal_of(gate.first, 1),
        15 => 1,
        _ => NONE,
    }
}

/// The operator over signals that an operator over literals is.
fn absorbed(operator: Operator, first: u32, second: u32) -> Operator {
    let mut absorbing = operator;
    if first & 1 == 1 {
        absorbing = absorbing.first_complemented();
    }
    if second & 1 == 1 {
        absorbing = absorbing.second_complemented();
    }
    absorbing
}

/// The gate over signals that an operator over literals is.
pub fn gate_over(operator: Operator, first: u32, second: u32) -> Gate {
    Gate {
        first: first >> 1,
        second: second >> 1,
        operator: absorbed(operator, first, second),
    }
}

/// The literal of a gate, appended unless it is there.
fn shared(net: &mut SmallNet, choices: &Choices, gate: Gate) -> Result<u32, AllocError> {
    let known = net.find(gate, choices.absorbs());
    if known != NONE {
        return Ok(known);
    }
    let signal = net.push(gate)?;
    Ok(literal_of(signal, 0))
}

/// The signal of a signal's complement.
pub fn negated(net: &mut SmallNet, choices: &Choices, signal: u32) -> Result<u32, AllocError> {
    let gate = net.gate(signal);
    let complemented = gate.operator.complemented();
    if net.is_gate(signal) && choices.has(complemented) {
        let other = Gate {
            operator: complemented,
            ..gate
        };
        return Ok(unshared(net, other)? >> 1);
    }
    match choices.negation() {
        Some(operator) => {
            let other = Gate {
                first: signal,
                second: signal,
                operator,
            };
            Ok(unshared(net, other)? >> 1)
        }
        None => Ok(NONE),
    }
}

/// The literal of a gate, appended unless this very gate is there.
fn unshared(net: &mut SmallNet, gate: Gate) -> Result<u32, AllocError> {
    let known = net.find(gate, false);
    if known != NONE {
        return Ok(known);
    }
    let signal = net.push(gate)?;
    Ok(literal_of(signal, 0))
}

/// The literal of a gate whose operator, or its complement, is in the basis; NONE for another operator.
fn direct(net: &mut SmallNet, choices: &Choices, gate: Gate) -> Result<u32, AllocError> {
    if choices.has(gate.operator) {
        return shared(net, choices, gate);
    }
    let complemented = gate.operator.complemented();
    if !choices.has(complemented) {
        return Ok(NONE);
    }
    let other = Gate {
        operator: complemented,
        ..gate
    };
    Ok(shared(net, choices, other)? ^ 1)
}

/// Whether the operator or its complement is in the basis.
fn is_direct(choices: &Choices, operator: Operator) -> bool {
    choices.has(operator) || choices.has(operator.complemented())
}

/// The operand itself, or the signal of its complement.
fn operand(
    net: &mut SmallNet,
    choices: &Choices,
    signal: u32,
    is_complemented: bool,
) -> Result<u32, AllocError> {
    if is_complemented {
        negated(net, choices, signal)
    } else {
        Ok(signal)
    }
}

/// Which operands have to be complemented for the operator to be in the basis: 1 for the first, 2 for the second, 4
/// where it never is.
fn complements_for(choices: &Choices, operator: Operator) -> u32 {
    for complements in 0..4 {
        if is_direct(
            choices,
            absorbed(operator, complements & 1, complements >> 1),
        ) {
            return complements;
        }
    }
    4
}

/// The literal of a gate, with negations where its operator needs them; NONE where the basis can't make it so.
fn with_negations(net: &mut SmallNet, choices: &Choices, gate: Gate) -> Result<u32, AllocError> {
    let complements = complements_for(choices, gate.operator);
    if complements > 3 {
        return Ok(NONE);
    }
    let first = operand(net, choices, gate.first, complements & 1 == 1)?;
    let second = operand(net, choices, gate.second, complements & 2 == 2)?;
    if first == NONE || second == NONE {
        return Ok(NONE);
    }
    let other = Gate {
        first,
        second,
        operator: absorbed(gate.operator, complements & 1, complements >> 1),
    };
    direct(net, choices, other)
}

/// The literal of an operator over literals, without XORs made of other gates.
fn create_without_xor(
    net: &mut SmallNet,
    choices: &Choices,
    operator: Operator,
    first: u32,
    second: u32,
) -> Result<u32, AllocError> {
    if first == NONE || second == NONE {
        return Ok(NONE);
    }
    let gate = gate_over(operator, first, second);
    let literal = folded(gate);
    if literal != NONE {
        return Ok(literal);
    }
    with_negations(net, choices, gate)
}

/// The complement of a literal.
fn complement(literal: u32) -> u32 {
    if literal == NONE { NONE } else { literal ^ 1 }
}

/// XOR of two literals, made of four ANDs and complements.
fn xor_of_ands(
    net: &mut SmallNet,
    choices: &Choices,
    first: u32,
    second: u32,
) -> Result<u32, AllocError> {
    let both = complement(create_without_xor(net, choices, AND, first, second)?);
    let left = complement(create_without_xor(net, choices, AND, first, both)?);
    let right = complement(create_without_xor(net, choices, AND, second, both)?);
    Ok(complement(create_without_xor(net, choices, AND, left, right)?))
}

/// The literal of an operator over literals.
pub fn create_gate(
    net: &mut SmallNet,
    choices: &Choices,
    operator: Operator,
    first: u32,
    second: u32,
) -> Result<u32, AllocError> {
    let made = create_without_xor(net, choices, operator, first, second)?;
    if made != NONE || !operator.is_parity() {
        return Ok(made);
    }
    let parity = xor_of_ands(net, choices, first, second)?;
    if operator.at_00() == 1 {
        return Ok(complement(parity));
    }
    Ok(parity)
}

/// The literal itself where it is no complement, else that of a signal of its own.
pub fn uncomplemented(
    net: &mut SmallNet,
    choices: &Choices,
    literal: u32,
) -> Result<u32, AllocError> {
    if literal <= 1 || literal & 1 == 0 || literal == NONE {
        return Ok(literal);
    }
    let signal = negated(net, choices, literal >> 1)?;
    if signal == NONE {
        return Ok(NONE);
    }
    Ok(literal_of(signal, 0))
}
