//! Writing tables of at most two inputs as gates.

ghost use Rattle.std.specs.Prelude.{◌≡◌, ◌++◌, OnOk};
ghost use Rattle.std.specs.Option.{option_copied};
ghost use Rattle.net_theory.specs.Expansion.{binary_word as binary_word_of};
ghost use Rattle.net_core.specs.Wholes.{cover_of, IsBody};
ghost use Rattle.bench_core.specs.Gates.{key_by, constant_line, unary_line, binary_key as binary_key_of};
ghost use Rattle.bench_core.specs.Spelling.{key_text as key_text_of, gate_text, table_text, IsSmallTable};

use bench_text::GateKey;
use net_core::{Body, Connective, body_value};
use net_document::Table;
use std::alloc::AllocError;

/// The key of a gate.
fn key(connective: Connective, on: bool, is_single: bool) -> GateKey
    ensures { result ≡ key_by connective on is_single }
{
    GateKey {
        connective,
        on,
        is_single,
    }
}

/// The keyword of a key.
fn key_text(key: GateKey) -> &'static [u8]
    ensures { result.now ≡ key_text_of key }
{
    match (key.connective, key.on, key.is_single) {
        (Connective::And, true, true) => b"BUFF",
        (Connective::And, false, true) => b"NOT",
        (Connective::And, true, false) => b"AND",
        (Connective::And, false, false) => b"NAND",
        (Connective::Or, true, _) => b"OR",
        (Connective::Or, false, _) => b"NOR",
        (Connective::Xor, true, _) => b"XOR",
        (Connective::Xor, false, _) => b"XNOR",
    }
}

/// Adds the line of a gate.
#[tactic(auto, unfolding(crate::specs::Spelling::gate_text))]
fn push_gate(
    text: &mut Vec<u8>,
    output: &[u8],
    key: GateKey,
    first: &[u8],
    second: Option<&[u8]>,
) -> Result<(), AllocError>
    ensures { OnOk result (text.new.items ≡ text.old.items ++
        gate_text (record { output = output.now; key = key; first = first.now; second = option_copied second.entry })) }
{
    text.extend_from_slice(output)?;
    text.extend_from_slice(b" = ")?;
    text.extend_from_slice(key_text(key))?;
    text.extend_from_slice(b"(")?;
    text.extend_from_slice(first)?;
    if let Some(second) = second {
        text.extend_from_slice(b", ")?;
        text.extend_from_slice(second)?;
    }
    text.extend_from_slice(b")\n")?;
    Ok(())
}

/// Adds a constant, as XOR or XNOR of `name` with itself.
fn push_constant(
    text: &mut Vec<u8>,
    output: &[u8],
    name: &[u8],
    bit: bool,
) -> Result<(), AllocError>
    ensures { OnOk result (text.new.items ≡ text.old.items ++ gate_text (constant_line output.now name.now bit)) }
{
    push_gate(
        text,
        output,
        key(Connective::Xor, !bit, false),
        name,
        Some(name),
    )
}

/// Adds a function of one input, by its values at 0 and 1.
fn push_unary(
    text: &mut Vec<u8>,
    output: &[u8],
    name: &[u8],
    at_zero: bool,
    at_one: bool,
) -> Result<(), AllocError>
    ensures { OnOk result (text.new.items ≡ text.old.items ++
        gate_text (unary_line output.now name.now at_zero at_one)) }
{
    match (at_zero, at_one) {
        (false, false) => push_constant(text, output, name, false),
        (true, true) => push_constant(text, output, name, true),
        (false, true) => push_gate(text, output, key(Connective::And, true, true), name, None),
        (true, false) => push_gate(text, output, key(Connective::And, false, true), name, None),
    }
}

/// The key of a gate of two operands, by the truth table `word`.
#[tactic(auto, unfolding(crate::specs::Gates::binary_key))]
fn binary_key(word: u8) -> GateKey
    ensures { result ≡ binary_key_of word }
{
    match word {
        1 => key(Connective::And, true, false),
        14 => key(Connective::And, false, false),
        7 => key(Connective::Or, true, false),
        8 => key(Connective::Or, false, false),
        6 => key(Connective::Xor, true, false),
        _ => key(Connective::Xor, false, false),
    }
}

/// The truth table of two inputs: the values at (0,0), (0,1), (1,0) and (1,1).
fn binary_word(body: &Body) -> u8
    requires body { IsBody body.now }
    requires width { (cover_of body.now).width ≡ 2 }
    ensures { result ≡ binary_word_of (cover_of body.now) }
{
    let first = u8::from(body_value(body, &[false, false]));
    let second = u8::from(body_value(body, &[false, true]));
    let third = u8::from(body_value(body, &[true, false]));
    let fourth = u8::from(body_value(body, &[true, true]));
    8 * first + 4 * second + 2 * third + fourth
}

/// Adds a table of at most two inputs as a gate; a constant is written over the name `source`.
#[tactic(auto, unfolding(crate::specs::Gates::line_of))]
pub fn push_table(text: &mut Vec<u8>, source: &[u8], table: &Table) -> Result<(), AllocError>
    requires { IsSmallTable table.now }
    ensures { OnOk result (text.new.items ≡ text.old.items ++ table_text source.now table.now) }
{
    let output = table.output.get();
    let body = &table.body;
    match table.inputs.as_slice() {
        [] => push_constant(text, output, source, body_value(body, &[])),
        [name] => {
            let at_zero = body_value(body, &[false]);
            let at_one = body_value(body, &[true]);
            push_unary(text, output, name.get(), at_zero, at_one)
        }
        [first, second] => {
            let key = binary_key(binary_word(body));
            push_gate(text, output, key, first.get(), Some(second.get()))
        }
        _ => unreachable!(),
    }
}
