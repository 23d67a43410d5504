//! Keywords, which are case-insensitive.

ghost use Rattle.std.specs.Prelude.{◌≡◌};
ghost use Rattle.bench_text.specs.Statements.{gate_key, lower as lower_of, is_key as is_key_of};
ghost use Rattle.bench_text.specs.Statements.{gate_key_of as gate_key_of_word, keyword_of as keyword_of_word};

use net_core::Connective;

/// The function of a gate: AND, OR or XOR of its operands, or the complement if `on` is false. With `is_single`
/// it has exactly one operand.
#[derive(Clone, Copy)]
pub struct GateKey {
    pub connective: Connective,
    pub on: bool,
    pub is_single: bool,
}

/// The keyword of a word.
#[derive(Clone, Copy)]
pub enum BenchKeyword {
    /// `INPUT`
    Input,
    /// `OUTPUT`
    Output,
    /// A gate.
    Gate(GateKey),
    /// `DFF`: a latch.
    Dff,
    /// `LUT`, which isn't supported.
    Lut,
    /// `vdd` or `gnd`, which aren't supported.
    Constant,
    /// Any other word.
    Unknown,
}

/// An upper-case letter in lower case; other bytes stay.
fn lower(byte: u8) -> u8
    ensures { result ≡ lower_of byte }
{
    if byte >= b'A' && byte <= b'Z' {
        byte + 32
    } else {
        byte
    }
}

/// Whether `word` is `key`, ignoring case; `key` is in lower case.
#[tactic(auto, unfolding(crate::specs::Statements::is_key))]
fn is_key(word: &[u8], key: &[u8]) -> bool
    ensures { result ≡ is_key_of word.now key.now }
{
    let mut left = word;
    let mut wanted = key;
    while let Some((byte, rest)) = left.split_first() {
        let Some((first, others)) = wanted.split_first() else {
            return false;
        };
        if lower(*byte) != *first {
            return false;
        }
        left = rest;
        wanted = others;
    }
    wanted.is_empty()
}

/// The keyword of a gate.
fn gate(connective: Connective, on: bool, is_single: bool) -> BenchKeyword
    ensures { result ≡ gate_key connective on is_single }
{
    BenchKeyword::Gate(GateKey {
        connective,
        on,
        is_single,
    })
}

/// The keyword of a word that names a gate.
#[tactic(auto, unfolding(crate::specs::Statements::gate_key_of))]
fn gate_key_of(word: &[u8]) -> BenchKeyword
    ensures { result ≡ gate_key_of_word word.now }
{
    if is_key(word, b"and") {
        gate(Connective::And, true, false)
    } else if is_key(word, b"nand") {
        gate(Connective::And, false, false)
    } else if is_key(word, b"or") {
        gate(Connective::Or, true, false)
    } else if is_key(word, b"nor") {
        gate(Connective::Or, false, false)
    } else if is_key(word, b"xor") {
        gate(Connective::Xor, true, false)
    } else if is_key(word, b"xnor") {
        gate(Connective::Xor, false, false)
    } else if is_key(word, b"not") {
        gate(Connective::And, false, true)
    } else if is_key(word, b"buff") || is_key(word, b"buf") {
        gate(Connective::And, true, true)
    } else {
        BenchKeyword::Unknown
    }
}

/// The keyword of a word.
#[tactic(auto, unfolding(crate::specs::Statements::keyword_of))]
pub fn keyword_of(word: &[u8]) -> BenchKeyword
    ensures { result ≡ keyword_of_word word.now }
{
    if is_key(word, b"input") {
        BenchKeyword::Input
    } else if is_key(word, b"output") {
        BenchKeyword::Output
    } else if is_key(word, b"dff") {
        BenchKeyword::Dff
    } else if is_key(word, b"lut") {
        BenchKeyword::Lut
    } else if is_key(word, b"vdd") || is_key(word, b"gnd") {
        BenchKeyword::Constant
    } else {
        gate_key_of(word)
    }
}
