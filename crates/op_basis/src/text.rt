//! Bases as texts: a name, or the words of the operators with commas between them. A list is read
//! item by item from its bytes. The loop invariant is that the set so far, followed by the items that
//! are left, gives the definition's result for the whole list.
ghost use Rattle.std.specs.Prelude.{◌≡◌, ◌+◌, ◌<◌, ℕ, List, ◌∷◌, ◌++◌, length, OnOk, OnErr, IfOk};
ghost use Rattle.std.specs.Option.{option_map};
ghost use Rattle.std.specs.Borrow.{Bor};
ghost use Rattle.op_basis.specs.Left.{items_left, size_left};
ghost use Rattle.op_basis.specs.Text as spec;
ghost use Rattle.op_basis.specs.Word.{word_text};

use crate::{Basis, BasisError, Op, read_operator, write_operator};
use std::alloc::AllocError;

/// All sixteen operators.
const ALL: u16 = 0b1111_1111_1111_1111;

/// The operators that depend on both operands, except XOR and its complement (the basis U2 of Zwick).
const U2: u16 = 0b0110_1001_1001_0110;

/// AND, OR, XOR and their complements, the gates of the BENCH format: a bit for each operator.
pub const BENCH: u16 = 0b0100_0011_1100_0010;

/// NAND alone.
const NAND: u16 = 0b0100_0000_0000_0000;

/// `word == name` of two slices, as a function of its own for the prover.
fn is_word(word: &[u8], name: &[u8]) -> bool
    ensures { result ≡ spec.same_text word.now name.now }
{
    word == name
}

/// The basis of a name.
#[tactic(auto, unfolding(crate::specs::Text::named))]
fn named(word: &[u8]) -> Result<Basis, BasisError>
    ensures { result ≡ spec.named word.now }
{
    if is_word(word, b"all") {
        return Ok(Basis::new(ALL));
    }
    if is_word(word, b"u2") {
        return Ok(Basis::new(U2));
    }
    if is_word(word, b"bench") {
        return Ok(Basis::new(BENCH));
    }
    if is_word(word, b"nand") {
        return Ok(Basis::new(NAND));
    }
    Err(BasisError::UnknownName)
}

/// The first item of a list, and the rest after its comma; None where no comma follows.
#[tactic(auto, using(crate::proofs::Items::cutting))]
fn next_item(text: &[u8]) -> (&[u8], Option<&[u8]>)
    ensures items { spec.items_of text.now ≡ result.0.now ∷ items_left result.1 }
    ensures shorter { size_left result.1 < length text.now + 1 }
{
    let mut at = 0;
    let mut left = text;
    while let Some((byte, rest)) = left.split_first() {
        if *byte == b',' {
            let (item, _) = text.split_at(at);
            return (item, Some(rest));
        }
        at += 1;
        left = rest;
    }
    (text, None)
}

/// The set with the operator of one more item.
#[tactic(auto, unfolding(crate::specs::Text::with_item), using(crate::proofs::Items::shifting))]
fn with_item(set: Basis, item: &[u8]) -> Result<Basis, BasisError>
    ensures { result ≡ spec.with_item set item.now }
{
    if item.is_empty() {
        return Err(BasisError::Empty);
    }
    let Some(op) = read_operator(item) else {
        return Err(BasisError::BadOperator);
    };
    if set.contains(op) {
        return Err(BasisError::Repeated);
    }
    Ok(Basis::new(set.get() | 1 << op.get()))
}

/// The set of the operators of a list.
#[tactic(auto, unfolding(crate::specs::Text::listed))]
fn listed(word: &[u8]) -> Result<Basis, BasisError>
    ensures { result ≡ spec.listed 0 (spec.items_of word.now) }
{
    let mut set = Basis::new(0);
    let mut left = Some(word);
    while let Some(text) = left {
        let (item, rest) = next_item(text);
        set = with_item(set, item)?;
        left = rest;
    }
    Ok(set)
}

/// Reads a basis: one of the names `all`, `u2` (the operators that depend on both operands, except XOR
/// and its complement), `bench` (AND, OR, XOR and their complements) and `nand`, or a list of
/// operators in any order, each a word of four bits, with commas between them.
///
/// If the first character is a letter of either case, the text is a name: one of the four above, in
/// lower case, or `UnknownName`. Any other text, the empty one too, is a list. Its items are checked
/// from the left, and the first error is returned; of one item, `Empty` comes before `BadOperator` and
/// that before `Repeated`.
pub fn read_basis(word: &[u8]) -> Result<Basis, BasisError>
    ensures exact { result ≡ spec.basis_of word.now }
    ensures some { IfOk result (λ basis. 0 < basis) }
{
    match word.first() {
        Some(byte) if byte.is_ascii_alphabetic() => named(word),
        _ => listed(word),
    }
}

/// The name of a basis, where it has one.
#[tactic(auto, unfolding(crate::specs::Text::name_of))]
fn name_of(set: Basis) -> Option<&'static [u8]>
    ensures { option_map (λ (x : Bor (List ℕ)). x.now) result ≡ spec.name_of set }
{
    match set.get() {
        ALL => Some(b"all"),
        U2 => Some(b"u2"),
        BENCH => Some(b"bench"),
        NAND => Some(b"nand"),
        _ => None,
    }
}

/// Appends the word of an operator, after a comma unless the text is empty.
fn push_word(text: &mut Vec<u8>, op: Op) -> Result<(), AllocError>
    ensures { OnOk result (text.new.items ≡ spec.with_word text.old.items (word_text op)) }
{
    if !text.is_empty() {
        text.push(b',')?;
    }
    write_operator(op, text)
}

/// Appends the words of the members to an empty text, in increasing order with commas between them.
#[tactic(auto, using(crate::proofs::Items::listing))]
fn push_words(text: &mut Vec<u8>, set: Basis) -> Result<(), AllocError>
    requires { length text.old.items ≡ 0 }
    ensures { OnOk result (text.new.items ≡ spec.list_below set 16) }
{
    for word in 0..16u8 {
        if set.contains(Op::new(word)) {
            push_word(text, Op::new(word))?;
        }
    }
    Ok(())
}

/// Appends the one spelling of a basis that isn't empty: its name where it has one, else the words of
/// its members in increasing order with commas between them. An error means that memory ran out; then
/// nothing is appended.
pub fn write_basis(basis: Basis, out: &mut Vec<u8>) -> Result<(), AllocError>
    requires { 0 < basis }
    ensures text { OnOk result (out.new.items ≡ out.old.items ++ spec.basis_text basis) }
    ensures unchanged { OnErr result (out.new.items ≡ out.old.items) }
{
    if let Some(name) = name_of(basis) {
        return out.extend_from_slice(name);
    }
    let alloc = *out.allocator();
    let mut text = Vec::new(alloc);
    push_words(&mut text, basis)?;
    out.extend_from_slice(&text)
}
