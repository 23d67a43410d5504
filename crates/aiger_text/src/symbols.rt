//! Symbols: the names of inputs, latches and outputs.

ghost use Rattle.std.specs.Prelude.{◌≡◌};
ghost use Rattle.text_core.specs.Items.{items_of};
ghost use Rattle.aiger_text.specs.Reading.{Gives};
ghost use Rattle.aiger_text.specs.Statements as spec;

use crate::file::{Counts, PortKind, Symbol};
use crate::header::number_in;
use net_core::{Name, NetError};
use net_document::{is_long_word, is_name};
use std::alloc::Global;
use text_core::{MOST_NUMBER, next_item};

/// What a symbol names, by its first byte.
#[tactic(auto, unfolding(crate::specs::Statements::kind_of))]
fn kind_of(byte: u8) -> Option<PortKind>
    ensures { result ≡ spec.kind_of byte }
{
    match byte {
        b'i' => Some(PortKind::Input),
        b'l' => Some(PortKind::Latch),
        b'o' => Some(PortKind::Output),
        _ => None,
    }
}

/// How many of a kind there are.
fn count_of(counts: Counts, kind: PortKind) -> u32
    ensures { result ≡ spec.count_of counts kind }
{
    match kind {
        PortKind::Input => counts.inputs,
        PortKind::Latch => counts.latches,
        PortKind::Output => counts.outputs,
    }
}

/// Whether a text begins with `&`, as the names of gates do.
fn is_reserved(text: &[u8]) -> bool
    ensures { result ≡ spec.is_reserved text.now }
{
    match text.split_first() {
        Some((byte, _)) => *byte == b'&',
        None => false,
    }
}

/// A name, which isn't reserved.
#[tactic(auto, unfolding(crate::specs::Statements::name_in))]
fn name_in(alloc: Global, line: u32, word: &[u8]) -> Result<Name, NetError>
    ensures { Gives (λ n. n) result (spec.name_in line word.now) }
{
    if is_long_word(word) {
        return Err(NetError::NameTooLong(line));
    }
    if !is_name(word) {
        return Err(NetError::Syntax(line));
    }
    let name = Name::of(alloc, word)?;
    if is_reserved(word) {
        return Err(NetError::NotSupported(line, name));
    }
    Ok(name)
}

/// The symbol with the key `key`, as `i0`, and the name `word`.
#[tactic(auto, unfolding(crate::specs::Statements::symbol_at))]
fn symbol_at(
    alloc: Global,
    line: u32,
    counts: Counts,
    key: &[u8],
    word: &[u8],
) -> Result<Symbol, NetError>
    ensures { Gives (λ s. s) result (spec.symbol_at line counts key.now word.now) }
{
    let Some((byte, digits)) = key.split_first() else {
        return Err(NetError::Syntax(line));
    };
    let Some(kind) = kind_of(*byte) else {
        return Err(NetError::Syntax(line));
    };
    let position = number_in(line, MOST_NUMBER, digits)?;
    if position >= count_of(counts, kind) {
        return Err(NetError::Syntax(line));
    }
    let name = name_in(alloc, line, word)?;
    Ok(Symbol {
        kind,
        position,
        name,
    })
}

/// The symbol of a line.
#[tactic(auto, unfolding(crate::specs::Statements::symbol_of))]
pub fn symbol_of(alloc: Global, line: u32, counts: Counts, text: &[u8]) -> Result<Symbol, NetError>
    ensures { Gives (λ s. s) result (spec.symbol_of line counts (items_of text.now)) }
{
    let (key, Some(rest)) = next_item(text) else {
        return Err(NetError::Syntax(line));
    };
    let (word, _) = next_item(rest);
    symbol_at(alloc, line, counts, key, word)
}
