//! Operands in parentheses.

ghost use Rattle.std.specs.Prelude.{◌≡◌, ◌<◌, ◌≤◌, true, Some, None, [], length, if◌then◌else◌, IfOk, IfSome};
ghost use Rattle.std.specs.List.{list_all};
ghost use Rattle.net_theory.specs.Document.{is_name as is_name_of};
ghost use Rattle.blif_text.specs.Reading.{Gives};
ghost use Rattle.bench_text.specs.Items.{items_of};
ghost use Rattle.bench_text.specs.Statements.{operands_of as operands_of_items, operands_from};
ghost use Rattle.bench_text.specs.Statements.{names_of as names_of_items, port_of as port_of_items};
ghost use Rattle.bench_text.specs.Statements.{alone as alone_of};
ghost use Rattle.std.specs.Option.{option_map};
ghost use Rattle.net_theory.specs.Limits.{most_table_inputs};

use crate::items::{is_item, is_mark_item, next_item};
use net_document::{Name, NetError, is_name};
use net_theory::MOST_TABLE_INPUTS;
use std::alloc::{AllocError, Global};

/// Adds the words up to the closing parenthesis to `names`, and returns whether they are separated by commas and
/// the parenthesis ends the text.
#[tactic(auto, unfolding(crate::specs::Statements::operands_from))]
fn add_operands(alloc: Global, names: &mut Vec<Name>, text: &[u8]) -> Result<bool, AllocError>
    ensures operands { IfOk result (λ closed. (if closed then Some names.new.items else None) ≡
        operands_from names.old.items (items_of text.now)) }
    ensures some { IfOk result (λ closed. closed ≡ true → 0 < length names.new.items) }
{
    let mut left = text;
    while let Some((word, rest)) = next_item(left) {
        let Some((mark, rest)) = next_item(rest) else {
            return Ok(false);
        };
        if is_mark_item(word) {
            return Ok(false);
        }
        names.push(Name::of(alloc, word)?)?;
        if is_item(mark, b')') {
            if next_item(rest).is_some() {
                return Ok(false);
            }
            return Ok(true);
        }
        if is_item(mark, b',') {
            left = rest;
            continue;
        }
        return Ok(false);
    }
    Ok(false)
}

/// The words up to the closing parenthesis, which must end the text; None if they aren't separated by commas.
fn closed_operands(alloc: Global, text: &[u8]) -> Result<Option<Vec<Name>>, AllocError>
    ensures operands { IfOk result (λ found. option_map (λ names. names.items) found ≡
        operands_from [] (items_of text.now)) }
    ensures some { IfOk result (λ found. IfSome found (λ names. 0 < length names.items)) }
{
    let mut names = Vec::new(alloc);
    if add_operands(alloc, &mut names, text)? {
        Ok(Some(names))
    } else {
        Ok(None)
    }
}

/// The words in parentheses.
#[tactic(auto, unfolding(crate::specs::Statements::operands_of))]
fn operands_of(alloc: Global, text: &[u8]) -> Result<Option<Vec<Name>>, AllocError>
    ensures operands { IfOk result (λ found. option_map (λ names. names.items) found ≡
        operands_of_items (items_of text.now)) }
    ensures some { IfOk result (λ found. IfSome found (λ names. 0 < length names.items)) }
{
    let Some((mark, rest)) = next_item(text) else {
        return Ok(None);
    };
    if !is_item(mark, b'(') {
        return Ok(None);
    }
    closed_operands(alloc, rest)
}

/// Whether all are names.
fn are_names(names: &[Name]) -> bool
    ensures { result ≡ list_all is_name_of names.now }
{
    names.iter().all(|name| is_name(name.get()))
}

/// The names in parentheses, at most `MOST_TABLE_INPUTS`.
#[tactic(auto, unfolding(crate::specs::Statements::names_of))]
pub fn names_of(alloc: Global, line: u32, text: &[u8]) -> Result<Vec<Name>, NetError>
    ensures names { Gives (λ names. names.items) result (names_of_items line (items_of text.now)) }
    ensures some { IfOk result (λ names. 0 < length names.items) }
    ensures few { IfOk result (λ names. length names.items ≤ most_table_inputs) }
{
    let Some(names) = operands_of(alloc, text)? else {
        return Err(NetError::Syntax(line));
    };
    if names.len() > MOST_TABLE_INPUTS {
        return Err(NetError::TooWide(line));
    }
    if !are_names(&names) {
        return Err(NetError::Syntax(line));
    }
    Ok(names)
}

/// The only name of `names`; an error if there are others.
pub fn alone(line: u32, names: Vec<Name>) -> Result<Name, NetError>
    ensures { Gives (λ n. n) result (alone_of line names.items) }
{
    let mut left = names;
    let Some(name) = left.pop() else {
        return Err(NetError::Syntax(line));
    };
    if left.is_empty() {
        Ok(name)
    } else {
        Err(NetError::Syntax(line))
    }
}

/// The only name in parentheses.
#[tactic(auto, unfolding(crate::specs::Statements::port_of))]
pub fn port_of(alloc: Global, line: u32, text: &[u8]) -> Result<Name, NetError>
    ensures { Gives (λ n. n) result (port_of_items line (items_of text.now)) }
{
    let Some(names) = operands_of(alloc, text)? else {
        return Err(NetError::Syntax(line));
    };
    let name = alone(line, names)?;
    if !is_name(name.get()) {
        return Err(NetError::Syntax(line));
    }
    Ok(name)
}
