//! Lines, one function for each kind. Each updates the document so far as defined, and leaves it unchanged if the
//! line is refused.

ghost use Rattle.std.specs.Prelude.{◌≡◌, ℕ, ◌<◌, ◌≤◌, List, [], ◌∷◌, ◌++◌, length, OnOk};
ghost use Rattle.blif_text.specs.Reading.{Gives};
ghost use Rattle.bench_text.specs.Items.{items_of};
ghost use Rattle.bench_text.specs.Statements.{is_counted as is_counted_of, table_of as table_of_names};
ghost use Rattle.bench_text.specs.Statements.{latch_of as latch_of_names};
ghost use Rattle.bench_text.specs.Statements.{ported, driven, driven_by, keyword_of as keyword_of_word, stated, step};
ghost use Rattle.bench_text.specs.Statements.{with_table, with_latch};
ghost use Rattle.bench_text.specs.declared.keywords.BenchKeyword.TheVariants.{Input, Output, Gate, Dff};
ghost use Rattle.net_theory.specs.Limits.{most_table_inputs};

use crate::items::{has_long, is_item, is_mark_item, next_item};
use crate::keywords::{BenchKeyword, GateKey, keyword_of};
use crate::operands::{alone, names_of, port_of};
use net_core::Whole;
use net_document::{
    Body, Latch, LatchLine, Listed, Name, NetError, Table, add_copies, content_of, is_long_line,
    is_name,
};
use std::alloc::{AllocError, Global};

/// `INPUT(a)`
#[tactic(auto, unfolding(crate::specs::Statements::ported))]
fn take_input(alloc: Global, line: u32, listed: &mut Listed, text: &[u8]) -> Result<(), NetError>
    ensures { Gives (λ _. listed.new) result (ported line listed.old (items_of text.now) Input) }
{
    let name = port_of(alloc, line, text)?;
    listed.driven.push(name.copied()?)?;
    listed.document.inputs.push(name)?;
    Ok(())
}

/// `OUTPUT(a)`
#[tactic(auto, unfolding(crate::specs::Statements::ported))]
fn take_output(alloc: Global, line: u32, listed: &mut Listed, text: &[u8]) -> Result<(), NetError>
    ensures { Gives (λ _. listed.new) result (ported line listed.old (items_of text.now) Output) }
{
    let name = port_of(alloc, line, text)?;
    listed.document.outputs.push(name)?;
    Ok(())
}

/// A line that begins with a word without an `=` after it.
#[tactic(auto, unfolding(crate::specs::Statements::ported))]
fn port(
    alloc: Global,
    line: u32,
    listed: &mut Listed,
    word: &[u8],
    text: &[u8],
) -> Result<(), NetError>
    ensures { Gives (λ _. listed.new) result (ported line listed.old (items_of text.now) (keyword_of_word word.now)) }
{
    match keyword_of(word) {
        BenchKeyword::Input => take_input(alloc, line, listed, text),
        BenchKeyword::Output => take_output(alloc, line, listed, text),
        _ => Err(NetError::Syntax(line)),
    }
}

/// Whether a gate of kind `key` may have as many operands as `inputs`.
fn is_counted(key: GateKey, inputs: &[Name]) -> bool
    ensures { result ≡ is_counted_of key inputs.now }
{
    !key.is_single || inputs.len() == 1
}

/// The table of a gate.
#[tactic(auto, unfolding(crate::specs::Statements::table_of))]
fn table_of(
    alloc: Global,
    line: u32,
    key: GateKey,
    output: &[u8],
    inputs: Vec<Name>,
) -> Result<Table, NetError>
    requires some { 0 < length inputs.items }
    requires few { length inputs.items ≤ most_table_inputs }
    ensures { Gives (λ t. t) result (table_of_names line key output.now inputs.items) }
{
    if !is_name(output) || !is_counted(key, &inputs) {
        return Err(NetError::Syntax(line));
    }
    let whole = Whole {
        connective: key.connective,
        width: inputs.len() as u32,
        on: key.on,
    };
    Ok(Table {
        inputs,
        output: Name::of(alloc, output)?,
        body: Body::Joined(whole),
    })
}

/// Adds the names that a table drives and reads.
fn add_names(driven: &mut Vec<Name>, used: &mut Vec<Name>, table: &Table) -> Result<(), AllocError>
    ensures driven { OnOk result (driven.new.items ≡ driven.old.items ++ table.now.output ∷ []) }
    ensures used { OnOk result (used.new.items ≡ used.old.items ++ table.now.inputs) }
{
    driven.push(table.output.copied()?)?;
    add_copies(used, &table.inputs)?;
    Ok(())
}

/// Adds a table to the document.
fn list_table(listed: &mut Listed, table: Table) -> Result<(), AllocError>
    ensures { OnOk result (listed.new ≡ with_table listed.old table) }
{
    add_names(&mut listed.driven, &mut listed.used, &table)?;
    listed.document.tables.push(table)?;
    Ok(())
}

/// A line `output = KEY(..)` of a gate.
#[tactic(auto, unfolding(crate::specs::Statements::driven))]
fn take_gate(
    alloc: Global,
    line: u32,
    listed: &mut Listed,
    output: &[u8],
    key: GateKey,
    text: &[u8],
) -> Result<(), NetError>
    ensures { (word : List ℕ) → Gives (λ _. listed.new) result
        (driven line listed.old output.now word (items_of text.now) (Gate key)) }
{
    let inputs = names_of(alloc, line, text)?;
    let table = table_of(alloc, line, key, output, inputs)?;
    list_table(listed, table)?;
    Ok(())
}

/// The latch of `DFF(a)`.
#[tactic(auto, unfolding(crate::specs::Statements::latch_of))]
fn latch_of(
    alloc: Global,
    line: u32,
    output: &[u8],
    inputs: Vec<Name>,
) -> Result<LatchLine, NetError>
    ensures { Gives (λ l. l) result (latch_of_names line output.now inputs.items) }
{
    let input = alone(line, inputs)?;
    if !is_name(output) {
        return Err(NetError::Syntax(line));
    }
    Ok(LatchLine {
        input,
        latch: Latch {
            output: Name::of(alloc, output)?,
            control: None,
            init: None,
        },
    })
}

/// Adds the names that a latch drives and reads.
fn add_ends(
    driven: &mut Vec<Name>,
    used: &mut Vec<Name>,
    latch: &LatchLine,
) -> Result<(), AllocError>
    ensures driven { OnOk result (driven.new.items ≡ driven.old.items ++ latch.now.latch.output ∷ []) }
    ensures used { OnOk result (used.new.items ≡ used.old.items ++ latch.now.input ∷ []) }
{
    driven.push(latch.latch.output.copied()?)?;
    used.push(latch.input.copied()?)?;
    Ok(())
}

/// Adds a latch to the document.
fn list_latch(listed: &mut Listed, latch: LatchLine) -> Result<(), AllocError>
    ensures { OnOk result (listed.new ≡ with_latch listed.old latch) }
{
    add_ends(&mut listed.driven, &mut listed.used, &latch)?;
    listed.document.latches.push(latch)?;
    Ok(())
}

/// `q = DFF(d)`
#[tactic(auto, unfolding(crate::specs::Statements::driven))]
fn take_latch(
    alloc: Global,
    line: u32,
    listed: &mut Listed,
    output: &[u8],
    text: &[u8],
) -> Result<(), NetError>
    ensures { (word : List ℕ) → Gives (λ _. listed.new) result
        (driven line listed.old output.now word (items_of text.now) Dff) }
{
    let inputs = names_of(alloc, line, text)?;
    let latch = latch_of(alloc, line, output, inputs)?;
    list_latch(listed, latch)?;
    Ok(())
}

/// A line `output = word ..`.
#[tactic(auto, unfolding(crate::specs::Statements::driven))]
fn drive(
    alloc: Global,
    line: u32,
    listed: &mut Listed,
    output: &[u8],
    word: &[u8],
    text: &[u8],
) -> Result<(), NetError>
    ensures { Gives (λ _. listed.new) result (driven line listed.old output.now word.now (items_of text.now)
        (keyword_of_word word.now)) }
{
    match keyword_of(word) {
        BenchKeyword::Gate(key) => take_gate(alloc, line, listed, output, key, text),
        BenchKeyword::Dff => take_latch(alloc, line, listed, output, text),
        BenchKeyword::Lut => Err(NetError::NotSupported(line, Name::of(alloc, word)?)),
        BenchKeyword::Constant => {
            if next_item(text).is_some() {
                return Err(NetError::Syntax(line));
            }
            Err(NetError::NotSupported(line, Name::of(alloc, word)?))
        }
        _ => Err(NetError::Syntax(line)),
    }
}

/// A line `output = ..`.
#[tactic(auto, unfolding(crate::specs::Statements::driven_by))]
fn drive_by(
    alloc: Global,
    line: u32,
    listed: &mut Listed,
    output: &[u8],
    text: &[u8],
) -> Result<(), NetError>
    ensures { Gives (λ _. listed.new) result (driven_by line listed.old output.now (items_of text.now)) }
{
    let Some((word, rest)) = next_item(text) else {
        return Err(NetError::Syntax(line));
    };
    drive(alloc, line, listed, output, word, rest)
}

/// Handles a line, by its items.
#[tactic(auto, unfolding(crate::specs::Statements::stated))]
fn state(alloc: Global, line: u32, listed: &mut Listed, text: &[u8]) -> Result<(), NetError>
    ensures { Gives (λ _. listed.new) result (stated line listed.old (items_of text.now)) }
{
    let Some((word, after)) = next_item(text) else {
        return Ok(());
    };
    let Some((mark, rest)) = next_item(after) else {
        return Err(NetError::Syntax(line));
    };
    if is_mark_item(word) {
        return Err(NetError::Syntax(line));
    }
    if is_item(mark, b'=') {
        drive_by(alloc, line, listed, word, rest)
    } else {
        port(alloc, line, listed, word, after)
    }
}

/// Handles the line with number `line`, without its LF; `ended` tells whether an LF follows it.
#[tactic(auto, unfolding(crate::specs::Statements::step))]
pub fn take_line(
    alloc: Global,
    line: u32,
    listed: &mut Listed,
    text: &[u8],
    ended: bool,
) -> Result<(), NetError>
    ensures { Gives (λ _. listed.new) result (step line listed.old (record { text = text.now; ended = ended })) }
{
    if is_long_line(text.len()) {
        return Err(NetError::LineTooLong(line));
    }
    let said = content_of(text, ended);
    if has_long(said) {
        return Err(NetError::NameTooLong(line));
    }
    state(alloc, line, listed, said)
}
