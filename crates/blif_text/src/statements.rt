//! The statements, one function each. Each updates the parser state as defined for its keyword, and leaves it
//! unchanged if the line is refused.

ghost use Rattle.std.specs.Prelude.{◌≡◌, ◌++◌, length, OnOk, IfOk};
ghost use Rattle.blif_text.specs.Reading.{Gives};
ghost use Rattle.blif_text.specs.Words.{words_of};
ghost use Rattle.blif_text.specs.Statements as say;
ghost use Rattle.blif_text.specs.Statements.{with_model, with_inputs, with_outputs, with_clocks};
ghost use Rattle.blif_text.specs.Statements.{with_table_line, with_latch_line, with_end};
ghost use Rattle.blif_text.specs.Statements.{with_table_names, with_latch_names};
ghost use Rattle.blif_text.specs.Statements.{table_of as table_of_words, prefix_of, last_of, control_at};
ghost use Rattle.blif_text.specs.Statements.{directed, covered, after_end as after_end_of};
ghost use Rattle.blif_text.specs.Statements.{begins_dot as begins_dot_of, stated, step};
ghost use Rattle.blif_text.specs.declared.keywords.BlifKeyword.TheVariants.{Model};

use crate::cover_lines::take_cover_line;
use crate::keywords::{BlifKeyword, keyword_of};
use crate::latches::latch_of;
use crate::logical::LogicalLine;
use crate::reading::{Control, CoverTable, Reading};
use crate::words::{add_words, are_names, count_words, has_long, is_word, next_word};
use net_document::{Cover, LatchLine, Name, NetError, Trigger, add_copies, is_long_line, is_name};
use net_theory::MOST_TABLE_INPUTS;
use std::alloc::{AllocError, Global};

/// The name of the model, which is optional.
#[tactic(auto, unfolding(crate::specs::Statements::with_model))]
fn name_model(alloc: Global, line: u32, reading: &mut Reading, text: &[u8]) -> Result<(), NetError>
    ensures { Gives (λ _. reading.new) result (with_model line reading.old (words_of text.now)) }
{
    let Some((word, rest)) = next_word(text) else {
        reading.has_model = true;
        return Ok(());
    };
    if next_word(rest).is_some() || !is_name(word) {
        return Err(NetError::Syntax(line));
    }
    reading.model = Name::of(alloc, word)?;
    reading.has_model = true;
    Ok(())
}

/// `.model`
#[tactic(auto, unfolding(crate::specs::Statements::directed))]
fn take_model(
    alloc: Global,
    line: u32,
    reading: &mut Reading,
    is_first: bool,
    word: &[u8],
    text: &[u8],
) -> Result<(), NetError>
    ensures { Gives (λ _. reading.new) result (directed line reading.old is_first word.now (words_of text.now) Model) }
{
    if reading.has_model {
        return Err(NetError::NotSupported(line, Name::of(alloc, word)?));
    }
    if !is_first {
        return Err(NetError::Syntax(line));
    }
    name_model(alloc, line, reading, text)
}

/// `.inputs`
fn take_inputs(line: u32, reading: &mut Reading, text: &[u8]) -> Result<(), NetError>
    ensures { Gives (λ _. reading.new) result (with_inputs line reading.old (words_of text.now)) }
{
    if !are_names(text) {
        return Err(NetError::Syntax(line));
    }
    add_words(&mut reading.inputs, text)?;
    add_words(&mut reading.driven, text)?;
    Ok(())
}

/// `.outputs`
fn take_outputs(line: u32, reading: &mut Reading, text: &[u8]) -> Result<(), NetError>
    ensures { Gives (λ _. reading.new) result (with_outputs line reading.old (words_of text.now)) }
{
    if !are_names(text) {
        return Err(NetError::Syntax(line));
    }
    add_words(&mut reading.outputs, text)?;
    Ok(())
}

/// `.clock`
fn take_clocks(line: u32, reading: &mut Reading, text: &[u8]) -> Result<(), NetError>
    ensures { Gives (λ _. reading.new) result (with_clocks line reading.old (words_of text.now)) }
{
    if !are_names(text) {
        return Err(NetError::Syntax(line));
    }
    add_words(&mut reading.clocks, text)?;
    Ok(())
}

/// All words but the last one, and the last one; `first` is the first word, and `text` has the others.
#[tactic(auto, unfolding(crate::specs::Statements::prefix_of, crate::specs::Statements::last_of))]
fn split_last_word(
    alloc: Global,
    first: &[u8],
    text: &[u8],
) -> Result<(Vec<Name>, Name), AllocError>
    ensures prefix { IfOk result (λ x. x.0.items ≡ prefix_of first.now (words_of text.now)) }
    ensures last { IfOk result (λ x. x.1 ≡ last_of first.now (words_of text.now)) }
    ensures count { IfOk result (λ x. length x.0.items ≡ length (words_of text.now)) }
{
    let mut inputs = Vec::new(alloc);
    let mut word = first;
    let mut left = text;
    while let Some((next, rest)) = next_word(left) {
        inputs.push(Name::of(alloc, word)?)?;
        word = next;
        left = rest;
    }
    Ok((inputs, Name::of(alloc, word)?))
}

/// The table of a `.names` statement, before its cover lines.
#[tactic(auto, unfolding(crate::specs::Statements::table_of))]
fn table_of(alloc: Global, line: u32, text: &[u8]) -> Result<CoverTable, NetError>
    ensures { Gives (λ t. t) result (table_of_words line (words_of text.now)) }
{
    let Some((first, rest)) = next_word(text) else {
        return Err(NetError::Syntax(line));
    };
    if count_words(rest) > MOST_TABLE_INPUTS {
        return Err(NetError::TooWide(line));
    }
    if !are_names(text) {
        return Err(NetError::Syntax(line));
    }
    let (inputs, output) = split_last_word(alloc, first, rest)?;
    let cover = Cover {
        width: inputs.len() as u32,
        cubes: Vec::new(alloc),
        on: true,
    };
    Ok(CoverTable {
        inputs,
        output,
        cover,
    })
}

/// Records the names that a table drives and reads.
fn note_table(reading: &mut Reading, table: &CoverTable) -> Result<(), AllocError>
    ensures { OnOk result (reading.new ≡ with_table_names reading.old table.now) }
{
    reading.driven.push(table.output.copied()?)?;
    add_copies(&mut reading.used, &table.inputs)?;
    Ok(())
}

/// `.names`
fn take_table(alloc: Global, line: u32, reading: &mut Reading, text: &[u8]) -> Result<(), NetError>
    ensures { Gives (λ _. reading.new) result (with_table_line line reading.old (words_of text.now)) }
{
    let table = table_of(alloc, line, text)?;
    note_table(reading, &table)?;
    reading.current = Some(table);
    Ok(())
}

/// Records the control of a latch.
fn note_control(
    controls: &mut Vec<Control>,
    line: u32,
    control: &Option<(Trigger, Name)>,
) -> Result<(), AllocError>
    ensures { OnOk result (controls.new.items ≡ controls.old.items ++ control_at line control.now) }
{
    let Some((_, name)) = control else {
        return Ok(());
    };
    controls.push(Control {
        line,
        name: name.copied()?,
    })?;
    Ok(())
}

/// Records the names that a latch drives and reads, and its control.
fn note_latch(line: u32, reading: &mut Reading, latch: &LatchLine) -> Result<(), AllocError>
    ensures { OnOk result (reading.new ≡ with_latch_names line reading.old latch.now) }
{
    reading.driven.push(latch.latch.output.copied()?)?;
    reading.used.push(latch.input.copied()?)?;
    note_control(&mut reading.controls, line, &latch.latch.control)
}

/// `.latch`
fn take_latch(alloc: Global, line: u32, reading: &mut Reading, text: &[u8]) -> Result<(), NetError>
    ensures { Gives (λ _. reading.new) result (with_latch_line line reading.old (words_of text.now)) }
{
    let latch = latch_of(alloc, line, text)?;
    note_latch(line, reading, &latch)?;
    reading.latches.push(latch)?;
    Ok(())
}

/// `.end`
fn take_end(line: u32, reading: &mut Reading, text: &[u8]) -> Result<(), NetError>
    ensures { Gives (λ _. reading.new) result (with_end line reading.old (words_of text.now)) }
{
    if next_word(text).is_some() {
        return Err(NetError::Syntax(line));
    }
    reading.is_ended = true;
    Ok(())
}

/// Handles a line that begins with a dot.
#[tactic(auto, unfolding(crate::specs::Statements::directed))]
fn take_directive(
    alloc: Global,
    line: u32,
    reading: &mut Reading,
    is_first: bool,
    word: &[u8],
    text: &[u8],
) -> Result<(), NetError>
    ensures { Gives (λ _. reading.new) result (directed line reading.old is_first word.now (words_of text.now)
        (say.keyword_of word.now)) }
{
    match keyword_of(word) {
        BlifKeyword::Model => take_model(alloc, line, reading, is_first, word, text),
        BlifKeyword::Inputs => take_inputs(line, reading, text),
        BlifKeyword::Outputs => take_outputs(line, reading, text),
        BlifKeyword::Clock => take_clocks(line, reading, text),
        BlifKeyword::Names => take_table(alloc, line, reading, text),
        BlifKeyword::Latch => take_latch(alloc, line, reading, text),
        BlifKeyword::End => take_end(line, reading, text),
        BlifKeyword::Unknown => Err(NetError::NotSupported(line, Name::of(alloc, word)?)),
    }
}

/// Handles a cover line.
fn cover(alloc: Global, line: u32, reading: &mut Reading, text: &[u8]) -> Result<(), NetError>
    ensures { Gives (λ _. reading.new) result (covered line reading.old reading.old.current (words_of text.now)) }
{
    match &mut reading.current {
        Some(table) => take_cover_line(alloc, line, table, text),
        None => Err(NetError::Syntax(line)),
    }
}

/// Whether a word begins with a dot.
fn begins_dot(word: &[u8]) -> bool
    ensures { result ≡ begins_dot_of word.now }
{
    match word.first() {
        Some(byte) => *byte == b'.',
        None => false,
    }
}

/// The error of a line after `.end`.
fn after_end(alloc: Global, line: u32, reading: &Reading, word: &[u8]) -> Result<(), NetError>
    ensures { Gives (λ _. reading.now) result (after_end_of line reading.now word.now) }
{
    if is_word(word, b".model") && reading.has_model {
        return Err(NetError::NotSupported(line, Name::of(alloc, word)?));
    }
    Err(NetError::Syntax(line))
}

/// Handles a statement or a cover line, by its words.
fn state(alloc: Global, line: u32, reading: &mut Reading, text: &[u8]) -> Result<(), NetError>
    ensures { Gives (λ _. reading.new) result (stated line reading.old (words_of text.now)) }
{
    let Some((word, rest)) = next_word(text) else {
        return Ok(());
    };
    if reading.is_ended {
        return after_end(alloc, line, reading, word);
    }
    if !begins_dot(word) {
        return cover(alloc, line, reading, text);
    }
    let is_first = !reading.is_begun;
    reading.close()?;
    take_directive(alloc, line, reading, is_first, word, rest)
}

/// Handles a logical line.
#[tactic(auto, unfolding(crate::specs::Statements::step))]
pub fn take_line(alloc: Global, reading: &mut Reading, line: &LogicalLine) -> Result<(), NetError>
    ensures { Gives (λ _. reading.new) result (step reading.old line.now) }
{
    if is_long_line(line.size) {
        return Err(NetError::LineTooLong(line.first));
    }
    if has_long(&line.text) {
        return Err(NetError::NameTooLong(line.first));
    }
    state(alloc, line.first, reading, &line.text)
}
