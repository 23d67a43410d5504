//! Writing the BLIF text of a document.

ghost use Rattle.std.specs.Prelude.{◌≡◌, ◌≤◌, ◌∷◌, ◌++◌, List, All, IfOk, OnOk, OnErr};
ghost use Rattle.std.specs.List.{flat_map};
ghost use Rattle.net_theory.specs.Document.{Name};
ghost use Rattle.net_theory.specs.WellFormed.{IsInit};
ghost use Rattle.blif_core.specs.Spelling.{HasInit};
ghost use Rattle.blif_core.specs.Spelling as spelling;

use crate::joined::push_joined;
use net_core::{Body, Cube, Name, Trigger};
use net_document::{Document, LatchLine, Table};
use std::alloc::AllocError;

/// Adds a blank and a word.
fn push_word(text: &mut Vec<u8>, word: &[u8]) -> Result<(), AllocError>
    ensures { OnOk result (text.new.items ≡ text.old.items ++ spelling.word_text word.now) }
{
    text.push(b' ')?;
    text.extend_from_slice(word)?;
    Ok(())
}

/// Adds names, each after a blank.
fn push_words(text: &mut Vec<u8>, names: &[Name]) -> Result<(), AllocError>
    ensures { OnOk result (text.new.items ≡ text.old.items ++ spelling.words_text names.now) }
{
    let mut left = names;
    while let Some((name, rest)) = left.split_first() {
        push_word(text, name.get())?;
        left = rest;
    }
    Ok(())
}

/// Adds a name to a line of `count` names, or to a new line after 16 names, and returns the new count.
#[tactic(auto, unfolding(crate::specs::Spelling::rest_text))]
fn push_name(
    text: &mut Vec<u8>,
    keyword: &[u8],
    count: usize,
    name: &[u8],
) -> Result<usize, AllocError>
    requires { count ≤ 16 }
    ensures text { IfOk result (λ n. (names : List Name) →
        text.new.items ++ spelling.rest_text keyword.now n names
        ≡ text.old.items ++ spelling.rest_text keyword.now count (name.now ∷ names)) }
    ensures few { IfOk result (λ n. n ≤ 16) }
{
    if count < 16 {
        push_word(text, name)?;
        return Ok(count + 1);
    }
    text.push(b'\n')?;
    text.extend_from_slice(keyword)?;
    push_word(text, name)?;
    Ok(1)
}

/// Adds names after a keyword, 16 on a line.
#[tactic(auto, unfolding(crate::specs::Spelling::rest_text))]
fn push_list(text: &mut Vec<u8>, keyword: &[u8], names: &[Name]) -> Result<(), AllocError>
    ensures { OnOk result (text.new.items ≡ text.old.items ++ spelling.list_text keyword.now names.now) }
{
    text.extend_from_slice(keyword)?;
    let mut count = 0;
    let mut left = names;
    while let Some((name, rest)) = left.split_first() {
        count = push_name(text, keyword, count, name.get())?;
        left = rest;
    }
    text.push(b'\n')?;
    Ok(())
}

/// Adds the clocks, if there are any.
fn push_clocks(text: &mut Vec<u8>, clocks: &[Name]) -> Result<(), AllocError>
    ensures { OnOk result (text.new.items ≡ text.old.items ++ spelling.clocks_text clocks.now) }
{
    match clocks.split_first() {
        Some(_) => push_list(text, b".clock", clocks),
        None => Ok(()),
    }
}

/// The keyword of a trigger.
fn trigger_word(trigger: Trigger) -> &'static [u8]
    ensures { result.now ≡ spelling.trigger_text trigger }
{
    match trigger {
        Trigger::Fe => b"fe",
        Trigger::Re => b"re",
        Trigger::Ah => b"ah",
        Trigger::Al => b"al",
        Trigger::As => b"as",
    }
}

/// Adds a control, if there is one.
fn push_control(text: &mut Vec<u8>, control: &Option<(Trigger, Name)>) -> Result<(), AllocError>
    ensures { OnOk result (text.new.items ≡ text.old.items ++ spelling.control_text control.now) }
{
    if let Some((trigger, name)) = control {
        push_word(text, trigger_word(*trigger))?;
        push_word(text, name.get())?;
    }
    Ok(())
}

/// Adds an initial value, if there is one.
fn push_init(text: &mut Vec<u8>, init: Option<u8>) -> Result<(), AllocError>
    requires { IsInit init }
    ensures { OnOk result (text.new.items ≡ text.old.items ++ spelling.init_text init) }
{
    if let Some(init) = init {
        text.push(b' ')?;
        text.push(b'0' + init)?;
    }
    Ok(())
}

/// Adds a latch.
fn push_latch(text: &mut Vec<u8>, latch: &LatchLine) -> Result<(), AllocError>
    requires { HasInit latch.now }
    ensures { OnOk result (text.new.items ≡ text.old.items ++ spelling.latch_text latch.now) }
{
    let inner = &latch.latch;
    text.extend_from_slice(b".latch")?;
    push_word(text, latch.input.get())?;
    push_word(text, inner.output.get())?;
    push_control(text, &inner.control)?;
    push_init(text, inner.init)?;
    text.push(b'\n')?;
    Ok(())
}

/// The byte of a value.
fn digit(on: bool) -> u8
    ensures { result ≡ spelling.digit_text on }
{
    if on { b'1' } else { b'0' }
}

/// Adds a cube and a blank; nothing if the table has no inputs.
fn push_cube(text: &mut Vec<u8>, cube: &[u8]) -> Result<(), AllocError>
    ensures { OnOk result (text.new.items ≡ text.old.items ++ spelling.cube_text cube.now) }
{
    if !cube.is_empty() {
        text.extend_from_slice(cube)?;
        text.push(b' ')?;
    }
    Ok(())
}

/// Adds a cover line.
pub fn push_row(text: &mut Vec<u8>, on: bool, cube: &[u8]) -> Result<(), AllocError>
    ensures { OnOk result (text.new.items ≡ text.old.items ++ spelling.row_text on cube.now) }
{
    push_cube(text, cube)?;
    text.push(digit(on))?;
    text.push(b'\n')?;
    Ok(())
}

/// Adds cover lines.
fn push_rows(text: &mut Vec<u8>, on: bool, cubes: &[Cube]) -> Result<(), AllocError>
    ensures { OnOk result (text.new.items ≡ text.old.items ++ flat_map (spelling.row_text on) cubes.now) }
{
    let mut left = cubes;
    while let Some((cube, rest)) = left.split_first() {
        push_row(text, on, cube.get())?;
        left = rest;
    }
    Ok(())
}

/// Adds a table.
fn push_table(text: &mut Vec<u8>, table: &Table) -> Result<(), AllocError>
    ensures { OnOk result (text.new.items ≡ text.old.items ++ spelling.table_text table.now) }
{
    text.extend_from_slice(b".names")?;
    push_words(text, &table.inputs)?;
    push_word(text, table.output.get())?;
    text.push(b'\n')?;
    match &table.body {
        Body::Cubes(cover) => push_rows(text, cover.on, &cover.cubes),
        Body::Joined(whole) => push_joined(text, *whole),
    }
}

/// Adds tables.
fn push_tables(text: &mut Vec<u8>, tables: &[Table]) -> Result<(), AllocError>
    ensures { OnOk result (text.new.items ≡ text.old.items ++ flat_map spelling.table_text tables.now) }
{
    let mut left = tables;
    while let Some((table, rest)) = left.split_first() {
        push_table(text, table)?;
        left = rest;
    }
    Ok(())
}

/// Adds latches.
fn push_latches(text: &mut Vec<u8>, latches: &[LatchLine]) -> Result<(), AllocError>
    requires { All HasInit latches.now }
    ensures { OnOk result (text.new.items ≡ text.old.items ++ flat_map spelling.latch_text latches.now) }
{
    let mut left = latches;
    while let Some((latch, rest)) = left.split_first() {
        push_latch(text, latch)?;
        left = rest;
    }
    Ok(())
}

/// Adds the model's line.
fn push_model(text: &mut Vec<u8>, model: &[u8]) -> Result<(), AllocError>
    ensures { OnOk result (text.new.items ≡ text.old.items ++ spelling.model_text model.now) }
{
    text.extend_from_slice(b".model")?;
    push_word(text, model)?;
    text.push(b'\n')?;
    Ok(())
}

/// Adds the lines of the model, the inputs, the outputs and the clocks.
fn push_header(text: &mut Vec<u8>, document: &Document) -> Result<(), AllocError>
    ensures { OnOk result (text.new.items ≡ text.old.items ++ spelling.header_text document.now) }
{
    push_model(text, document.model.get())?;
    push_list(text, b".inputs", &document.inputs)?;
    push_list(text, b".outputs", &document.outputs)?;
    push_clocks(text, &document.clocks)?;
    Ok(())
}

/// Adds the lines of a document.
#[tactic(auto, unfolding(crate::specs::Spelling::spelled))]
fn push_document(text: &mut Vec<u8>, document: &Document) -> Result<(), AllocError>
    requires { All HasInit document.now.latches }
    ensures { OnOk result (text.new.items ≡ text.old.items ++ spelling.spelled document.now) }
{
    push_header(text, document)?;
    push_latches(text, &document.latches)?;
    push_tables(text, &document.tables)?;
    text.extend_from_slice(b".end\n")?;
    Ok(())
}

/// Appends the BLIF text of a document (the Berkeley BLIF manual): the model, the inputs, outputs and clocks (16
/// names on a line), the latches, the tables with their cover lines, and `.end`. The text is built separately and
/// appended at once, so that nothing is appended if memory runs out.
pub fn write_document(text: &mut Vec<u8>, document: &Document) -> Result<(), AllocError>
    requires { All HasInit document.now.latches }
    ensures ok { OnOk result (text.new.items ≡ text.old.items ++ spelling.spelled document.now) }
    ensures err { OnErr result (text.new.items ≡ text.old.items) }
{
    let mut whole = Vec::new(*text.allocator());
    push_document(&mut whole, document)?;
    text.extend_from_slice(&whole)
}
