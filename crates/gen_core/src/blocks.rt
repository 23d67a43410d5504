//! The names and the tables of one block.

ghost use Rattle.std.specs.Prelude.{◌≡◌, ◌<◌, ◌^◌, [], ◌∷◌, ◌++◌, IfOk, OnOk, length, option_to_list};
ghost use Rattle.std.specs.Option.{option_copied};
ghost use Rattle.gen_core.specs.Generated.{name_of as name_of_letter, names_of as names_of_letters};
ghost use Rattle.gen_core.specs.Generated.{table_of as table_of_letters, exclusive, conjunction, choice};
ghost use Rattle.gen_core.specs.Generated.{block_inputs};
ghost use Rattle.gen_core.specs.Generated.{block_tables};

use net_document::{Body, Cover, Cube, Name, Table};
use std::alloc::{AllocError, Global};
use text_core::push_number;

/// The name of `letter` in `block`: the letter, then the block's number in decimal.
pub fn name_of(alloc: Global, block: u32, letter: u8) -> Result<Name, AllocError>
    ensures { IfOk result (λ name. name ≡ name_of_letter block letter) }
{
    let mut bytes = Vec::new(alloc);
    bytes.push(letter)?;
    push_number(&mut bytes, block)?;
    Ok(Name::new(bytes))
}

/// The names of letters.
fn names_of(alloc: Global, block: u32, letters: &[u8]) -> Result<Vec<Name>, AllocError>
    ensures { IfOk result (λ names. names.items ≡ names_of_letters block letters.now) }
{
    let mut names = Vec::new(alloc);
    let mut left = letters;
    while let Some((letter, rest)) = left.split_first() {
        names.push(name_of(alloc, block, *letter)?)?;
        left = rest;
    }
    Ok(names)
}

/// Appends `more` to `names`.
pub fn append_names(names: &mut Vec<Name>, more: Vec<Name>) -> Result<(), AllocError>
    ensures { OnOk result (names.new.items ≡ names.old.items ++ more.items) }
{
    let mut rest = more;
    names.append(&mut rest)?;
    Ok(())
}

/// The cubes of a table: one, or two.
fn cubes_of(alloc: Global, first: &[u8], second: Option<&[u8]>) -> Result<Vec<Cube>, AllocError>
    ensures { IfOk result (λ cubes. cubes.items ≡ first.now ∷ option_to_list (option_copied second.entry)) }
{
    let mut cubes = Vec::new(alloc);
    cubes.push(Cube::new(Vec::from_slice(alloc, first)?))?;
    if let Some(second) = second {
        cubes.push(Cube::new(Vec::from_slice(alloc, second)?))?;
    }
    Ok(cubes)
}

/// A table by the letters of its inputs and its output.
fn table_of(
    alloc: Global,
    block: u32,
    inputs: &[u8],
    output: u8,
    first: &[u8],
    second: Option<&[u8]>,
) -> Result<Table, AllocError>
    requires { length inputs.now < 2 ^ 32 }
    ensures { IfOk result (λ t. t ≡ table_of_letters block inputs.now output first.now (option_copied second.entry)) }
{
    let cubes = cubes_of(alloc, first, second)?;
    let cover = Cover {
        width: inputs.len() as u32,
        cubes,
        on: true,
    };
    Ok(Table {
        inputs: names_of(alloc, block, inputs)?,
        output: name_of(alloc, block, output)?,
        body: Body::Cubes(cover),
    })
}

/// Adds a table by the letters of its inputs and its output.
fn add_table(
    block: u32,
    tables: &mut Vec<Table>,
    inputs: &[u8],
    output: u8,
    first: &[u8],
    second: Option<&[u8]>,
) -> Result<(), AllocError>
    requires { length inputs.now < 2 ^ 32 }
    ensures { OnOk result (tables.new.items ≡ tables.old.items ++
        table_of_letters block inputs.now output first.now (option_copied second.entry) ∷ []) }
{
    let table = table_of(*tables.allocator(), block, inputs, output, first, second)?;
    tables.push(table)?;
    Ok(())
}

/// Adds the tables of a block that computes XOR.
fn push_exclusive(block: u32, tables: &mut Vec<Table>) -> Result<(), AllocError>
    ensures { OnOk result (tables.new.items ≡ tables.old.items ++ exclusive block) }
{
    add_table(block, tables, b"ab", b'p', b"10", None)?;
    add_table(block, tables, b"ab", b'q', b"01", None)?;
    add_table(block, tables, b"pq", b'y', b"1-", Some(b"-1"))?;
    Ok(())
}

/// Adds the tables of a block that computes AND.
fn push_conjunction(block: u32, tables: &mut Vec<Table>) -> Result<(), AllocError>
    ensures { OnOk result (tables.new.items ≡ tables.old.items ++ conjunction block) }
{
    add_table(block, tables, b"ab", b'p', b"11", None)?;
    add_table(block, tables, b"ac", b'q', b"11", None)?;
    add_table(block, tables, b"pq", b'y', b"11", None)?;
    Ok(())
}

/// Adds the tables of a multiplexer with the select input `a`.
fn push_choice(block: u32, tables: &mut Vec<Table>) -> Result<(), AllocError>
    ensures { OnOk result (tables.new.items ≡ tables.old.items ++ choice block) }
{
    add_table(block, tables, b"a", b'p', b"0", None)?;
    add_table(block, tables, b"ab", b'q', b"11", None)?;
    add_table(block, tables, b"pc", b'r', b"11", None)?;
    add_table(block, tables, b"qr", b'y', b"1-", Some(b"-1"))?;
    Ok(())
}

/// Adds the tables of a block.
pub fn push_tables(block: u32, tables: &mut Vec<Table>) -> Result<(), AllocError>
    ensures { OnOk result (tables.new.items ≡ tables.old.items ++ block_tables block) }
{
    if block % 3 == 0 {
        push_exclusive(block, tables)
    } else if block % 3 == 1 {
        push_conjunction(block, tables)
    } else {
        push_choice(block, tables)
    }
}

/// The names of a block's inputs.
pub fn inputs_of(alloc: Global, block: u32) -> Result<Vec<Name>, AllocError>
    ensures { IfOk result (λ names. names.items ≡ block_inputs block) }
{
    if block % 3 == 0 {
        names_of(alloc, block, b"ab")
    } else {
        names_of(alloc, block, b"abc")
    }
}
