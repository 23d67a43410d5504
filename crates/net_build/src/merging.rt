//! Tables with two inputs of the same name, and the costs of tables.

ghost use Rattle.std.specs.Prelude.{◌≡◌, ◌<◌, ◌^◌, ◌++◌, false, true, All, IfOk, OnOk, sum_by, take};
ghost use Rattle.net_theory.specs.Cost.{byte_if, unary_cover as unary_cover_of, merged_table};
ghost use Rattle.net_theory.specs.Cost.{table_cost as table_cost_of};
ghost use Rattle.net_theory.specs.WellFormed.{IsTable};
ghost use Rattle.net_build.specs.Parts.{merged_by};

use net_core::{Cover, Cube, Name, body_cost, body_value, cover_cost};
use net_document::Table;
use std::alloc::{AllocError, Global};

/// Adds the cube with the single byte `byte`, if `is_wanted`.
fn push_if(
    alloc: Global,
    cubes: &mut Vec<Cube>,
    is_wanted: bool,
    byte: u8,
) -> Result<(), AllocError>
    ensures { OnOk result (cubes.new.items ≡ cubes.old.items ++ byte_if is_wanted byte) }
{
    if is_wanted {
        cubes.push(Cube::new(Vec::from_slice(alloc, &[byte])?))?;
    }
    Ok(())
}

/// The cover of one input with the values `at_zero` and `at_one`.
fn unary_cover(alloc: Global, at_zero: bool, at_one: bool) -> Result<Cover, AllocError>
    ensures { IfOk result (λ cover. cover ≡ unary_cover_of at_zero at_one) }
{
    let mut cubes = Vec::new(alloc);
    push_if(alloc, &mut cubes, at_zero, b'0')?;
    push_if(alloc, &mut cubes, at_one, b'1')?;
    Ok(Cover {
        width: 1,
        cubes,
        on: true,
    })
}

/// The cover of one input that replaces the cover of a table with two inputs of the same name.
#[tactic(auto, using(crate::proofs::Merged::merges, crate::proofs::Merged::body_good), // for the prover
unfolding(net_theory::specs::Cost::merged_table))]
pub fn merged_cover(alloc: Global, table: &Table) -> Result<Option<Cover>, AllocError>
    requires { IsTable table.now }
    ensures { IfOk result (λ cover. merged_by table.now cover ≡ merged_table table.now) }
{
    let [first, second] = table.inputs.as_slice() else {
        return Ok(None);
    };
    if first != second {
        return Ok(None);
    }
    let at_zero = body_value(&table.body, &[false, false]);
    let at_one = body_value(&table.body, &[true, true]);
    Ok(Some(unary_cover(alloc, at_zero, at_one)?))
}

/// The list of only the first name; empty if there is none.
pub fn first_alone(names: &[Name]) -> &[Name]
    ensures { result.now ≡ take 1 names.now }
{
    match names.split_first() {
        Some(_) => &names[..1],
        None => names,
    }
}

/// The number of gates into which a table is decomposed.
#[tactic(auto, // for the prover
using(crate::proofs::Merged::costs, crate::proofs::Merged::body_good), unfolding(net_theory::specs::Cost::table_cost))]
fn table_cost(alloc: Global, table: &Table) -> Result<u32, AllocError>
    requires { IsTable table.now }
    ensures { IfOk result (λ cost. cost ≡ table_cost_of table.now) }
{
    match merged_cover(alloc, table)? {
        Some(cover) => Ok(cover_cost(&cover, first_alone(&table.inputs))),
        None => Ok(body_cost(&table.body, &table.inputs)),
    }
}

/// The number of gates into which all tables are decomposed.
pub fn total_cost(alloc: Global, tables: &[Table]) -> Result<u32, AllocError>
    requires tables { All IsTable tables.now }
    requires small { sum_by table_cost_of tables.now < 2 ^ 32 }
    ensures { IfOk result (λ cost. cost ≡ sum_by table_cost_of tables.now) }
{
    let mut total: u32 = 0;
    let mut left = tables;
    while let Some((table, rest)) = left.split_first() {
        total += table_cost(alloc, table)?;
        left = rest;
    }
    Ok(total)
}
