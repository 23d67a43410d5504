//! The tables of gates and constants.

ghost use Rattle.std.specs.Prelude.{◌≡◌, ◌++◌, OnOk, IfOk};
ghost use Rattle.net_theory.specs.Naming.{gate_names, node_name as node_name_of};
ghost use Rattle.blif_core.specs.Written as written;
ghost use Rattle.blif_core.specs.Written.{row_if, binary_cubes as binary_cubes_of};

use crate::nodes::node_name;
use net_core::{Body, Circuit, Cover, Cube, Gate, Name, Op, Sig};
use net_document::Table;
use std::alloc::{AllocError, Global};

/// Adds the cube `row`, if `is_wanted`.
fn push_row(
    alloc: Global,
    cubes: &mut Vec<Cube>,
    is_wanted: bool,
    row: &[u8],
) -> Result<(), AllocError>
    ensures { OnOk result (cubes.new.items ≡ cubes.old.items ++ row_if is_wanted row.now) }
{
    if is_wanted {
        cubes.push(Cube::new(Vec::from_slice(alloc, row)?))?;
    }
    Ok(())
}

/// A table without inputs.
pub fn constant_table(alloc: Global, bit: bool, output: &[u8]) -> Result<Table, AllocError>
    ensures { IfOk result (λ t. t ≡ written.constant_table bit output.now) }
{
    let mut cubes = Vec::new(alloc);
    push_row(alloc, &mut cubes, bit, &[])?;
    Ok(Table {
        inputs: Vec::new(alloc),
        output: Name::of(alloc, output)?,
        body: Body::Cubes(Cover {
            width: 0,
            cubes,
            on: true,
        }),
    })
}

/// A table of one input, by its values at 0 and 1.
pub fn unary_table(
    alloc: Global,
    at_zero: bool,
    at_one: bool,
    input: &[u8],
    output: &[u8],
) -> Result<Table, AllocError>
    ensures { IfOk result (λ t. t ≡ written.unary_table at_zero at_one input.now output.now) }
{
    let mut cubes = Vec::new(alloc);
    push_row(alloc, &mut cubes, at_zero, b"0")?;
    push_row(alloc, &mut cubes, at_one, b"1")?;
    let mut inputs = Vec::new(alloc);
    inputs.push(Name::of(alloc, input)?)?;
    Ok(Table {
        inputs,
        output: Name::of(alloc, output)?,
        body: Body::Cubes(Cover {
            width: 1,
            cubes,
            on: true,
        }),
    })
}

/// The cubes of the rows on which an operator is 1.
#[tactic(auto, unfolding(crate::specs::Written::binary_cubes))]
fn binary_cubes(alloc: Global, op: Op) -> Result<Vec<Cube>, AllocError>
    ensures { IfOk result (λ cubes. cubes.items ≡ binary_cubes_of op) }
{
    let mut cubes = Vec::new(alloc);
    push_row(alloc, &mut cubes, op.apply(false, false), b"00")?;
    push_row(alloc, &mut cubes, op.apply(false, true), b"01")?;
    push_row(alloc, &mut cubes, op.apply(true, false), b"10")?;
    push_row(alloc, &mut cubes, op.apply(true, true), b"11")?;
    Ok(cubes)
}

/// A table of two inputs.
fn binary_table(
    alloc: Global,
    op: Op,
    first: &[u8],
    second: &[u8],
    output: &[u8],
) -> Result<Table, AllocError>
    ensures { IfOk result (λ t. t ≡ written.binary_table op first.now second.now output.now) }
{
    let cubes = binary_cubes(alloc, op)?;
    let mut inputs = Vec::new(alloc);
    inputs.push(Name::of(alloc, first)?)?;
    inputs.push(Name::of(alloc, second)?)?;
    Ok(Table {
        inputs,
        output: Name::of(alloc, output)?,
        body: Body::Cubes(Cover {
            width: 2,
            cubes,
            on: true,
        }),
    })
}

/// The table of a gate whose first operand is a node.
fn with_node(
    alloc: Global,
    circuit: &Circuit,
    names: &[Name],
    output: &[u8],
    op: Op,
    first: u32,
    second: Sig,
) -> Result<Table, AllocError>
    requires { names.now ≡ gate_names circuit.now }
    ensures { IfOk result (λ t. t ≡ written.with_node (node_name_of circuit.now) output.now op first second) }
{
    let name = node_name(circuit, names, first);
    match second {
        Sig::Zero => {
            let (zero, one) = (op.apply(false, false), op.apply(true, false));
            unary_table(alloc, zero, one, name, output)
        }
        Sig::One => {
            let (zero, one) = (op.apply(false, true), op.apply(true, true));
            unary_table(alloc, zero, one, name, output)
        }
        Sig::Node(node) => {
            if first == node {
                let (zero, one) = (op.apply(false, false), op.apply(true, true));
                return unary_table(alloc, zero, one, name, output);
            }
            binary_table(alloc, op, name, node_name(circuit, names, node), output)
        }
    }
}

/// The table of a gate whose first operand is a constant.
fn with_bit(
    alloc: Global,
    circuit: &Circuit,
    names: &[Name],
    output: &[u8],
    op: Op,
    first: bool,
    second: Sig,
) -> Result<Table, AllocError>
    requires { names.now ≡ gate_names circuit.now }
    ensures { IfOk result (λ t. t ≡ written.with_bit (node_name_of circuit.now) output.now op first second) }
{
    match second {
        Sig::Zero => constant_table(alloc, op.apply(first, false), output),
        Sig::One => constant_table(alloc, op.apply(first, true), output),
        Sig::Node(node) => {
            let name = node_name(circuit, names, node);
            unary_table(
                alloc,
                op.apply(first, false),
                op.apply(first, true),
                name,
                output,
            )
        }
    }
}

/// The table of a gate: a function of its distinct fanins.
#[tactic(auto, unfolding(crate::specs::Written::gate_table))]
pub fn gate_table(
    alloc: Global,
    circuit: &Circuit,
    names: &[Name],
    output: &[u8],
    gate: &Gate,
) -> Result<Table, AllocError>
    requires { names.now ≡ gate_names circuit.now }
    ensures { IfOk result (λ t. t ≡ written.gate_table (node_name_of circuit.now) output.now gate.now) }
{
    let op = gate.op;
    match gate.a {
        Sig::Zero => with_bit(alloc, circuit, names, output, op, false, gate.b),
        Sig::One => with_bit(alloc, circuit, names, output, op, true, gate.b),
        Sig::Node(node) => with_node(alloc, circuit, names, output, op, node, gate.b),
    }
}
