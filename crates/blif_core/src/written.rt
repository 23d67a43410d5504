//! The document that the writer makes of a circuit.

ghost use Rattle.std.specs.Prelude.{◌≡◌, ◌∷◌, ◌++◌, if◌then◌else◌, List, OnOk, IfOk};
ghost use Rattle.std.specs.List.{list_any};
ghost use Rattle.net_theory.specs.declared.data.Sig.{Sig};
ghost use Rattle.net_theory.specs.Document.{Name, has};
ghost use Rattle.net_theory.specs.Circuit.{IsProper, sources_of};
ghost use Rattle.net_theory.specs.Naming.{each_once, gate_names, first_spare, second_spare};
ghost use Rattle.net_theory.specs.Naming.{node_name as node_name_of};
ghost use Rattle.net_core.specs.Names.{HasRoomForNames};
ghost use Rattle.blif_core.specs.Written as written;
ghost use Rattle.blif_core.specs.Written.{output_tables as output_tables_of, is_zero as is_zero_of};
ghost use Rattle.blif_core.specs.Written.{is_one as is_one_of, next_states, sig_name as sig_name_of, table_if};

use crate::nodes::node_name;
use crate::tables::{constant_table, gate_table, unary_table};
use indexmap::IndexSet;
use net_core::{
    Circuit, Gate, GateNames, Latch, Name, Sig, Trigger, all_names, take_latches, take_names,
};
use net_document::{Document, LatchLine, Table, add_copies};
use std::alloc::{AllocError, Global};

/// Whether a signal is the constant 0.
fn is_zero(sig: Sig) -> bool
    ensures { result ≡ is_zero_of sig }
{
    match sig {
        Sig::Zero => true,
        _ => false,
    }
}

/// Whether a signal is the constant 1.
fn is_one(sig: Sig) -> bool
    ensures { result ≡ is_one_of sig }
{
    match sig {
        Sig::One => true,
        _ => false,
    }
}

/// Whether some signal is the constant 0.
fn has_zero(sinks: &[Sig]) -> bool
    ensures { result ≡ list_any is_zero_of sinks.now }
{
    sinks.iter().any(|sink| is_zero(*sink))
}

/// Whether some signal is the constant 1.
fn has_one(sinks: &[Sig]) -> bool
    ensures { result ≡ list_any is_one_of sinks.now }
{
    sinks.iter().any(|sink| is_one(*sink))
}

/// Copies of names.
fn copies(alloc: Global, names: &[Name]) -> Result<Vec<Name>, AllocError>
    ensures { IfOk result (λ copies. copies.items ≡ names.now) }
{
    let mut copies = Vec::new(alloc);
    add_copies(&mut copies, names)?;
    Ok(copies)
}

/// Adds the tables of `gates`; `outputs` are the names of the gates.
#[tactic(auto, unfolding(crate::specs::Written::gate_tables))]
fn push_gates(
    alloc: Global,
    circuit: &Circuit,
    names: &[Name],
    gates: &[Gate],
    outputs: &[Name],
    tables: &mut Vec<Table>,
) -> Result<(), AllocError>
    requires { names.now ≡ gate_names circuit.now }
    ensures { OnOk result (tables.new.items ≡ tables.old.items ++
        written.gate_tables (node_name_of circuit.now) gates.now outputs.now) }
{
    let mut left = gates;
    let mut left_names = outputs;
    while let Some((gate, rest)) = left.split_first() {
        let Some((output, rest_names)) = left_names.split_first() else {
            return Ok(());
        };
        tables.push(gate_table(alloc, circuit, names, output.get(), gate)?)?;
        left = rest;
        left_names = rest_names;
    }
    Ok(())
}

/// The sinks that are the latches' inputs.
fn latch_sinks(circuit: &Circuit) -> &[Sig]
    requires { IsProper circuit.now }
    ensures { result.now ≡ next_states circuit.now }
{
    let outputs = circuit.outputs.len();
    &circuit.net.sinks()[outputs..]
}

/// The name of a signal: a node or a constant.
#[tactic(auto, using(crate::proofs::Constants::names))]
fn sig_name<'a>(
    circuit: &'a Circuit,
    names: &'a GateNames,
    is_zero_needed: bool,
    sig: Sig,
) -> &'a [u8]
    requires gates { names.now.names.items ≡ gate_names circuit.now }
    requires first { names.now.first_spare ≡ first_spare circuit.now }
    requires second { names.now.second_spare ≡ second_spare circuit.now }
    requires zero { is_zero_needed ≡ list_any is_zero_of (next_states circuit.now) }
    ensures { result.now ≡ sig_name_of circuit.now sig }
{
    match sig {
        Sig::Zero => names.first_spare.get(),
        Sig::One => one_name(names, is_zero_needed),
        Sig::Node(node) => node_name(circuit, &names.names, node),
    }
}

/// The name of the constant 1, the one after the name of 0 if that is needed.
fn one_name(names: &GateNames, is_zero_needed: bool) -> &[u8]
    ensures { result.now ≡ (if is_zero_needed then names.now.second_spare else names.now.first_spare) }
{
    if is_zero_needed {
        names.second_spare.get()
    } else {
        names.first_spare.get()
    }
}

/// A copy of a control.
fn copied_control(control: &Option<(Trigger, Name)>) -> Result<Option<(Trigger, Name)>, AllocError>
    ensures { IfOk result (λ c. c ≡ control.now) }
{
    match control {
        Some((trigger, name)) => Ok(Some((*trigger, name.copied()?))),
        None => Ok(None),
    }
}

/// A copy of a latch.
fn copied_latch(latch: &Latch) -> Result<Latch, AllocError>
    ensures { IfOk result (λ l. l ≡ latch.now) }
{
    Ok(Latch {
        output: latch.output.copied()?,
        control: copied_control(&latch.control)?,
        init: latch.init,
    })
}

/// Adds the latches, each with the name of its input.
#[tactic(auto, unfolding(crate::specs::Written::latch_lines))]
fn push_latches(
    alloc: Global,
    circuit: &Circuit,
    names: &GateNames,
    latches: &[Latch],
    lines: &mut Vec<LatchLine>,
) -> Result<(), AllocError>
    requires proper { IsProper circuit.now }
    requires gates { names.now.names.items ≡ gate_names circuit.now }
    requires first { names.now.first_spare ≡ first_spare circuit.now }
    requires second { names.now.second_spare ≡ second_spare circuit.now }
    ensures { OnOk result
        (lines.new.items ≡ lines.old.items ++ written.latch_lines (sig_name_of circuit.now) latches.now
        (next_states circuit.now)) }
{
    let sinks = latch_sinks(circuit);
    let is_zero_needed = has_zero(sinks);
    let mut left = latches;
    let mut left_sinks = sinks;
    while let Some((latch, rest)) = left.split_first() {
        let Some((sink, rest_sinks)) = left_sinks.split_first() else {
            return Ok(());
        };
        let name = sig_name(circuit, names, is_zero_needed, *sink);
        lines.push(LatchLine {
            input: Name::of(alloc, name)?,
            latch: copied_latch(latch)?,
        })?;
        left = rest;
        left_sinks = rest_sinks;
    }
    Ok(())
}

/// Adds the table of a constant, if `is_needed`.
fn push_constant(
    alloc: Global,
    is_needed: bool,
    bit: bool,
    name: &[u8],
    tables: &mut Vec<Table>,
) -> Result<(), AllocError>
    ensures { OnOk result (tables.new.items ≡ tables.old.items ++
        table_if is_needed (written.constant_table bit name.now)) }
{
    if is_needed {
        tables.push(constant_table(alloc, bit, name)?)?;
    }
    Ok(())
}

/// Adds the tables of the constants that latches read.
#[tactic(auto, unfolding(crate::specs::Written::constant_tables))]
fn push_constants(
    alloc: Global,
    circuit: &Circuit,
    names: &GateNames,
    tables: &mut Vec<Table>,
) -> Result<(), AllocError>
    requires proper { IsProper circuit.now }
    requires first { names.now.first_spare ≡ first_spare circuit.now }
    requires second { names.now.second_spare ≡ second_spare circuit.now }
    ensures { OnOk result (tables.new.items ≡ tables.old.items ++ written.constant_tables circuit.now) }
{
    let sinks = latch_sinks(circuit);
    let is_zero_needed = has_zero(sinks);
    push_constant(
        alloc,
        is_zero_needed,
        false,
        names.first_spare.get(),
        tables,
    )?;
    let one = one_name(names, is_zero_needed);
    push_constant(alloc, has_one(sinks), true, one, tables)
}

/// The table of an output: a constant, or a copy of a node.
fn output_table(
    alloc: Global,
    circuit: &Circuit,
    names: &[Name],
    output: &[u8],
    sink: Sig,
) -> Result<Table, AllocError>
    requires { names.now ≡ gate_names circuit.now }
    ensures { IfOk result (λ t. t ≡ written.output_table (node_name_of circuit.now) output.now sink) }
{
    match sink {
        Sig::Zero => constant_table(alloc, false, output),
        Sig::One => constant_table(alloc, true, output),
        Sig::Node(node) => {
            unary_table(alloc, false, true, node_name(circuit, names, node), output)
        }
    }
}

/// Adds the table of an output, unless its name is in `done`.
#[tactic(auto, unfolding(crate::specs::Written::output_tables, net_theory::specs::Document::has))]
fn push_output(
    alloc: Global,
    circuit: &Circuit,
    names: &[Name],
    done: &mut IndexSet<Name>,
    output: &Name,
    sink: Sig,
    tables: &mut Vec<Table>,
) -> Result<(), AllocError>
    requires { names.now ≡ gate_names circuit.now }
    ensures { OnOk result ((os : List Name) (sinks : List Sig)
        → tables.new.items ++ output_tables_of (node_name_of circuit.now) done.new.keys os sinks
        ≡ tables.old.items ++ output_tables_of (node_name_of circuit.now) done.old.keys (output.now ∷ os)
        (sink ∷ sinks)) }
{
    if done.contains(output) {
        return Ok(());
    }
    tables.push(output_table(alloc, circuit, names, output.get(), sink)?)?;
    done.insert(output.copied()?)?;
    Ok(())
}

/// Adds the tables of the outputs whose names aren't in `done`.
#[tactic(auto, unfolding(crate::specs::Written::output_tables))]
fn push_outputs(
    alloc: Global,
    circuit: &Circuit,
    names: &[Name],
    done: &mut IndexSet<Name>,
    outputs: &[Name],
    sinks: &[Sig],
    tables: &mut Vec<Table>,
) -> Result<(), AllocError>
    requires { names.now ≡ gate_names circuit.now }
    ensures { OnOk result
        (tables.new.items ≡ tables.old.items ++ output_tables_of (node_name_of circuit.now) done.old.keys outputs.now
        sinks.now) }
{
    let mut left = outputs;
    let mut left_sinks = sinks;
    while let Some((output, rest)) = left.split_first() {
        let Some((sink, rest_sinks)) = left_sinks.split_first() else {
            return Ok(());
        };
        push_output(alloc, circuit, names, done, output, *sink, tables)?;
        left = rest;
        left_sinks = rest_sinks;
    }
    Ok(())
}

/// Adds the names of the sources and of the gates to `written`.
#[tactic(auto, using(crate::proofs::Constants::sets))]
fn take_written(
    circuit: &Circuit,
    names: &[Name],
    written: &mut IndexSet<Name>,
) -> Result<(), AllocError>
    requires { names.now ≡ gate_names circuit.now }
    ensures { OnOk result (written.new.keys ≡ each_once written.old.keys (sources_of circuit.now ++
        gate_names circuit.now)) }
{
    take_names(written, &circuit.inputs)?;
    take_latches(written, &circuit.latches)?;
    take_names(written, names)?;
    Ok(())
}

/// Adds the tables of the outputs that no source or gate names.
fn push_others(
    alloc: Global,
    circuit: &Circuit,
    names: &[Name],
    tables: &mut Vec<Table>,
) -> Result<(), AllocError>
    requires { names.now ≡ gate_names circuit.now }
    ensures { OnOk result
        (tables.new.items ≡ tables.old.items
        ++ output_tables_of (node_name_of circuit.now) (written.driven_before circuit.now)
        circuit.now.outputs circuit.now.net.sinks) }
{
    let mut written = IndexSet::new(alloc);
    take_written(circuit, names, &mut written)?;
    let sinks = circuit.net.sinks();
    push_outputs(
        alloc,
        circuit,
        names,
        &mut written,
        &circuit.outputs,
        sinks,
        tables,
    )
}

/// Adds the tables of a circuit: gates, constants that latches read, and outputs that no source or gate names.
fn push_tables(
    alloc: Global,
    circuit: &Circuit,
    names: &GateNames,
    tables: &mut Vec<Table>,
) -> Result<(), AllocError>
    requires proper { IsProper circuit.now }
    requires gates { names.now.names.items ≡ gate_names circuit.now }
    requires first { names.now.first_spare ≡ first_spare circuit.now }
    requires second { names.now.second_spare ≡ second_spare circuit.now }
    ensures { OnOk result (tables.new.items ≡ tables.old.items ++ written.tables_of circuit.now) }
{
    let gates = &names.names;
    push_gates(alloc, circuit, gates, circuit.net.gates(), gates, tables)?;
    push_constants(alloc, circuit, names, tables)?;
    push_others(alloc, circuit, gates, tables)
}

/// Adds the latches and the tables of a circuit, with the names of `gate_names`.
fn push_lists(
    alloc: Global,
    circuit: &Circuit,
    lines: &mut Vec<LatchLine>,
    tables: &mut Vec<Table>,
) -> Result<(), AllocError>
    requires { IsProper circuit.now }
    ensures lines { OnOk result
        (lines.new.items ≡ lines.old.items
        ++ written.latch_lines (sig_name_of circuit.now) circuit.now.latches (next_states circuit.now)) }
    ensures tables { OnOk result (tables.new.items ≡ tables.old.items ++ written.tables_of circuit.now) }
    ensures room { OnOk result (HasRoomForNames circuit.now) }
{
    let names = all_names(alloc, circuit)?;
    push_tables(alloc, circuit, &names, tables)?;
    push_latches(alloc, circuit, &names, &circuit.latches, lines)
}

/// The document of a circuit, without its latches and tables.
fn header(alloc: Global, circuit: &Circuit) -> Result<Document, AllocError>
    ensures { IfOk result (λ d. d ≡ written.header circuit.now) }
{
    Ok(Document {
        model: circuit.model.copied()?,
        inputs: copies(alloc, &circuit.inputs)?,
        outputs: copies(alloc, &circuit.outputs)?,
        clocks: copies(alloc, &circuit.clocks)?,
        latches: Vec::new(alloc),
        tables: Vec::new(alloc),
    })
}

/// The document that the writer makes of a circuit: the gates in the order of their nodes with the names of
/// `gate_names`, the constants that latches read, and the outputs that no source or gate names.
#[tactic(auto, unfolding(crate::specs::Written::written))]
pub fn document_of(alloc: Global, circuit: &Circuit) -> Result<Document, AllocError>
    requires { IsProper circuit.now }
    ensures written { IfOk result (λ d. d ≡ written.written circuit.now) }
    ensures room { IfOk result (λ _. HasRoomForNames circuit.now) }
{
    let mut document = header(alloc, circuit)?;
    push_lists(alloc, circuit, &mut document.latches, &mut document.tables)?;
    Ok(document)
}
