//! Maps from names to the tables that drive them, and to their signals.

ghost use Rattle.std.specs.Prelude.{◌≡◌, ◌<◌, ◌^◌, ◌+◌, ◌++◌, map, length, None, OnOk, IfOk};
ghost use Rattle.std.specs.List.{filter_map};
ghost use Rattle.indexmap.specs.IndexMap.{get};
ghost use Rattle.net_theory.specs.Document.{is_same, Name};
ghost use Rattle.net_theory.specs.NetOf.{driver_of, graph_of as graph_of_tables, with_signal, with_sources};
ghost use Rattle.net_theory.specs.NetOf.{signal_of as signal_of_name};
ghost use Rattle.net_theory.specs.Document.{latch_of, latch_input, latch_output, sink_names};
ghost use Rattle.net_build.specs.Parts.{graph_by as graph_by_drivers, with_driver};

use graph_core::Fanins;
use indexmap::IndexMap;
use net_core::{Name, Sig};
use net_document::{Document, LatchLine, Table};
use std::alloc::{AllocError, Global};

/// Records that `table` drives `name`.
#[tactic(auto, using(crate::proofs::Names::updates))]
fn set_driver(drivers: &mut IndexMap<Name, u32>, name: &Name, table: u32) -> Result<(), AllocError>
    ensures { OnOk result (get is_same drivers.new ≡ with_driver (get is_same drivers.old) name.now table) }
{
    drivers.insert(name.copied()?, table)?;
    Ok(())
}

/// Records the drivers of names; if several tables drive a name, the first one.
#[tactic(auto, using(crate::proofs::Drivers::drivers))]
fn set_drivers(drivers: &mut IndexMap<Name, u32>, tables: &[Table]) -> Result<(), AllocError>
    requires none { get is_same drivers.old ≡ (λ n. None) }
    requires few { length tables.now < 2 ^ 31 }
    ensures { OnOk result (get is_same drivers.new ≡ driver_of tables.now) }
{
    let mut left = tables;
    while let Some((table, rest)) = left.split_last() {
        set_driver(drivers, &table.output, rest.len() as u32)?;
        left = rest;
    }
    Ok(())
}

/// The tables that drive `names`, in order.
fn reads_of(
    alloc: Global,
    drivers: &IndexMap<Name, u32>,
    names: &[Name],
) -> Result<Fanins, AllocError>
    ensures { IfOk result (λ r. r ≡ filter_map (get is_same drivers.now) names.now) }
{
    let mut reads = Vec::new(alloc);
    let mut left = names;
    while let Some((name, rest)) = left.split_first() {
        left = rest;
        if let Some(table) = drivers.get(name) {
            reads.push(*table)?;
        }
    }
    Ok(Fanins::new(reads))
}

/// For each table its fanins, looked up in `drivers`.
#[tactic(auto, unfolding(crate::specs::Parts::graph_by))]
fn graph_by(
    alloc: Global,
    drivers: &IndexMap<Name, u32>,
    tables: &[Table],
) -> Result<Vec<Fanins>, AllocError>
    ensures { IfOk result (λ graph. graph.items ≡ graph_by_drivers (get is_same drivers.now) tables.now) }
{
    let mut graph = Vec::new(alloc);
    let mut left = tables;
    while let Some((table, rest)) = left.split_first() {
        graph.push(reads_of(alloc, drivers, &table.inputs)?)?;
        left = rest;
    }
    Ok(graph)
}

/// For each table its fanins: the tables that drive its inputs, in order.
#[tactic(auto, using(crate::proofs::Drivers::graphs))]
pub fn graph_of(alloc: Global, tables: &[Table]) -> Result<Vec<Fanins>, AllocError>
    requires { length tables.now < 2 ^ 31 }
    ensures { IfOk result (λ graph. graph.items ≡ graph_of_tables tables.now) }
{
    let mut drivers = IndexMap::new(alloc);
    set_drivers(&mut drivers, tables)?;
    graph_by(alloc, &drivers, tables)
}

/// Binds a name to a signal.
#[tactic(auto, using(crate::proofs::Names::updates))]
pub fn set_signal(
    signals: &mut IndexMap<Name, Sig>,
    name: &Name,
    sig: Sig,
) -> Result<(), AllocError>
    ensures { OnOk result (get is_same signals.new ≡ with_signal (get is_same signals.old) name.now sig) }
{
    signals.insert(name.copied()?, sig)?;
    Ok(())
}

/// The signal of a name.
pub fn signal_of(signals: &IndexMap<Name, Sig>, name: &Name) -> Sig
    ensures { result ≡ signal_of_name (get is_same signals.now) name.now }
{
    match signals.get(name) {
        Some(sig) => *sig,
        None => Sig::Zero,
    }
}

/// Adds the signals of `names` to `found`.
pub fn push_signals(
    signals: &IndexMap<Name, Sig>,
    names: &[Name],
    found: &mut Vec<Sig>,
) -> Result<(), AllocError>
    ensures { OnOk result (found.new.items ≡ found.old.items ++
        map (signal_of_name (get is_same signals.now)) names.now) }
{
    let mut left = names;
    while let Some((name, rest)) = left.split_first() {
        found.push(signal_of(signals, name))?;
        left = rest;
    }
    Ok(())
}

/// Adds the signals of the latches' inputs to `found`.
fn push_latch_signals(
    signals: &IndexMap<Name, Sig>,
    latches: &[LatchLine],
    found: &mut Vec<Sig>,
) -> Result<(), AllocError>
    ensures { OnOk result (found.new.items ≡ found.old.items ++
        map (signal_of_name (get is_same signals.now)) (map latch_input latches.now)) }
{
    let mut left = latches;
    while let Some((latch, rest)) = left.split_first() {
        found.push(signal_of(signals, &latch.input))?;
        left = rest;
    }
    Ok(())
}

/// Binds `names` to the nodes from `first` on.
#[tactic(auto, unfolding(net_theory::specs::NetOf::with_sources))]
pub fn number_names(
    signals: &mut IndexMap<Name, Sig>,
    first: u32,
    names: &[Name],
) -> Result<(), AllocError>
    requires { first + length names.now < 2 ^ 32 }
    ensures { OnOk result (get is_same signals.new ≡ with_sources (get is_same signals.old) first names.now) }
{
    let mut node = first;
    let mut left = names;
    while let Some((name, rest)) = left.split_first() {
        set_signal(signals, name, Sig::Node(node))?;
        node += 1;
        left = rest;
    }
    Ok(())
}

/// Binds the latches' outputs to the nodes from `first` on.
#[tactic(auto, unfolding(net_theory::specs::NetOf::with_sources))]
pub fn number_latches(
    signals: &mut IndexMap<Name, Sig>,
    first: u32,
    latches: &[LatchLine],
) -> Result<(), AllocError>
    requires { first + length latches.now < 2 ^ 32 }
    ensures { OnOk result (get is_same signals.new ≡ with_sources (get is_same signals.old) first
        (map latch_output (map latch_of latches.now))) }
{
    let mut node = first;
    let mut left = latches;
    while let Some((latch, rest)) = left.split_first() {
        set_signal(signals, &latch.latch.output, Sig::Node(node))?;
        node += 1;
        left = rest;
    }
    Ok(())
}

/// The signals of the outputs, then of the latches' inputs.
#[tactic(auto, using(crate::proofs::Growths::sinks))]
pub fn sinks_of(
    alloc: Global,
    signals: &IndexMap<Name, Sig>,
    document: &Document,
) -> Result<Vec<Sig>, AllocError>
    ensures { IfOk result (λ sinks. sinks.items ≡ map (signal_of_name (get is_same signals.now))
        (sink_names document.now)) }
{
    let mut sinks = Vec::new(alloc);
    push_signals(signals, &document.outputs, &mut sinks)?;
    push_latch_signals(signals, &document.latches, &mut sinks)?;
    Ok(sinks)
}
