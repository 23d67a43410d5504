//! Appending the gates of tables to a net.

ghost use Rattle.std.specs.Prelude.{◌≡◌, ◌+◌, ◌<◌, ◌^◌, [], length, slice_get, None, OnOk, IfOk};
ghost use Rattle.indexmap.specs.IndexMap.{get};
ghost use Rattle.net_theory.specs.Document.{is_same};
ghost use Rattle.net_theory.specs.WellFormed.{IsTable, IsWellFormed};
ghost use Rattle.net_core.specs.Wholes.{cover_of, IsBody};
ghost use Rattle.graph_core.specs.VisitLaws.{IsTopologicalOrder};
ghost use Rattle.net_theory.specs.NetOf.{grown_by, table_built, with_table, with_tables, graph_of, with_sources};
ghost use Rattle.net_theory.specs.NetOf.{source_count, net_in_order};
ghost use Rattle.net_theory.specs.Document.{source_names};
ghost use Rattle.net_build.specs.Parts.{growth, AreSignalsBelow, CanExpand, FitsTable, IsPartlyBuilt};
ghost use Rattle.net_theory.specs.Limits.{most_gates};

use crate::merging::{first_alone, merged_cover};
use crate::signals::{number_latches, number_names, push_signals, set_signal, sinks_of};
use indexmap::IndexMap;
use net_core::{Body, Name, Net, Sig, expand_body};
use net_document::{Document, Table};
use std::alloc::{AllocError, Global};

/// Appends the gates of a body over the inputs `names` to a net and binds `output` to the resulting signal.
#[tactic(auto, using(crate::proofs::Growths::covers))]
fn add_body(
    alloc: Global,
    net: &mut Net,
    signals: &mut IndexMap<Name, Sig>,
    body: &Body,
    names: &[Name],
    output: &Name,
) -> Result<(), AllocError>
    requires body { IsBody body.now }
    requires fits { CanExpand net.old (cover_of body.now) names.now }
    requires below { AreSignalsBelow net.old (get is_same signals.old) }
    ensures grown { OnOk result (growth net.new.gates (get is_same signals.new) ≡
        grown_by (growth net.old.gates (get is_same signals.old)) output.now
        (table_built net.old.sources (growth net.old.gates (get is_same signals.old)) (record {
          inputs = names.now;
          output = output.now;
          cover = cover_of body.now;
        }))) }
    ensures sources { OnOk result (net.new.sources ≡ net.old.sources) }
    ensures sinks { OnOk result (net.new.sinks ≡ net.old.sinks) }
{
    let mut inputs = Vec::new(alloc);
    push_signals(signals, names, &mut inputs)?;
    let sig = expand_body(alloc, net, body, &inputs)?;
    set_signal(signals, output, sig)
}

/// Appends the gates of a table to a net.
#[tactic(auto, using(crate::proofs::Growths::tables, crate::proofs::Merged::body_good), // for the prover
unfolding(net_theory::specs::NetOf::with_table))]
fn add_table(
    alloc: Global,
    net: &mut Net,
    signals: &mut IndexMap<Name, Sig>,
    table: &Table,
) -> Result<(), AllocError>
    requires table { IsTable table.now }
    requires fits { FitsTable net.old table.now }
    requires below { AreSignalsBelow net.old (get is_same signals.old) }
    ensures grown { OnOk result (growth net.new.gates (get is_same signals.new) ≡
        with_table net.old.sources (growth net.old.gates (get is_same signals.old)) table.now) }
    ensures sources { OnOk result (net.new.sources ≡ net.old.sources) }
    ensures sinks { OnOk result (net.new.sinks ≡ net.old.sinks) }
{
    match merged_cover(alloc, table)? {
        Some(cover) => {
            let names = first_alone(&table.inputs);
            let body = Body::Cubes(cover);
            add_body(alloc, net, signals, &body, names, &table.output)
        }
        None => add_body(
            alloc,
            net,
            signals,
            &table.body,
            &table.inputs,
            &table.output,
        ),
    }
}

/// The table with index `table` of a document.
pub fn table_at(document: &Document, table: u32) -> &Table
    requires { table < length document.now.tables }
    ensures { slice_get document.now.tables table ≡ Some result.now }
{
    &document.tables[table as usize]
}

/// Appends the gates of all tables to a net, in the given order.
#[tactic(auto, using(crate::proofs::Growths::runs), unfolding(net_theory::specs::NetOf::with_tables))]
fn add_tables(
    alloc: Global,
    net: &mut Net,
    signals: &mut IndexMap<Name, Sig>,
    document: &Document,
    order: &[u32],
) -> Result<(), AllocError>
    requires well { IsWellFormed document.now }
    requires small { source_count document.now + most_gates < 2 ^ 31 }
    requires begun { IsPartlyBuilt document.now net.old (get is_same signals.old) order.now }
    ensures grown { OnOk result (growth net.new.gates (get is_same signals.new) ≡
        with_tables (source_count document.now) document.now.tables (growth net.old.gates (get is_same signals.old))
        order.now) }
    ensures begun { OnOk result (IsPartlyBuilt document.now net.new (get is_same signals.new) []) }
{
    let mut left = order;
    while let Some((table, rest)) = left.split_first() {
        add_table(alloc, net, signals, table_at(document, *table))?;
        left = rest;
    }
    Ok(())
}

/// Binds the names of the sources to the nodes from 1 on.
#[tactic(auto, using(crate::proofs::Growths::sources))]
fn number_sources(signals: &mut IndexMap<Name, Sig>, document: &Document) -> Result<(), AllocError>
    requires { source_count document.now + most_gates < 2 ^ 31 }
    ensures { OnOk result (get is_same signals.new ≡
        with_sources (get is_same signals.old) 1 (source_names document.now)) }
{
    number_names(signals, 1, &document.inputs)?;
    let next = 1 + document.inputs.len() as u32;
    number_latches(signals, next, &document.latches)
}

/// The net of a document whose tables have the topological order `order`; `signals` has the signals of the
/// sources.
#[tactic(auto, using(crate::proofs::Growths::nets), unfolding(net_theory::specs::NetOf::net_in_order))]
fn net_over(
    alloc: Global,
    document: &Document,
    order: &[u32],
    signals: &mut IndexMap<Name, Sig>,
) -> Result<Net, AllocError>
    requires well { IsWellFormed document.now }
    requires small { source_count document.now + most_gates < 2 ^ 31 }
    requires order { IsTopologicalOrder (graph_of document.now.tables) order.now }
    requires signals { get is_same signals.old ≡ with_sources (λ n. None) 1 (source_names document.now) }
    ensures { IfOk result (λ net. net ≡ net_in_order document.now order.now) }
{
    let sources = document.inputs.len() + document.latches.len();
    let mut net = Net::new(sources as u32, Vec::new(alloc), Vec::new(alloc));
    add_tables(alloc, &mut net, signals, document, order)?;
    let sinks = sinks_of(alloc, signals, document)?;
    Ok(net.with_sinks(sinks))
}

/// The net of a document whose tables have the topological order `order`.
pub fn grow(alloc: Global, document: &Document, order: &[u32]) -> Result<Net, AllocError>
    requires well { IsWellFormed document.now }
    requires small { source_count document.now + most_gates < 2 ^ 31 }
    requires order { IsTopologicalOrder (graph_of document.now.tables) order.now }
    ensures { IfOk result (λ net. net ≡ net_in_order document.now order.now) }
{
    let mut signals = IndexMap::new(alloc);
    number_sources(&mut signals, document)?;
    net_over(alloc, document, order, &mut signals)
}
