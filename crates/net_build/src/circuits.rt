//! The circuit of a parsed document.

ghost use Rattle.std.specs.Prelude.{◌≡◌, ℕ, ◌+◌, ◌*◌, ◌<◌, ◌≤◌, ◌^◌, List, map, length, true, Some, None, IfOk, IfErr};
ghost use Rattle.net_theory.specs.Document.{latch_of, are_distinct, table_output};
ghost use Rattle.graph_core.specs.Visit.{order_of};
ghost use Rattle.net_theory.specs.Cost.{cost};
ghost use Rattle.net_theory.specs.Dependence.{IsFirstCyclic};
ghost use Rattle.net_theory.specs.WellFormed.{IsWellFormed};
ghost use Rattle.net_theory.specs.Circuit.{IsCircuitOf};
ghost use Rattle.net_theory.specs.CircuitLaws.{circuit_of as circuit_with};
ghost use Rattle.net_theory.specs.NetOf.{source_count, graph_of as graph_of_tables};
ghost use Rattle.net_document.specs.Listed.{IsWellListed, AreControlsFree};
ghost use Rattle.net_document.specs.Refusals.{fault_of, IsRefusedListing};
ghost use Rattle.net_build.specs.Parts.{IsCyclicError};
ghost use Rattle.net_theory.specs.Limits.{most_gates};

use crate::building::{grow, table_at};
use crate::checks::check;
use crate::signals::graph_of;
use graph_core::{Fanins, first_cyclic, visit_all};
use net_core::{Circuit, Latch, Name, Net, NetError};
use net_document::{Document, LatchLine, Listed};
use std::alloc::{AllocError, Global};

/// The output of the first table on a combinational loop; there must be no topological order.
fn cyclic_name(alloc: Global, document: &Document, graph: &[Fanins]) -> Result<Name, AllocError>
    requires few { length document.now.tables < 2 ^ 31 }
    requires distinct { are_distinct (map table_output document.now.tables) ≡ true }
    requires graph { graph.now ≡ graph_of_tables document.now.tables }
    requires none { order_of graph.now ≡ None }
    ensures { IfOk result (IsFirstCyclic document.now) }
{
    let first = first_cyclic(alloc, graph)?;
    let Some(table) = first else {
        unreachable!();
    };
    let name = table_at(document, table).output.copied()?;
    Ok(name)
}

/// The latches without their inputs.
fn latches_of(alloc: Global, lines: Vec<LatchLine>) -> Result<Vec<Latch>, AllocError>
    ensures { IfOk result (λ latches. latches.items ≡ map latch_of lines.items) }
{
    let mut latches = Vec::new(alloc);
    for line in lines {
        let LatchLine { input: _, latch } = line;
        latches.push(latch)?;
    }
    Ok(latches)
}

/// The circuit with a document's names and this net.
fn with_net(alloc: Global, document: Document, net: Net) -> Result<Circuit, AllocError>
    ensures { IfOk result (λ c. c ≡ circuit_with document net) }
{
    let Document {
        model,
        inputs,
        outputs,
        clocks,
        latches,
        tables: _,
    } = document;
    Ok(Circuit {
        model,
        inputs,
        outputs,
        clocks,
        latches: latches_of(alloc, latches)?,
        net,
    })
}

/// For each table of a document its fanins: the tables that drive its inputs.
#[tactic(auto, using(crate::proofs::Wholes::circuits))]
fn document_graph(alloc: Global, document: &Document) -> Result<Vec<Fanins>, AllocError>
    requires { length document.now.tables < 2 ^ 31 }
    ensures graph { IfOk result (λ graph. graph.items ≡ graph_of_tables document.now.tables) }
    ensures count { IfOk result (λ graph. length graph.items ≡ length document.now.tables) }
{
    graph_of(alloc, &document.tables)
}

/// The net of a document, or an error with the first table's output on a combinational loop.
fn ordered_net(alloc: Global, document: &Document) -> Result<Net, NetError>
    requires small { source_count document.now + most_gates < 2 ^ 31 }
    requires few { length document.now.tables < 2 ^ 31 }
    requires distinct { are_distinct (map table_output document.now.tables) ≡ true }
    requires ready { (order : List ℕ) → order_of (graph_of_tables document.now.tables) ≡ Some order →
        IsWellFormed document.now }
    ensures well { IfOk result (λ _. IsWellFormed document.now) }
    ensures circuit { IfOk result (λ net. IsCircuitOf document.now (circuit_with document.now net)) }
    ensures cyclic { IfErr result (IsCyclicError document.now) }
{
    let graph = document_graph(alloc, document)?;
    let found = visit_all(alloc, &graph)?;
    let Some(order) = found else {
        return Err(NetError::Cycle(cyclic_name(alloc, document, &graph)?));
    };
    let net = grow(alloc, document, &order)?;
    Ok(net)
}

/// The net of a document, or the error if the document isn't well formed or has more gates than `most`.
#[tactic(auto, using(crate::proofs::Wholes::circuits))]
fn listed_net(alloc: Global, listed: &Listed, most: u32) -> Result<Net, NetError>
    requires listed { IsWellListed listed.now }
    requires free { AreControlsFree listed.now.document }
    requires small { 2 * source_count listed.now.document + cost listed.now.document < 2 ^ 31 }
    requires few { length listed.now.document.tables < 2 ^ 31 }
    requires limit { most ≤ most_gates }
    ensures well_formed { IfOk result (λ _. IsWellFormed listed.now.document) }
    ensures circuit { IfOk result (λ net. IsCircuitOf listed.now.document (circuit_with listed.now.document net)) }
    ensures good { IfOk result (λ _. fault_of most listed.now ≡ None) }
    ensures refused { IfErr result (IsRefusedListing most listed.now) }
{
    check(alloc, listed, most)?;
    ordered_net(alloc, &listed.document)
}

/// The circuit of a document, or the first of these errors: more gates than `most`, which is at most 1,000,000, a name
/// that is driven twice, an undriven name, a combinational loop.
///
/// The order of the names in an error is that of the lists of driven and used names.
pub fn circuit_of(alloc: Global, listed: Listed, most: u32) -> Result<Circuit, NetError>
    requires listed { IsWellListed listed }
    requires free { AreControlsFree listed.document }
    requires small { 2 * source_count listed.document + cost listed.document < 2 ^ 31 }
    requires few { length listed.document.tables < 2 ^ 31 }
    requires limit { most ≤ most_gates }
    ensures well_formed { IfOk result (λ _. IsWellFormed listed.document) }
    ensures circuit { IfOk result (IsCircuitOf listed.document) }
    ensures good { IfOk result (λ _. fault_of most listed ≡ None) }
    ensures refused { IfErr result (IsRefusedListing most listed) }
{
    let net = listed_net(alloc, &listed, most)?;
    Ok(with_net(alloc, listed.document, net)?)
}
