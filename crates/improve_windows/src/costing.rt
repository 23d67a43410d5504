//! The cost of a circuit as a text. It is computed for BLIF; BENCH's is the same (`bench_laws`).
ghost use Rattle.std.specs.Prelude.{◌≡◌, ◌≤◌, ◌<◌, ◌^◌, length, All, IfOk};
ghost use Rattle.net_theory.specs.WellFormed.{IsTable};
ghost use Rattle.net_theory.specs.Circuit.{IsProper};
ghost use Rattle.net_theory.specs.Cost.{cost};
ghost use Rattle.net_core.specs.Names.{HasRoomForNames};
ghost use Rattle.blif_core.specs.Written.{written as written_of};

use blif_core::{Circuit, document_of};
use blif_laws::blif_is_a_format;
use net_build::total_cost;
use net_document::Document;
use std::alloc::{AllocError, Global};

/// The document that BLIF writes for a circuit, and its cost.
#[derive(Drop)]
pub struct CostedDocument {
    pub document: Document,
    pub cost: u32,
}

/// The cost of a document.
#[tactic(auto, unfolding(net_theory::specs::Cost::cost))]
fn document_cost(alloc: Global, document: &Document) -> Result<u32, AllocError>
    requires tables { All IsTable document.now.tables }
    requires small { cost document.now < 2 ^ 32 }
    ensures { IfOk result (λ x. x ≡ cost document.now) }
{
    total_cost(alloc, &document.tables)
}

/// The document that BLIF writes for a circuit, and its cost.
#[tactic(auto, using(crate::specs::CostLaws::costing))]
pub fn costed(alloc: Global, circuit: &Circuit) -> Result<CostedDocument, AllocError>
    requires { IsProper circuit.now }
    ensures document { IfOk result (λ w. w.document ≡ written_of circuit.now) }
    ensures cost { IfOk result (λ w. w.cost ≡ cost (written_of circuit.now)) }
    ensures cheap { IfOk result (λ w. w.cost ≤ length circuit.now.net.gates) }
    ensures room { IfOk result (λ _. HasRoomForNames circuit.now) }
{
    // for the prover: the laws of BLIF
    blif_is_a_format();
    let document = document_of(alloc, circuit)?;
    let cost = document_cost(alloc, &document)?;
    Ok(CostedDocument { document, cost })
}
