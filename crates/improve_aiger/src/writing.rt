//! The text of a circuit, and what it costs.
ghost use Rattle.std.specs.Prelude.{◌≡◌, ◌≤◌, ◌<◌, ◌^◌, length, All, IfOk};
ghost use Rattle.net_theory.specs.WellFormed.{IsTable};
ghost use Rattle.net_theory.specs.Cost.{cost};
ghost use Rattle.aiger_text.specs.Valid.{IsAig};
ghost use Rattle.aiger_text.specs.Meaning.{document_of};
ghost use Rattle.aiger_text.specs.Spelling.{spelled};
ghost use Rattle.aiger_core.specs.Written.{file_of};
ghost use Rattle.aiger_laws.specs.Writable.{CanWriteAiger};

use aiger_laws::{circuits_are_read_back, files_of_circuits_can_be_spelled};
use aiger_text::{AigFile, listed_of, write_ascii};
use aiger_write::aiger_file;
use net_build::total_cost;
use net_core::Circuit;
use net_document::Document;
use std::alloc::{AllocError, Global};

/// An AIGER text, and its cost.
#[derive(Drop)]
pub struct CostedText {
    pub text: Vec<u8>,
    pub cost: u32,
}

/// The cost of a document.
#[tactic(auto, unfolding(net_theory::specs::Cost::cost))]
fn document_cost(alloc: Global, document: &Document) -> Result<u32, AllocError>
    requires tables { All IsTable document.now.tables }
    requires small { cost document.now < 2 ^ 32 }
    ensures { IfOk result (λ x. x ≡ cost document.now) }
{
    total_cost(alloc, &document.tables)
}

/// The cost of the document of a file.
#[tactic(auto, using(crate::specs::AigerLaws::costing))]
fn file_cost(alloc: Global, file: &AigFile) -> Result<u32, AllocError>
    requires { IsAig file.now }
    ensures { IfOk result (λ x. x ≡ cost (document_of file.now)) }
{
    let listed = listed_of(alloc, file)?;
    document_cost(alloc, &listed.document)
}

/// The AIGER text of a circuit that AIGER can express, and its cost.
#[tactic(auto, using(crate::specs::AigerLaws::costing))]
pub fn costed_text(alloc: Global, circuit: &Circuit) -> Result<CostedText, AllocError>
    requires { CanWriteAiger circuit.now }
    ensures text { IfOk result (λ w. w.text.items ≡ spelled (file_of circuit.now)) }
    ensures cost { IfOk result (λ w. w.cost ≡ cost (document_of (file_of circuit.now))) }
    ensures cheap { IfOk result (λ w. w.cost ≤ length circuit.now.net.gates) }
{
    // for the prover: the file can be spelled, and its document costs no more than the circuit
    files_of_circuits_can_be_spelled();
    circuits_are_read_back();
    let file = aiger_file(alloc, circuit)?;
    let cost = file_cost(alloc, &file)?;
    let mut text = Vec::new(alloc);
    write_ascii(&mut text, &file)?;
    Ok(CostedText { text, cost })
}
