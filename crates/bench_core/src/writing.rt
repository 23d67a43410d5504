//! The writer: the BLIF document of a circuit with its tables as gates, appended at once, so that nothing is
//! appended if memory runs out.

ghost use Rattle.std.specs.Prelude.{◌≡◌, ◌++◌, OnOk, OnErr};
ghost use Rattle.net_core.specs.Names.{HasRoomForNames};
ghost use Rattle.blif_core.specs.Written.{written};
ghost use Rattle.bench_core.specs.Gates.{first_source as first_source_of};
ghost use Rattle.bench_core.specs.Spelling.{circuit_text};
ghost use Rattle.bench_core.specs.Writable.{IsBenchCircuit};

use crate::spelling::write_document;
use blif_core::document_of;
use net_core::Circuit;
use net_document::Document;
use std::alloc::AllocError;

/// The name of the first source: an input, or else the output of a latch; empty if there is neither.
#[tactic(auto, using(crate::proofs::Firsts::firsts))]
pub fn first_source(circuit: &Circuit) -> &[u8]
    ensures { result.now ≡ first_source_of circuit.now }
{
    if let Some((name, _)) = circuit.inputs.split_first() {
        return name.get();
    }
    match circuit.latches.split_first() {
        Some((latch, _)) => latch.output.get(),
        None => &[],
    }
}

/// Appends the BENCH text of a circuit that BENCH can express and whose BLIF document is `document`. The text is
/// built separately and appended at once, so that nothing is appended if memory runs out.
#[tactic(auto, using(crate::proofs::Small::smalls))]
pub fn write_gates(
    text: &mut Vec<u8>,
    circuit: &Circuit,
    document: &Document,
) -> Result<(), AllocError>
    requires fits { IsBenchCircuit circuit.now }
    requires document { document.now ≡ written circuit.now }
    ensures ok { OnOk result (text.new.items ≡ text.old.items ++ circuit_text circuit.now) }
    ensures err { OnErr result (text.new.items ≡ text.old.items) }
{
    let mut whole = Vec::new(*text.allocator());
    write_document(&mut whole, first_source(circuit), document)?;
    text.extend_from_slice(&whole)
}

/// Appends the BENCH text of a circuit that BENCH can express: the inputs, the outputs, the latches, the gates in
/// the order of their nodes with the names of `gate_names`, the constants that latches read, and the outputs that
/// no source or gate names. A constant is written as a gate over the first source.
///
/// Preconditions: the model's name is `top`; there are no clocks; names don't contain the marks `(`, `)`, `,`,
/// `=`; latches have no controls and initial values; a gate with two distinct fanins is AND, OR, XOR or a
/// complement of these; and there is a source, unless there are neither gates nor sinks. So the text loses
/// nothing and is read back as an equivalent circuit (`circuits_are_read_back` of `bench_laws`).
pub fn write_bench(circuit: &Circuit, out: &mut Vec<u8>) -> Result<(), AllocError>
    requires { IsBenchCircuit circuit.now }
    ensures ok { OnOk result (out.new.items ≡ out.old.items ++ circuit_text circuit.now) }
    ensures room { OnOk result (HasRoomForNames circuit.now) }
    ensures err { OnErr result (out.new.items ≡ out.old.items) }
{
    let document = document_of(*out.allocator(), circuit)?;
    write_gates(out, circuit, &document)
}
