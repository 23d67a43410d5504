//! The file of a circuit, and its text.

ghost use Rattle.std.specs.Prelude.{◌≡◌, ◌+◌, ◌++◌, length, drop, OnOk, OnErr, IfOk};
ghost use Rattle.aiger_text.specs.Spelling.{spelled};
ghost use Rattle.aiger_core.specs.Written as spec;
ghost use Rattle.aiger_laws.specs.Writable.{CanWriteAiger};

use crate::gates::{Mapped, mapped_net};
use crate::literals::{evens, sig_literals};
use crate::ports::{latches_from, push_latch_symbols, push_symbols};
use aiger_laws::files_of_circuits_can_be_spelled;
use aiger_text::{AigFile, AigLatch, PortKind, Symbol, write_ascii};
use net_core::Circuit;
use std::alloc::{AllocError, Global};

/// The symbols of the inputs, latches and outputs.
#[tactic(auto, using(crate::proofs::Files::bounds), unfolding(aiger_core::specs::Written::file_of))]
fn circuit_symbols(alloc: Global, circuit: &Circuit) -> Result<Vec<Symbol>, AllocError>
    requires { CanWriteAiger circuit.now }
    ensures { IfOk result (λ ss. ss.items ≡ (spec.file_of circuit.now).symbols) }
{
    let mut symbols = Vec::new(alloc);
    push_symbols(&mut symbols, PortKind::Input, &circuit.inputs)?;
    push_latch_symbols(&mut symbols, &circuit.latches)?;
    push_symbols(&mut symbols, PortKind::Output, &circuit.outputs)?;
    Ok(symbols)
}

/// The latches of a circuit, by the literals of its sinks.
#[tactic(auto, using(crate::proofs::Files::bounds))]
fn circuit_latches(
    alloc: Global,
    circuit: &Circuit,
    sinks: &[u32],
) -> Result<Vec<AigLatch>, AllocError>
    requires can { CanWriteAiger circuit.now }
    requires sinks { length sinks.now ≡ length circuit.now.net.sinks }
    ensures { IfOk result (λ ls. ls.items ≡ spec.latches_from (1 + length circuit.now.inputs) circuit.now.latches
        (drop (length circuit.now.outputs) sinks.now)) }
{
    let first = 1 + circuit.inputs.len() as u32;
    latches_from(
        alloc,
        first,
        &circuit.latches,
        &sinks[circuit.outputs.len()..],
    )
}

/// The AIGER file of a circuit that AIGER can express: the inputs are the first variables, then come the latches and
/// the AND gates, in the order of the net's nodes. An input, a latch or an output has a symbol, unless the reader gives
/// its name without one.
#[tactic(auto, using(crate::proofs::Files::files))]
pub fn aiger_file(alloc: Global, circuit: &Circuit) -> Result<AigFile, AllocError>
    requires { CanWriteAiger circuit.now }
    ensures { IfOk result (λ f. f ≡ spec.file_of circuit.now) }
{
    let Mapped { gates, literals } = mapped_net(alloc, &circuit.net)?;
    let sinks = sig_literals(alloc, &literals, circuit.net.sinks())?;
    let inputs = evens(alloc, 1, circuit.inputs.len() as u32)?;
    let latches = circuit_latches(alloc, circuit, &sinks)?;
    let outputs = Vec::from_slice(alloc, &sinks[..circuit.outputs.len()])?;
    let symbols = circuit_symbols(alloc, circuit)?;
    Ok(AigFile {
        variables: circuit.net.sources() + gates.len() as u32,
        inputs,
        latches,
        outputs,
        gates,
        symbols,
    })
}

/// Appends the AIGER text (the ASCII form) of a circuit that AIGER can express: the model's name is `top`, there are no
/// clocks, latches have no controls and an initial value 0, 1 or don't-care, each gate is AND or OR with complements, a
/// constant, a copy or a complement, and no name begins with `&`. The text is built separately and appended at once, so
/// that nothing is appended if memory runs out. It is read back as an equivalent circuit (`circuits_are_read_back` of
/// `aiger_laws`).
pub fn write_aiger(circuit: &Circuit, out: &mut Vec<u8>) -> Result<(), AllocError>
    requires { CanWriteAiger circuit.now }
    ensures ok { OnOk result (out.new.items ≡ out.old.items ++ spelled (spec.file_of circuit.now)) }
    ensures err { OnErr result (out.new.items ≡ out.old.items) }
{
    // for the prover: the file of a circuit that can be written is one that can be spelled
    files_of_circuits_can_be_spelled();
    let file = aiger_file(*out.allocator(), circuit)?;
    write_ascii(out, &file)
}
