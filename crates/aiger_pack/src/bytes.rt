//! The bytes of the binary form of a file whose variables are the inputs, the latches and the gates in this order. Its
//! last outputs are bad states and constraints. Nothing is promised of them: `pack` tests them.

use aiger_sections::Sections;
use aiger_text::{AigFile, AigGate, AigLatch, PortKind, Reset, Symbol};
use std::alloc::{AllocError, Global};
use text_core::push_number;

/// The most of a count.
const MOST_COUNT: usize = 2_097_152;

/// Adds a number, 7 bits a byte.
fn push_code(out: &mut Vec<u8>, number: u32) -> Result<(), AllocError> {
    let mut left = number;
    for _ in 0..4 {
        if left < 128 {
            out.push(left as u8)?;
            return Ok(());
        }
        out.push((left % 128) as u8 + 128)?;
        left /= 128;
    }
    Ok(())
}

/// Adds a count, after a blank.
fn push_count(out: &mut Vec<u8>, count: usize) -> Result<(), AllocError> {
    out.push(b' ')?;
    push_number(out, count.min(MOST_COUNT) as u32)
}

/// Adds the counts of bad states and constraints; those of 0 at the end are left out.
fn push_further(out: &mut Vec<u8>, sections: Sections) -> Result<(), AllocError> {
    if sections.bads > 0 || sections.constraints > 0 {
        push_count(out, sections.bads as usize)?;
    }
    if sections.constraints > 0 {
        push_count(out, sections.constraints as usize)?;
    }
    Ok(())
}

/// Adds the header.
fn push_header(out: &mut Vec<u8>, sections: Sections, file: &AigFile) -> Result<(), AllocError> {
    out.extend_from_slice(b"aig")?;
    push_count(out, file.variables as usize)?;
    push_count(out, file.inputs.len())?;
    push_count(out, file.latches.len())?;
    push_count(out, sections.outputs as usize)?;
    push_count(out, file.gates.len())?;
    push_further(out, sections)?;
    out.push(b'\n')?;
    Ok(())
}

/// Adds a latch: its next state, and its initial value if it isn't 0.
fn push_latch(out: &mut Vec<u8>, latch: AigLatch) -> Result<(), AllocError> {
    push_number(out, latch.next)?;
    match latch.reset {
        Reset::Zero => {}
        Reset::One => out.extend_from_slice(b" 1")?,
        Reset::Undefined => {
            out.push(b' ')?;
            push_number(out, latch.literal)?;
        }
    }
    out.push(b'\n')?;
    Ok(())
}

/// Adds latches.
fn push_latches(out: &mut Vec<u8>, latches: &[AigLatch]) -> Result<(), AllocError> {
    for latch in latches {
        push_latch(out, *latch)?;
    }
    Ok(())
}

/// Adds outputs.
fn push_outputs(out: &mut Vec<u8>, outputs: &[u32]) -> Result<(), AllocError> {
    for literal in outputs {
        push_number(out, *literal)?;
        out.push(b'\n')?;
    }
    Ok(())
}

/// Adds gates.
fn push_gates(out: &mut Vec<u8>, gates: &[AigGate]) -> Result<(), AllocError> {
    for gate in gates {
        push_code(out, gate.literal.saturating_sub(gate.first))?;
        push_code(out, gate.first.saturating_sub(gate.second))?;
    }
    Ok(())
}

/// Adds the key of an output.
fn push_output_key(out: &mut Vec<u8>, sections: Sections, position: u32) -> Result<(), AllocError> {
    let further = position.saturating_sub(sections.outputs);
    let last = further.saturating_sub(sections.bads);
    if position < sections.outputs {
        out.push(b'o')?;
        return push_number(out, position);
    }
    if further < sections.bads {
        out.push(b'b')?;
        return push_number(out, further);
    }
    out.push(b'c')?;
    push_number(out, last)
}

/// Adds the key of a symbol.
fn push_key(out: &mut Vec<u8>, sections: Sections, symbol: &Symbol) -> Result<(), AllocError> {
    match symbol.kind {
        PortKind::Input => out.push(b'i')?,
        PortKind::Latch => out.push(b'l')?,
        PortKind::Output => return push_output_key(out, sections, symbol.position),
    }
    push_number(out, symbol.position)
}

/// Adds symbols.
fn push_symbols(
    out: &mut Vec<u8>,
    sections: Sections,
    symbols: &[Symbol],
) -> Result<(), AllocError> {
    for symbol in symbols {
        push_key(out, sections, symbol)?;
        out.push(b' ')?;
        out.extend_from_slice(symbol.name.get())?;
        out.push(b'\n')?;
    }
    Ok(())
}

/// The bytes.
pub(crate) fn binary_bytes(
    alloc: Global,
    sections: Sections,
    file: &AigFile,
) -> Result<Vec<u8>, AllocError> {
    let mut out = Vec::new(alloc);
    push_header(&mut out, sections, file)?;
    push_latches(&mut out, &file.latches)?;
    push_outputs(&mut out, &file.outputs)?;
    push_gates(&mut out, &file.gates)?;
    push_symbols(&mut out, sections, &file.symbols)?;
    Ok(out)
}
