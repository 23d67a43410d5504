//! Tests of written files: a symbol stands where its name isn't the one that the reader gives without a symbol.

use aiger_core::read_aiger;
use aiger_laws::aiger_is_a_format;
use aiger_write::write_aiger;
use net_core::all_names;
use std::alloc::{AllocError, Global};

/// The text that is written of a circuit that a text lists; empty if the text is refused.
fn rewritten(alloc: Global, text: &[u8]) -> Result<Vec<u8>, AllocError> {
    // for the prover: the circuit of a text can be written
    aiger_is_a_format();
    let mut out = Vec::new(alloc);
    if text.len() > 100_000 {
        return Ok(out);
    }
    match read_aiger(alloc, text) {
        Ok(circuit) => {
            let _names = all_names(alloc, &circuit)?; // for the prover: there is room for names
            write_aiger(&circuit, &mut out)?;
        }
        Err(error) => drop(error),
    }
    Ok(out)
}

/// Whether what is written of a text is another one.
fn is_written_as(alloc: Global, text: &[u8], other: &[u8]) -> Result<bool, AllocError> {
    let out = rewritten(alloc, text)?;
    Ok(out.as_slice() == other)
}

/// Texts, with what is written of them.
const TEXTS: &[(&str, &[u8], &[u8])] = &[
    (
        "no symbols",
        b"aag 5 2 1 1 1\n2\n4\n6 10\n10\n10 6 4\n",
        b"aag 4 2 1 1 1\n2\n4\n6 8\n8\n8 6 4\n",
    ),
    (
        "each symbol says what holds without it",
        b"aag 1 1 0 1 0\n2\n2\ni0 i0\no0 o0\n",
        b"aag 1 1 0 1 0\n2\n2\n",
    ),
    (
        "names of other places",
        b"aag 3 2 0 1 1\n2\n4\n6\n6 4 2\ni0 i1\ni1 i0\no0 l0\n",
        b"aag 3 2 0 1 1\n2\n4\n6\n6 4 2\ni0 i1\ni1 i0\no0 l0\n",
    ),
    (
        "a name beside names that aren't given",
        b"aag 3 2 0 1 1\n2\n4\n6\n6 4 2\ni1 b[0]\n",
        b"aag 3 2 0 1 1\n2\n4\n6\n6 4 2\ni1 b[0]\n",
    ),
];

#[test]
fn symbols_stand_where_names_are_given(rt: HostRuntime) {
    for &(name, text, other) in TEXTS {
        let is = is_written_as(rt.alloc(), text, other);
        assert!(rt; matches!(is, Ok(true)), "{name}");
    }
}
