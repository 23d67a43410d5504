//! Tests that circuits are read and written, and that documents are refused with the right error.

use crate::refusals::names;
use bench_core::{read_bench, write_bench};
use bench_laws::circuits_of_texts_can_be_written;
use std::alloc::{AllocError, Global};

/// Whether the circuit of `bytes` is written as `wanted`.
fn is_written(alloc: Global, bytes: &[u8], wanted: &[u8]) -> Result<bool, AllocError> {
    if bytes.len() > 100_000 {
        return Ok(false);
    }
    let circuit = match read_bench(alloc, bytes) {
        Ok(circuit) => circuit,
        Err(error) => {
            drop(error);
            return Ok(false);
        }
    };
    // for the prover: the law that `write_bench` requires
    circuits_of_texts_can_be_written();
    let mut text = Vec::new(alloc);
    write_bench(&circuit, &mut text)?;
    Ok(text.as_slice() == wanted)
}

/// Whether `bytes` are refused with the error `word` and the name `name`.
fn is_refused(alloc: Global, bytes: &[u8], word: &str, name: &[u8]) -> bool {
    if bytes.len() > 100_000 {
        return false;
    }
    let error = match read_bench(alloc, bytes) {
        Ok(circuit) => {
            drop(circuit);
            return false;
        }
        Err(error) => error,
    };
    let reported = names(&error, word, name);
    drop(error);
    reported
}

/// Texts, and the texts of their circuits.
const WRITTEN: &[(&str, &[u8], &[u8])] = &[
    (
        "NAND of three operands, joined from the left",
        b"INPUT(a)\nINPUT(b)\nINPUT(c)\nOUTPUT(y)\ny = nand(a, b, c)\n",
        b"INPUT(a)\nINPUT(b)\nINPUT(c)\nOUTPUT(y)\ng1 = AND(a, b)\ny = NAND(g1, c)\n",
    ),
    (
        "XNOR of three operands",
        b"INPUT(a)\nINPUT(b)\nINPUT(c)\nOUTPUT(y)\ny = XNOR(a, b, c)\n",
        b"INPUT(a)\nINPUT(b)\nINPUT(c)\nOUTPUT(y)\ng1 = XOR(a, b)\ny = XNOR(g1, c)\n",
    ),
    (
        "a latch, and a NOT that only it reads",
        b"INPUT(a)\nOUTPUT(q)\nq = DFF(d)\nd = NOT(a)\n",
        b"INPUT(a)\nOUTPUT(q)\nq = DFF(g1)\ng1 = NOT(a)\n",
    ),
    (
        "an operand twice, a copy, a CR, blanks and a comment",
        b"INPUT ( a )\r\nOUTPUT(y)\nOUTPUT(z)\t# two outputs\ny=XOR(a,a)\nz = BUFF(a)\n",
        b"INPUT(a)\nOUTPUT(y)\nOUTPUT(z)\ny = XOR(a, a)\nz = BUFF(a)\n",
    ),
    ("the empty text", b"", b""),
    (
        "a latch that reads itself",
        b"OUTPUT(q)\nq = DFF(q)\n",
        b"OUTPUT(q)\nq = DFF(q)\n",
    ),
];

#[test]
fn gates_of_more_operands_are_written_as_gates_of_two(rt: HostRuntime) {
    for &(name, text, wanted) in WRITTEN {
        let written = is_written(rt.alloc(), text, wanted);
        assert!(rt; matches!(written, Ok(true)), "{name}");
    }
}

/// Documents that are refused, with the error and the name.
const REFUSED: &[(&str, &[u8], &str, &[u8])] = &[
    (
        "a gate that reads itself",
        b"INPUT(a)\nOUTPUT(y)\ny = AND(y, a)\n",
        "Cycle",
        b"y",
    ),
    (
        "an input listed twice",
        b"INPUT(a)\nINPUT(a)\nOUTPUT(a)\n",
        "DrivenTwice",
        b"a",
    ),
    (
        "an operand without a driver",
        b"INPUT(a)\nOUTPUT(y)\ny = OR(a, b)\n",
        "Undriven",
        b"b",
    ),
    (
        "an output without a driver",
        b"INPUT(a)\nOUTPUT(y)\n",
        "Undriven",
        b"y",
    ),
];

#[test]
fn cycles_and_wrong_drivers_are_refused_by_name(rt: HostRuntime) {
    for &(case, text, word, name) in REFUSED {
        assert!(rt; is_refused(rt.alloc(), text, word, name), "{case}");
    }
}
