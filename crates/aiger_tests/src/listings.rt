//! Tests of the documents of files.

use aiger_text::{listed_of, read_ascii};
use net_core::Name;
use net_document::Listed;
use std::alloc::{AllocError, Global};

/// What a text lists, or None if it is refused.
fn listed_in(alloc: Global, text: &[u8]) -> Result<Option<Listed>, AllocError> {
    if text.len() > 100_000 {
        return Ok(None);
    }
    match read_ascii(alloc, text) {
        Ok(file) => Ok(Some(listed_of(alloc, &file)?)),
        Err(error) => {
            drop(error);
            Ok(None)
        }
    }
}

/// Adds names, each with a blank after it.
fn add_names(text: &mut Vec<u8>, names: &[Name]) -> Result<(), AllocError> {
    for name in names {
        text.extend_from_slice(name.get())?;
        text.push(b' ')?;
    }
    Ok(())
}

/// Whether a text lists a document that drives the names `driven` and reads the names `used`.
fn is_listed(alloc: Global, text: &[u8], driven: &[u8], used: &[u8]) -> Result<bool, AllocError> {
    let Some(listed) = listed_in(alloc, text)? else {
        return Ok(false);
    };
    let mut names = Vec::new(alloc);
    add_names(&mut names, &listed.driven)?;
    let mut others = Vec::new(alloc);
    add_names(&mut others, &listed.used)?;
    Ok(names.as_slice() == driven && others.as_slice() == used)
}

/// Texts, with the names that they drive and read, each with a blank after it.
const TEXTS: &[(&str, &[u8], &[u8], &[u8])] = &[
    (
        "NAND without symbols",
        b"aag 3 2 0 1 1\n2\n4\n7\n6 2 4\n",
        b"i0 i1 &0 &1 &6 o0 ",
        b"i0 i1 &6 ",
    ),
    (
        "a latch, and an output with its name, as yosys writes them",
        b"aag 4 2 1 2 1\n2\n4\n6 8 1\n6\n9\n8 4 7\ni0 clk\ni1 e\nl0 q[0] z\no0 q[0]\no1 y\nc\nby hand\n",
        b"clk e q[0] &0 &1 &8 &9 y ",
        b"e q[0] &8 &9 &8 ",
    ),
    (
        "a toggle, as yosys 0.23 wrote it",
        b"aag 6 2 1 2 3\n2\n4\n6 12\n6\n7\n8 7 5\n10 6 4\n12 11 9\ni0 clk\ni1 e\nl0 q s\no0 q\no1 n\nc\nby yosys\n",
        b"clk e q &0 &1 &8 &10 &12 &7 n ",
        b"q e q e &10 &8 q &7 &12 ",
    ),
    (
        "complements of an input, twice",
        b"aag 1 1 0 2 0\n2\n3\n3\n",
        b"i0 &0 &1 &3 o0 o1 ",
        b"i0 &3 &3 ",
    ),
    (
        "constants",
        b"aag 0 0 0 2 0\n0\n1\n",
        b"&0 &1 o0 o1 ",
        b"&0 &1 ",
    ),
];

#[test]
fn names_are_symbols_or_positions(rt: HostRuntime) {
    for &(name, text, driven, used) in TEXTS {
        let is = is_listed(rt.alloc(), text, driven, used);
        assert!(rt; matches!(is, Ok(true)), "{name}");
    }
}
