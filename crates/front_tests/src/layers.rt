//! Each layer below `guide` over a small program, which writes what it reads.

use crate::files::{files_of, words_of};
use format_names::{FormatPair, NetFormat};
use frame_tests::{Echo, MemoryFiles};
use front_app::{Remembering, Retelling};
use port_io::{MemorySink, MemorySource};
use std::alloc::{AllocError, Global};

/// The layers below `guide`.
#[derive(Clone, Copy)]
enum Layer {
    Formula,
    Large,
    At,
}

const BLIF: FormatPair = FormatPair {
    first: NetFormat::Blif,
    second: NetFormat::Blif,
};

/// The status of a run by a layer.
fn status_of(
    alloc: Global,
    layer: Layer,
    words: &Vec<String>,
    files: &mut MemoryFiles,
    out: &mut MemorySink,
) -> Result<u8, AllocError> {
    let input = MemorySource::new(Vec::from_slice(alloc, b"std")?, Vec::new(alloc));
    let mut source = Remembering::new(alloc, input);
    let mut note = Retelling::new(alloc, MemorySink::new(alloc, Vec::new(alloc)));
    let status = match layer {
        Layer::Formula => front_formula::serve(
            alloc,
            &Echo,
            words,
            files,
            &mut source,
            out,
            &mut note,
        ),
        Layer::Large => front_large::serve(alloc, &Echo, words, files, &mut source, out, &mut note),
        Layer::At => front_at::serve(
            alloc,
            &Echo,
            BLIF,
            words,
            files,
            &mut source,
            out,
            &mut note,
        ),
    };
    Ok(status.number())
}

/// Whether a layer writes this, if memory doesn't run out.
fn is_written(alloc: Global, layer: Layer, line: &str, wanted: &str) -> Result<bool, AllocError> {
    let words = words_of(alloc, line)?;
    let mut files = files_of(alloc, None, 99)?;
    let mut out = MemorySink::new(alloc, Vec::new(alloc));
    let status = status_of(alloc, layer, &words, &mut files, &mut out)?;
    Ok(status == 0 && out.written() == wanted.as_bytes())
}

/// Whether a layer writes this.
fn writes(alloc: Global, layer: Layer, line: &str, wanted: &str) -> bool {
    match is_written(alloc, layer, line, wanted) {
        Ok(is) => is,
        Err(_) => false,
    }
}

const LAYERS: &[Layer] = &[Layer::Formula, Layer::Large, Layer::At];

#[test]
fn each_layer_hands_on_words_of_the_program(rt: HostRuntime) {
    for layer in LAYERS {
        assert!(rt; writes(rt.alloc(), *layer, "recheck", "std"));
        assert!(rt; writes(rt.alloc(), *layer, "recheck in", "text"));
        assert!(rt; writes(rt.alloc(), *layer, "equiv in -", "text|std"));
    }
}
