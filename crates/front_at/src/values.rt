//! The values of two netlists, as what is done with two texts.
use crate::pairing::OverText;
use cmd_at::WriteValues;
use format_names::FormatPair;
use frame_core::{AtOnce, Status, perform};
use port_io::{Sink, Source};
use std::alloc::Global;

/// Writes the values of two netlists under given bits.
#[derive(Drop)]
pub(crate) struct Values<'a> {
    pub(crate) formats: FormatPair,
    pub(crate) bits: &'a [bool],
}

impl<'a> OverText for Values<'a> {
    ghost use Rattle.front_at.specs.AtRuns.{WritesValues};

    ghost does = { λ w. WritesValues w.formats w.bits.now };

    ghost ready = { λ w. Unit {0} };

    #[tactic(auto, using(crate::proofs::Runs::performing))]
    fn over<S: Source, O: Sink, N: Sink>(
        &self,
        alloc: Global,
        text: &[u8],
        source: &mut S,
        out: &mut O,
        note: &mut N,
    ) -> Status {
        let job = AtOnce(WriteValues {
            formats: self.formats,
            bits: self.bits,
            first: text,
        });
        perform(alloc, &job, source, out, note)
    }
}
