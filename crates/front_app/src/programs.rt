//! The programs of the front: that of `chain_app`, with the formats of its comparisons, and `improve` over AIGER.
ghost use Rattle.std.specs.Prelude.{◌≤◌, length};
ghost use Rattle.net_theory.specs.Limits.{most_of_netlist};
ghost use Rattle.command_line.specs.CommandLine.{IsBudget};
ghost use Rattle.frame_core.specs.Run.{before_after};
ghost use Rattle.front_app.specs.Comparison.{KeepsComparison};

use crate::aiger::run_aiger;
use crate::formats::{CompareBy, KnownFormat, KnownWay};
use crate::named::run_named;
use cdcl_core::Cdcl;
use cmd_formats::EquivFormats;
use cmd_match::EquivMatched;
use format_names::{FormatPair, NetFormat};
use frame_core::{AtOnce, Status, perform};
use front_core::Program;
use front_guide::Improves;
use port_io::{Sink, Source};
use progress::Tell;
use std::alloc::Global;
use std::marker::PhantomData;

/// Compares a netlist with that of the source, each in its format.
#[tactic(auto, using(crate::proofs::Comparing::comparing))]
fn compare_in<S: Source, O: Sink, N: Sink, T: Tell>(
    alloc: Global,
    way: CompareBy,
    formats: FormatPair,
    budget: u32,
    text: &[u8],
    source: &mut S,
    out: &mut O,
    note: &mut N,
    tell: &T,
) -> Status
    requires budget { IsBudget budget }
    requires within { length text.now ≤ most_of_netlist }
    ensures { KeepsComparison way formats budget text.now
        (before_after S.left S.faults source.old source.new)
        (before_after O.written O.faults out.old out.new)
        (before_after N.written N.faults note.old note.new)
        result }
{
    let solver = PhantomData::<Cdcl>;
    match way {
        CompareBy::Order => {
            let job = AtOnce(EquivFormats {
                formats,
                first: text,
                budget,
                solver,
                tell,
            });
            perform(alloc, &job, source, out, note)
        }
        CompareBy::Names => {
            let job = AtOnce(EquivMatched {
                formats,
                first: text,
                budget,
                solver,
                tell,
            });
            perform(alloc, &job, source, out, note)
        }
    }
}

/// The program without files, who is told of its progress, and the formats of the netlists that it compares, and how.
#[derive(Drop)]
pub(crate) struct Strict<'a, T, F, G, M> {
    pub(crate) tell: &'a T,
    pub(crate) first: PhantomData<F>,
    pub(crate) second: PhantomData<G>,
    pub(crate) way: PhantomData<M>,
}

impl<'a, T: Tell, F: KnownFormat, G: KnownFormat, M: KnownWay> Program for Strict<'a, T, F, G, M> {
    ghost use Rattle.chain_app.specs.KeepsPromises.{KeepsPromises};
    ghost use Rattle.front_app.specs.Comparison.{pair_of, KeepsComparison};
    ghost use Rattle.front_app.specs.Named.{KeepsNamed};

    ghost keeps = { λ r. KeepsPromises r };

    ghost keeps_named = { λ r. KeepsNamed r };

    ghost compares = { λ budget text source out note status.
        KeepsComparison M.way (pair_of F.named G.named) budget text source out note status };

    fn run<S: Source, O: Sink, N: Sink>(
        &self,
        alloc: Global,
        words: &Vec<String>,
        source: &mut S,
        out: &mut O,
        note: &mut N,
    ) -> Status {
        chain_app::run_telling(alloc, words, source, out, note, self.tell)
    }

    fn run_named<S: Source, O: Sink, N: Sink>(
        &self,
        alloc: Global,
        words: &Vec<String>,
        source: &mut S,
        out: &mut O,
        note: &mut N,
    ) -> Status {
        run_named(alloc, words, source, out, note, self.tell)
    }

    #[tactic(auto, using(crate::proofs::Comparing::comparing))]
    fn compare<S: Source, O: Sink, N: Sink>(
        &self,
        alloc: Global,
        budget: u32,
        text: &[u8],
        source: &mut S,
        out: &mut O,
        note: &mut N,
    ) -> Status {
        let formats = FormatPair {
            first: F::format(),
            second: G::format(),
        };
        compare_in(
            alloc,
            M::compares_by(),
            formats,
            budget,
            text,
            source,
            out,
            note,
            self.tell,
        )
    }
}

impl<'a, T: Tell, F: KnownFormat, G: KnownFormat, M: KnownWay> Improves for Strict<'a, T, F, G, M> {
    fn improved(&self) -> Option<NetFormat> {
        None
    }
}

/// `improve` over AIGER, and who is told of its progress.
#[derive(Drop)]
pub(crate) struct OverAiger<'a, T> {
    pub(crate) tell: &'a T,
}

impl<'a, T: Tell> Program for OverAiger<'a, T> {
    ghost use Rattle.front_app.specs.Aiger.{KeepsAiger};
    ghost use Rattle.front_app.specs.declared.formats.CompareBy.TheVariants.{Order};
    ghost use Rattle.front_app.specs.Comparison.{blif_pair, KeepsComparison};

    ghost keeps = { λ r. KeepsAiger r };

    ghost keeps_named = { λ r. KeepsAiger r };

    ghost compares = { λ budget text source out note status.
        KeepsComparison Order blif_pair budget text source out note status };

    fn run<S: Source, O: Sink, N: Sink>(
        &self,
        alloc: Global,
        words: &Vec<String>,
        source: &mut S,
        out: &mut O,
        note: &mut N,
    ) -> Status {
        run_aiger(alloc, words, source, out, note, self.tell)
    }

    fn run_named<S: Source, O: Sink, N: Sink>(
        &self,
        alloc: Global,
        words: &Vec<String>,
        source: &mut S,
        out: &mut O,
        note: &mut N,
    ) -> Status {
        run_aiger(alloc, words, source, out, note, self.tell)
    }

    fn compare<S: Source, O: Sink, N: Sink>(
        &self,
        alloc: Global,
        budget: u32,
        text: &[u8],
        source: &mut S,
        out: &mut O,
        note: &mut N,
    ) -> Status {
        let formats = FormatPair {
            first: NetFormat::Blif,
            second: NetFormat::Blif,
        };
        compare_in(
            alloc,
            CompareBy::Order,
            formats,
            budget,
            text,
            source,
            out,
            note,
            self.tell,
        )
    }
}

impl<'a, T: Tell> Improves for OverAiger<'a, T> {
    fn improved(&self) -> Option<NetFormat> {
        Some(NetFormat::Aiger)
    }
}
