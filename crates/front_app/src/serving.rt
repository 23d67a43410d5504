//! The front for the programs of this crate.
ghost use Rattle.command_line.specs.CommandLine.{spelled};
ghost use Rattle.frame_core.specs.Run.{before_after};
ghost use Rattle.chain_app.specs.KeepsPromises.{KeepsPromises};
ghost use Rattle.file_io.specs.Files.{files_before_after};
ghost use Rattle.front_core.specs.Front.{front_run, promised_by};
ghost use Rattle.front_guide.specs.Guided.{IsGuided};
ghost use Rattle.front_app.specs.Aiger.{KeepsAiger};
ghost use Rattle.front_app.specs.declared.formats.CompareBy.TheVariants.{Order};
ghost use Rattle.front_app.specs.Comparison.{pair_of, blif_pair, KeepsComparison};
ghost use Rattle.front_app.specs.Fronted.{formats_of, promises_of, IsFormatted, IsWishedOr, IsFronted};
ghost use Rattle.front_app.specs.Named.{KeepsNamed};

use crate::formats::{ByNames, ByOrder, InAiger, InBench, InBlif, KnownFormat, KnownWay};
use crate::programs::{OverAiger, Strict};
use command_line::read_words;
use file_io::Outside;
use format_names::{FormatPair, NetFormat};
use format_words::{FormatsAsked, read_formats};
use frame_core::Status;
use front_core::report_memory;
use front_guide::{Recalls, Rereads, Retells, guide};
use front_wish::{serve_wish, wish_line};
use port_io::Sink;
use progress::Tell;
use std::alloc::Global;
use std::marker::PhantomData;

/// Guides a run whose comparisons are of netlists in two formats.
#[tactic(auto, using(crate::proofs::Fronting::pairs))]
fn guide_pair<
    F: KnownFormat,
    G: KnownFormat,
    M: KnownWay,
    W: Outside,
    S: Recalls,
    O: Sink,
    N: Retells,
    R: Rereads,
    T: Tell,
>(
    alloc: Global,
    words: &Vec<String>,
    outside: &mut W,
    source: &mut S,
    out: &mut O,
    note: &mut N,
    reader: &R,
    tell: &T,
) -> Status
    ensures { IsGuided (pair_of F.named G.named)
        (promised_by KeepsPromises KeepsNamed (KeepsComparison M.way (pair_of F.named G.named)))
        (front_run (spelled words.now)
        (files_before_after W.holds W.faults outside.old outside.new)
        (before_after S.left S.faults source.old source.new)
        (before_after O.written O.faults out.old out.new)
        (before_after N.written N.faults note.old note.new)
        result) }
{
    let strict = Strict {
        tell,
        first: PhantomData::<F>,
        second: PhantomData::<G>,
        way: PhantomData::<M>,
    };
    let formats = FormatPair {
        first: F::format(),
        second: G::format(),
    };
    guide(
        alloc, &strict, formats, words, outside, source, out, note, reader,
    )
}

/// The same, by the second format.
fn guide_second<
    F: KnownFormat,
    M: KnownWay,
    W: Outside,
    S: Recalls,
    O: Sink,
    N: Retells,
    R: Rereads,
    T: Tell,
>(
    alloc: Global,
    second: NetFormat,
    words: &Vec<String>,
    outside: &mut W,
    source: &mut S,
    out: &mut O,
    note: &mut N,
    reader: &R,
    tell: &T,
) -> Status
    ensures { IsGuided (pair_of F.named second)
        (promised_by KeepsPromises KeepsNamed (KeepsComparison M.way (pair_of F.named second)))
        (front_run (spelled words.now)
        (files_before_after W.holds W.faults outside.old outside.new)
        (before_after S.left S.faults source.old source.new)
        (before_after O.written O.faults out.old out.new)
        (before_after N.written N.faults note.old note.new)
        result) }
{
    match second {
        NetFormat::Blif => guide_pair::<F, InBlif, M, W, S, O, N, R, T>(
            alloc, words, outside, source, out, note, reader, tell,
        ),
        NetFormat::Bench => guide_pair::<F, InBench, M, W, S, O, N, R, T>(
            alloc, words, outside, source, out, note, reader, tell,
        ),
        NetFormat::Aiger => guide_pair::<F, InAiger, M, W, S, O, N, R, T>(
            alloc, words, outside, source, out, note, reader, tell,
        ),
    }
}

/// The same, by both formats.
fn guide_formats<M: KnownWay, W: Outside, S: Recalls, O: Sink, N: Retells, R: Rereads, T: Tell>(
    alloc: Global,
    formats: FormatPair,
    words: &Vec<String>,
    outside: &mut W,
    source: &mut S,
    out: &mut O,
    note: &mut N,
    reader: &R,
    tell: &T,
) -> Status
    ensures { IsGuided formats (promised_by KeepsPromises KeepsNamed (KeepsComparison M.way formats))
        (front_run (spelled words.now)
        (files_before_after W.holds W.faults outside.old outside.new)
        (before_after S.left S.faults source.old source.new)
        (before_after O.written O.faults out.old out.new)
        (before_after N.written N.faults note.old note.new)
        result) }
{
    let second = formats.second;
    match formats.first {
        NetFormat::Blif => guide_second::<InBlif, M, W, S, O, N, R, T>(
            alloc, second, words, outside, source, out, note, reader, tell,
        ),
        NetFormat::Bench => guide_second::<InBench, M, W, S, O, N, R, T>(
            alloc, second, words, outside, source, out, note, reader, tell,
        ),
        NetFormat::Aiger => guide_second::<InAiger, M, W, S, O, N, R, T>(
            alloc, second, words, outside, source, out, note, reader, tell,
        ),
    }
}

/// Guides a run of `improve` over AIGER.
fn guide_aiger<W: Outside, S: Recalls, O: Sink, N: Retells, R: Rereads, T: Tell>(
    alloc: Global,
    words: &Vec<String>,
    outside: &mut W,
    source: &mut S,
    out: &mut O,
    note: &mut N,
    reader: &R,
    tell: &T,
) -> Status
    ensures { IsGuided blif_pair (promised_by KeepsAiger KeepsAiger (KeepsComparison Order blif_pair))
        (front_run (spelled words.now)
        (files_before_after W.holds W.faults outside.old outside.new)
        (before_after S.left S.faults source.old source.new)
        (before_after O.written O.faults out.old out.new)
        (before_after N.written N.faults note.old note.new)
        result) }
{
    let program = OverAiger { tell };
    let formats = FormatPair {
        first: NetFormat::Blif,
        second: NetFormat::Blif,
    };
    guide(
        alloc, &program, formats, words, outside, source, out, note, reader,
    )
}

/// Guides a run over the formats that are asked for.
fn guide_asked<W: Outside, S: Recalls, O: Sink, N: Retells, R: Rereads, T: Tell>(
    alloc: Global,
    asked: FormatsAsked,
    words: &Vec<String>,
    outside: &mut W,
    source: &mut S,
    out: &mut O,
    note: &mut N,
    reader: &R,
    tell: &T,
) -> Status
    ensures { IsGuided (formats_of asked) (promises_of asked) (front_run (spelled words.now)
        (files_before_after W.holds W.faults outside.old outside.new)
        (before_after S.left S.faults source.old source.new)
        (before_after O.written O.faults out.old out.new)
        (before_after N.written N.faults note.old note.new)
        result) }
{
    match asked {
        FormatsAsked::Own => guide_pair::<InBlif, InBlif, ByOrder, W, S, O, N, R, T>(
            alloc, words, outside, source, out, note, reader, tell,
        ),
        FormatsAsked::ImproveAiger => {
            guide_aiger(alloc, words, outside, source, out, note, reader, tell)
        }
        FormatsAsked::Compare(formats) => guide_formats::<ByOrder, W, S, O, N, R, T>(
            alloc, formats, words, outside, source, out, note, reader, tell,
        ),
        FormatsAsked::Match(formats) => guide_formats::<ByNames, W, S, O, N, R, T>(
            alloc, formats, words, outside, source, out, note, reader, tell,
        ),
    }
}

/// Runs the command of words that may ask for formats.
#[tactic(auto, using(crate::proofs::Fronting::fronting))]
fn serve_formats<W: Outside, S: Recalls, O: Sink, N: Retells, R: Rereads, T: Tell>(
    alloc: Global,
    words: &Vec<String>,
    outside: &mut W,
    source: &mut S,
    out: &mut O,
    note: &mut N,
    reader: &R,
    tell: &T,
) -> Status
    ensures { IsFormatted (front_run (spelled words.now)
        (files_before_after W.holds W.faults outside.old outside.new)
        (before_after S.left S.faults source.old source.new)
        (before_after O.written O.faults out.old out.new)
        (before_after N.written N.faults note.old note.new)
        result) }
{
    let found = match read_formats(alloc, words) {
        Ok(found) => found,
        Err(_) => return report_memory(note),
    };
    let asked = found.asked;
    let Some(plain) = &found.words else {
        return guide_asked(
            alloc, asked, words, outside, source, out, note, reader, tell,
        );
    };
    guide_asked(
        alloc, asked, plain, outside, source, out, note, reader, tell,
    )
}

/// Runs the command of words that may wish something of the netlist that `improve` writes, or ask for formats.
#[tactic(auto, using(crate::proofs::Wishing::wishing))]
fn serve_wishes<W: Outside, S: Recalls, O: Sink, N: Retells, R: Rereads, T: Tell>(
    alloc: Global,
    words: &Vec<String>,
    outside: &mut W,
    source: &mut S,
    out: &mut O,
    note: &mut N,
    reader: &R,
    tell: &T,
) -> Status
    ensures { IsWishedOr (front_run (spelled words.now)
        (files_before_after W.holds W.faults outside.old outside.new)
        (before_after S.left S.faults source.old source.new)
        (before_after O.written O.faults out.old out.new)
        (before_after N.written N.faults note.old note.new)
        result) }
{
    let found = match wish_line(alloc, words) {
        Ok(found) => found,
        Err(_) => return report_memory(note),
    };
    let Some(wish) = &found else {
        return serve_formats(alloc, words, outside, source, out, note, reader, tell);
    };
    serve_wish::<W, S, O, N, R, T>(alloc, wish, outside, source, out, note, reader, tell)
}

/// Runs the command that the words ask for: over the files that they name, or else over `source` and `out`. A report,
/// and one error line if there is no answer, go to `note`; after the error line comes one for people. Words that ask
/// for help get a page. Who is told of the progress has no say in any of this.
pub fn serve<W: Outside, S: Recalls, O: Sink, N: Retells, R: Rereads, T: Tell>(
    alloc: Global,
    words: &Vec<String>,
    outside: &mut W,
    source: &mut S,
    out: &mut O,
    note: &mut N,
    reader: &R,
    tell: &T,
) -> Status
    ensures { IsFronted (front_run (spelled words.now)
        (files_before_after W.holds W.faults outside.old outside.new)
        (before_after S.left S.faults source.old source.new)
        (before_after O.written O.faults out.old out.new)
        (before_after N.written N.faults note.old note.new)
        result) }
{
    match read_words(words) {
        Ok(_) => guide_asked(
            alloc,
            FormatsAsked::Own,
            words,
            outside,
            source,
            out,
            note,
            reader,
            tell,
        ),
        Err(_) => serve_wishes(alloc, words, outside, source, out, note, reader, tell),
    }
}
