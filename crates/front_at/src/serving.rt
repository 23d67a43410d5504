//! The front with the values of two netlists.
ghost use Rattle.std.specs.Prelude.{List, ℕ};
ghost use Rattle.command_line.specs.CommandLine.{spelled};
ghost use Rattle.frame_core.specs.Run.{before_after};
ghost use Rattle.file_io.specs.Files.{files_before_after};
ghost use Rattle.file_words.specs.Lines.{line_value};
ghost use Rattle.front_core.specs.Front.{front_run, promised_by};
ghost use Rattle.front_at.specs.AtRuns.{AreValuesDone, IsServed};

use crate::asking::{AtLine, at_line};
use crate::pairing::Pairing;
use crate::values::Values;
use file_io::Outside;
use format_names::FormatPair;
use frame_core::Status;
use front_core::{Program, input_of, report_memory, second_of, serve_outputs};
use port_io::{Sink, Source};
use std::alloc::Global;

/// Writes the values of the netlists of the two files of a line.
#[tactic(auto, using(crate::proofs::Runs::answers))]
fn serve_values<W: Outside, S: Source, O: Sink, N: Sink>(
    alloc: Global,
    formats: FormatPair,
    asked: &AtLine,
    outside: &mut W,
    source: &mut S,
    out: &mut O,
    note: &mut N,
) -> Status
    ensures { (words : List (List ℕ)) → AreValuesDone formats (line_value asked.now.line) asked.now.bits.items
        (front_run words
        (files_before_after W.holds W.faults outside.old outside.new)
        (before_after S.left S.faults source.old source.new)
        (before_after O.written O.faults out.old out.new)
        (before_after N.written N.faults note.old note.new)
        result) }
{
    let values = Values {
        formats,
        bits: &asked.bits,
    };
    let first = input_of(&asked.line);
    let second = second_of(&asked.line);
    let pairing = Pairing {
        first,
        second,
        work: &values,
    };
    serve_outputs(alloc, &pairing, &asked.line, outside, source, out, note)
}

/// Reads words that may name files: it writes the values that they ask for, of netlists in these formats, and any
/// others it serves as `front_large` does.
#[tactic(auto, using(crate::proofs::Runs::runs))]
pub fn serve<P: Program, W: Outside, S: Source, O: Sink, N: Sink>(
    alloc: Global,
    program: &P,
    formats: FormatPair,
    words: &Vec<String>,
    outside: &mut W,
    source: &mut S,
    out: &mut O,
    note: &mut N,
) -> Status
    ensures { IsServed formats (promised_by P.keeps P.keeps_named P.compares) (front_run (spelled words.now)
        (files_before_after W.holds W.faults outside.old outside.new)
        (before_after S.left S.faults source.old source.new)
        (before_after O.written O.faults out.old out.new)
        (before_after N.written N.faults note.old note.new)
        result) }
{
    let found = match at_line(alloc, words) {
        Ok(found) => found,
        Err(_) => return report_memory(note),
    };
    let Some(asked) = &found else {
        return front_large::serve::<P, W, S, O, N>(
            alloc, program, words, outside, source, out, note,
        );
    };
    serve_values(alloc, formats, asked, outside, source, out, note)
}
