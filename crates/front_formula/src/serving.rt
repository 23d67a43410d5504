//! The front with `formula`.
ghost use Rattle.std.specs.Prelude.{◌≡◌, List, ℕ, Some};
ghost use Rattle.command_line.specs.CommandLine.{spelled};
ghost use Rattle.frame_core.specs.Run.{before_after};
ghost use Rattle.file_io.specs.Files.{files_before_after};
ghost use Rattle.file_words.specs.Sorting.{file_line};
ghost use Rattle.file_words.specs.Lines.{line_value};
ghost use Rattle.front_core.specs.Front.{front_run, promised_by};
ghost use Rattle.cmd_formula.specs.WordValues.{asked_value};
ghost use Rattle.front_formula.specs.FormulaRuns.{IsPartWritten, IsFormulaRun, IsServed};

use crate::asking::{fits, log_of, names_formula, part_asked};
use crate::logging::Logging;
use crate::mitering::serve_program;
use crate::tasks::{Formula, Log};
use cmd_formula::FormulaWords;
use file_io::{Outside, Reading, write_output};
use file_words::{FileLine, read_line};
use frame_core::Status;
use front_core::{Program, input_of, output_of, report_memory, report_usage};
use port_io::{Sink, Source};
use std::alloc::Global;

/// Writes the formula and the log of a part.
#[tactic(auto, using(crate::proofs::Runs::parts))]
fn write_part<W: Outside, S: Source, O: Sink, N: Sink>(
    alloc: Global,
    line: &FileLine,
    asked: &FormulaWords,
    outside: &mut W,
    source: &mut S,
    out: &mut O,
    note: &mut N,
) -> Status
    ensures { (words : List (List ℕ)) → IsPartWritten (line_value line.now) (asked_value asked.now) (front_run words
        (files_before_after W.holds W.faults outside.old outside.new)
        (before_after S.left S.faults source.old source.new)
        (before_after O.written O.faults out.old out.new)
        (before_after N.written N.faults note.old note.new)
        result) }
{
    let part = asked.asked();
    let input = input_of(line);
    let formula = Formula(part);
    let log = Log(part);
    let answers = Reading {
        input,
        work: &formula,
    };
    let logs = Reading { input, work: &log };
    let logging = Logging {
        log: log_of(asked),
        answers: &answers,
        logs: &logs,
    };
    let output = output_of(line);
    write_output(alloc, &logging, output, outside, source, out, note)
}

/// Writes the formula of the part that a line asks for.
#[tactic(auto, using(crate::proofs::Runs::line_runs))]
fn serve_line<W: Outside, S: Source, O: Sink, N: Sink>(
    alloc: Global,
    line: &FileLine,
    outside: &mut W,
    source: &mut S,
    out: &mut O,
    note: &mut N,
) -> Status
    ensures { (words : List (List ℕ)) → file_line words ≡ Some (line_value line.now) → IsFormulaRun (front_run words
        (files_before_after W.holds W.faults outside.old outside.new)
        (before_after S.left S.faults source.old source.new)
        (before_after O.written O.faults out.old out.new)
        (before_after N.written N.faults note.old note.new)
        result) }
{
    let found = match part_asked(alloc, line) {
        Ok(found) => found,
        Err(_) => return report_memory(note),
    };
    let Some(asked) = &found else {
        return report_usage(note);
    };
    if !fits(line, asked) {
        return report_usage(note);
    }
    write_part(alloc, line, asked, outside, source, out, note)
}

/// Writes the formula of the part that words ask for.
#[tactic(auto, using(crate::proofs::Runs::word_runs))]
fn serve_formula<W: Outside, S: Source, O: Sink, N: Sink>(
    alloc: Global,
    words: &Vec<String>,
    outside: &mut W,
    source: &mut S,
    out: &mut O,
    note: &mut N,
) -> Status
    ensures { IsFormulaRun (front_run (spelled words.now)
        (files_before_after W.holds W.faults outside.old outside.new)
        (before_after S.left S.faults source.old source.new)
        (before_after O.written O.faults out.old out.new)
        (before_after N.written N.faults note.old note.new)
        result) }
{
    let found = match read_line(alloc, words) {
        Ok(found) => found,
        Err(_) => return report_memory(note),
    };
    let Some(line) = &found else {
        return report_usage(note);
    };
    serve_line(alloc, line, outside, source, out, note)
}

/// Reads words that may name files: where the first is `formula`, it writes the formula of a part of a certificate.
/// Where `equiv` has `--formula`, it writes the miter besides the answer. Any others it serves as `front_core` does.
#[tactic(auto, using(crate::proofs::Runs::runs))]
pub fn serve<P: Program, W: Outside, S: Source, O: Sink, N: Sink>(
    alloc: Global,
    program: &P,
    words: &Vec<String>,
    outside: &mut W,
    source: &mut S,
    out: &mut O,
    note: &mut N,
) -> Status
    ensures { IsServed (promised_by P.keeps P.keeps_named P.compares) (front_run (spelled words.now)
        (files_before_after W.holds W.faults outside.old outside.new)
        (before_after S.left S.faults source.old source.new)
        (before_after O.written O.faults out.old out.new)
        (before_after N.written N.faults note.old note.new)
        result) }
{
    if names_formula(words) {
        return serve_formula(alloc, words, outside, source, out, note);
    }
    serve_program::<P, W, S, O, N>(alloc, program, words, outside, source, out, note)
}
