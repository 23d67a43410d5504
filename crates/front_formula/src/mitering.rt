//! Words of `equiv` that also ask for the miter, and all other words of the program.
ghost use Rattle.std.specs.Prelude.{◌≡◌, List, ℕ, Some};
ghost use Rattle.command_line.specs.CommandLine.{spelled, IsBudget};
ghost use Rattle.frame_core.specs.Run.{before_after};
ghost use Rattle.file_io.specs.Files.{files_before_after};
ghost use Rattle.file_words.specs.Sorting.{file_line};
ghost use Rattle.file_words.specs.Lines.{line_value};
ghost use Rattle.front_core.specs.Asked.{IsNotPlain};
ghost use Rattle.front_core.specs.Front.{front_run, promised_by};
ghost use Rattle.front_formula.specs.FormulaRuns.{IsServedOther};
ghost use Rattle.front_formula.specs.MiterRuns.{IsMiterWritten};
ghost use Rattle.front_formula.specs.MiterValues.{picked_value};

use crate::accompanying::Accompanying;
use crate::fitting::miter_budget;
use crate::logging::Logging;
use crate::miters::{Miter, MiterLog};
use crate::picking::{MiterWords, formula_of, log_of, pick};
use command_line::read_words;
use file_io::Outside;
use file_words::{FileLine, read_line};
use frame_core::Status;
use front_core::{Pairing, Program, input_of, report_memory, second_of, serve_outputs};
use port_io::{Sink, Source};
use std::alloc::Global;

/// Compares two netlists by the program, and writes their miter before, and the log of the comparison after it.
#[tactic(auto, using(crate::proofs::Pairs::writing))]
fn write_miter<P: Program, W: Outside, S: Source, O: Sink, N: Sink>(
    alloc: Global,
    program: &P,
    line: &FileLine,
    words: &MiterWords,
    budget: u32,
    outside: &mut W,
    source: &mut S,
    out: &mut O,
    note: &mut N,
) -> Status
    requires { IsBudget budget }
    ensures { (all : List (List ℕ)) → IsMiterWritten (P.compares budget) budget (line_value line.now)
        (picked_value words.now) (front_run all
        (files_before_after W.holds W.faults outside.old outside.new)
        (before_after S.left S.faults source.old source.new)
        (before_after O.written O.faults out.old out.new)
        (before_after N.written N.faults note.old note.new)
        result) }
{
    let first = input_of(line);
    let second = second_of(line);
    let miters = Pairing {
        first,
        second,
        budget,
        program: &Miter,
    };
    let comparisons = Pairing {
        first,
        second,
        budget,
        program,
    };
    let logs = Pairing {
        first,
        second,
        budget,
        program: &MiterLog,
    };
    let answers = Accompanying {
        file: formula_of(words),
        texts: &miters,
        answers: &comparisons,
    };
    let logging = Logging {
        log: log_of(words),
        answers: &answers,
        logs: &logs,
    };
    serve_outputs(alloc, &logging, line, outside, source, out, note)
}

/// Serves the words of a line that are no command line as they are.
#[tactic(auto, using(crate::proofs::Pairs::lines))]
fn serve_line<P: Program, W: Outside, S: Source, O: Sink, N: Sink>(
    alloc: Global,
    program: &P,
    words: &Vec<String>,
    line: &FileLine,
    outside: &mut W,
    source: &mut S,
    out: &mut O,
    note: &mut N,
) -> Status
    ensures { IsNotPlain (spelled words.now) → file_line (spelled words.now) ≡ Some (line_value line.now) →
        IsServedOther (promised_by P.keeps P.keeps_named P.compares) (front_run (spelled words.now)
        (files_before_after W.holds W.faults outside.old outside.new)
        (before_after S.left S.faults source.old source.new)
        (before_after O.written O.faults out.old out.new)
        (before_after N.written N.faults note.old note.new)
        result) }
{
    let found = match pick(alloc, line) {
        Ok(found) => found,
        Err(_) => return report_memory(note),
    };
    let Some(budget) = miter_budget(&found, line) else {
        return front_core::serve::<P, W, S, O, N>(
            alloc, program, words, outside, source, out, note,
        );
    };
    write_miter::<P, W, S, O, N>(
        alloc, program, line, &found, budget, outside, source, out, note,
    )
}

/// Serves words that are no command line as they are.
#[tactic(auto, using(crate::proofs::Pairs::others))]
fn serve_other<P: Program, W: Outside, S: Source, O: Sink, N: Sink>(
    alloc: Global,
    program: &P,
    words: &Vec<String>,
    outside: &mut W,
    source: &mut S,
    out: &mut O,
    note: &mut N,
) -> Status
    ensures { IsNotPlain (spelled words.now) →
        IsServedOther (promised_by P.keeps P.keeps_named P.compares) (front_run (spelled words.now)
        (files_before_after W.holds W.faults outside.old outside.new)
        (before_after S.left S.faults source.old source.new)
        (before_after O.written O.faults out.old out.new)
        (before_after N.written N.faults note.old note.new)
        result) }
{
    let found = match read_line(alloc, words) {
        Ok(found) => found,
        Err(_) => return report_memory(note),
    };
    let Some(line) = &found else {
        return front_core::serve::<P, W, S, O, N>(
            alloc, program, words, outside, source, out, note,
        );
    };
    serve_line::<P, W, S, O, N>(alloc, program, words, line, outside, source, out, note)
}

/// Serves words of the program, and those of `equiv` that also ask for the miter.
#[tactic(auto, using(crate::proofs::Pairs::programs))]
pub(crate) fn serve_program<P: Program, W: Outside, S: Source, O: Sink, N: Sink>(
    alloc: Global,
    program: &P,
    words: &Vec<String>,
    outside: &mut W,
    source: &mut S,
    out: &mut O,
    note: &mut N,
) -> Status
    ensures { IsServedOther (promised_by P.keeps P.keeps_named P.compares) (front_run (spelled words.now)
        (files_before_after W.holds W.faults outside.old outside.new)
        (before_after S.left S.faults source.old source.new)
        (before_after O.written O.faults out.old out.new)
        (before_after N.written N.faults note.old note.new)
        result) }
{
    match read_words(words) {
        Ok(_) => {
            front_core::serve::<P, W, S, O, N>(alloc, program, words, outside, source, out, note)
        }
        Err(_) => {
            serve_other::<P, W, S, O, N>(alloc, program, words, outside, source, out, note)
        }
    }
}
