//! The front with large questions.
ghost use Rattle.std.specs.Prelude.{List, ℕ};
ghost use Rattle.command_line.specs.CommandLine.{spelled};
ghost use Rattle.frame_core.specs.Run.{before_after};
ghost use Rattle.file_io.specs.Files.{files_before_after};
ghost use Rattle.file_words.specs.Lines.{line_value};
ghost use Rattle.front_core.specs.Front.{front_run, promised_by};
ghost use Rattle.front_large.specs.LargeRuns.{IsLargeDone, IsServed};
ghost use Rattle.front_large.specs.LargeWords.{IsReady};

use crate::asking::{LargeLine, large_line};
use crate::tasks::Answering;
use file_io::{Outside, Reading, write_output};
use frame_core::Status;
use front_core::{Program, input_of, output_of, report_memory};
use port_io::{Sink, Source};
use std::alloc::Global;

/// Answers a large question over the files of its line.
#[tactic(auto, using(crate::proofs::Runs::answers))]
fn serve_large<W: Outside, S: Source, O: Sink, N: Sink>(
    alloc: Global,
    large: &LargeLine,
    outside: &mut W,
    source: &mut S,
    out: &mut O,
    note: &mut N,
) -> Status
    requires { IsReady large.now.asked }
    ensures { (words : List (List ℕ)) → IsLargeDone (line_value large.now.line) large.now.asked (front_run words
        (files_before_after W.holds W.faults outside.old outside.new)
        (before_after S.left S.faults source.old source.new)
        (before_after O.written O.faults out.old out.new)
        (before_after N.written N.faults note.old note.new)
        result) }
{
    let answering = Answering(large.asked);
    let reading = Reading {
        input: input_of(&large.line),
        work: &answering,
    };
    let output = output_of(&large.line);
    write_output(alloc, &reading, output, outside, source, out, note)
}

/// Reads words that may name files: it answers the large question that they ask for, and any others it serves as
/// `front_formula` does.
#[tactic(auto, using(crate::proofs::Runs::runs))]
pub fn serve<P: Program, W: Outside, S: Source, O: Sink, N: Sink>(
    alloc: Global,
    program: &P,
    words: &Vec<String>,
    outside: &mut W,
    source: &mut S,
    out: &mut O,
    note: &mut N,
) -> Status
    ensures { IsServed (promised_by P.keeps P.keeps_named P.compares) (front_run (spelled words.now)
        (files_before_after W.holds W.faults outside.old outside.new)
        (before_after S.left S.faults source.old source.new)
        (before_after O.written O.faults out.old out.new)
        (before_after N.written N.faults note.old note.new)
        result) }
{
    let found = match large_line(alloc, words) {
        Ok(found) => found,
        Err(_) => return report_memory(note),
    };
    let Some(large) = &found else {
        return front_formula::serve::<P, W, S, O, N>(
            alloc, program, words, outside, source, out, note,
        );
    };
    serve_large(alloc, large, outside, source, out, note)
}
