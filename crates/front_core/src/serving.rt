//! The front.
ghost use Rattle.std.specs.Prelude.{◌≡◌, List, ℕ, Some};
ghost use Rattle.command_line.specs.CommandLine.{spelled};
ghost use Rattle.frame_core.specs.Outside.{port_state, Writes};
ghost use Rattle.frame_core.specs.Reported.{error_line, usage, memory};
ghost use Rattle.frame_core.specs.Run.{before_after};
ghost use Rattle.file_io.specs.Files.{files_before_after};
ghost use Rattle.file_words.specs.Sorting.{file_line};
ghost use Rattle.file_words.specs.Lines.{line_value};
ghost use Rattle.front_core.specs.Asked.{IsNotPlain};
ghost use Rattle.front_core.specs.Front.{Ending, IsDone, IsEnding, front_run, promised_by};

use crate::asking::{certificate_of, fits, input_of, output_of, pair_budget, second_of};
use crate::certifying::Certifying;
use crate::pairing::Pairing;
use crate::program::{Program, Running};
use command_line::read_words;
use file_io::{Outside, Reading, Work, write_output};
use file_words::{FileLine, read_line};
use frame_core::{ErrorLine, Status, report_error};
use port_io::{Sink, Source};
use std::alloc::Global;

/// Reports words that ask for nothing.
pub fn report_usage<N: Sink>(note: &mut N) -> Status
    ensures line { Writes (port_state N.written N.faults note.old) (port_state N.written N.faults note.new)
        (error_line usage) }
    ensures status { result ≡ Status.Usage }
{
    report_error(note, &ErrorLine::plain(b"Usage"));
    Status::Usage
}

/// Reports that memory ran out.
pub fn report_memory<N: Sink>(note: &mut N) -> Status
    ensures line { Writes (port_state N.written N.faults note.old) (port_state N.written N.faults note.new)
        (error_line memory) }
    ensures status { result ≡ Status.Memory }
{
    report_error(note, &ErrorLine::plain(b"Memory"));
    Status::Memory
}

/// Does work with the outputs that a line names: those of `-o` and `--certificate`.
#[tactic(auto, using(crate::proofs::Endings::outputs))]
pub fn serve_outputs<K: Work, W: Outside, S: Source, O: Sink, N: Sink>(
    alloc: Global,
    work: &K,
    line: &FileLine,
    outside: &mut W,
    source: &mut S,
    out: &mut O,
    note: &mut N,
) -> Status
    requires { K.ready work.now }
    ensures { (words : List (List ℕ)) → IsDone (line_value line.now) (K.does work.now) (front_run words
        (files_before_after W.holds W.faults outside.old outside.new)
        (before_after S.left S.faults source.old source.new)
        (before_after O.written O.faults out.old out.new)
        (before_after N.written N.faults note.old note.new)
        result) }
{
    let certificate = certificate_of(line);
    let output = output_of(line);
    let certifying = Certifying { certificate, work };
    write_output(alloc, &certifying, output, outside, source, out, note)
}

/// Runs the program over the files that a line names.
#[tactic(auto, using(crate::proofs::Endings::line_endings))]
fn serve_line<P: Program, W: Outside, S: Source, O: Sink, N: Sink>(
    alloc: Global,
    program: &P,
    line: &FileLine,
    outside: &mut W,
    source: &mut S,
    out: &mut O,
    note: &mut N,
) -> Status
    ensures { (words : List (List ℕ)) → IsNotPlain words → file_line words ≡ Some (line_value line.now) →
        (ending : Ending) × IsEnding (promised_by P.keeps P.keeps_named P.compares) (front_run words
        (files_before_after W.holds W.faults outside.old outside.new)
        (before_after S.left S.faults source.old source.new)
        (before_after O.written O.faults out.old out.new)
        (before_after N.written N.faults note.old note.new)
        result) ending }
{
    let Ok(command) = read_words(&line.words) else {
        return report_usage(note);
    };
    if !fits(&command, line) {
        return report_usage(note);
    }
    let input = input_of(line);
    if let Some(budget) = pair_budget(&command, line) {
        let second = second_of(line);
        let pairing = Pairing {
            first: input,
            second,
            budget,
            program,
        };
        return serve_outputs(alloc, &pairing, line, outside, source, out, note);
    }
    let running = Running {
        words: &line.words,
        input,
        program,
    };
    let reading = Reading {
        input,
        work: &running,
    };
    serve_outputs(alloc, &reading, line, outside, source, out, note)
}

/// Reads words that are no command line as they are, and runs the program over the files that they name.
#[tactic(auto, using(crate::proofs::Endings::word_endings))]
fn serve_other<P: Program, W: Outside, S: Source, O: Sink, N: Sink>(
    alloc: Global,
    program: &P,
    words: &Vec<String>,
    outside: &mut W,
    source: &mut S,
    out: &mut O,
    note: &mut N,
) -> Status
    ensures { IsNotPlain (spelled words.now) →
        (ending : Ending) × IsEnding (promised_by P.keeps P.keeps_named P.compares) (front_run (spelled words.now)
        (files_before_after W.holds W.faults outside.old outside.new)
        (before_after S.left S.faults source.old source.new)
        (before_after O.written O.faults out.old out.new)
        (before_after N.written N.faults note.old note.new)
        result) ending }
{
    let found = match read_line(alloc, words) {
        Ok(found) => found,
        Err(_) => return report_memory(note),
    };
    let Some(line) = &found else {
        return report_usage(note);
    };
    serve_line::<P, W, S, O, N>(alloc, program, line, outside, source, out, note)
}

/// Reads words that may name files, and runs the program over these: over the words without files, and over `source`
/// and `out` where no file is named in their place.
#[tactic(auto, using(crate::proofs::Endings::endings))]
pub fn serve<P: Program, W: Outside, S: Source, O: Sink, N: Sink>(
    alloc: Global,
    program: &P,
    words: &Vec<String>,
    outside: &mut W,
    source: &mut S,
    out: &mut O,
    note: &mut N,
) -> Status
    ensures { (ending : Ending) × IsEnding (promised_by P.keeps P.keeps_named P.compares) (front_run (spelled words.now)
        (files_before_after W.holds W.faults outside.old outside.new)
        (before_after S.left S.faults source.old source.new)
        (before_after O.written O.faults out.old out.new)
        (before_after N.written N.faults note.old note.new)
        result) ending }
{
    match read_words(words) {
        Ok(_) => program.run(alloc, words, source, out, note),
        Err(_) => serve_other::<P, W, S, O, N>(alloc, program, words, outside, source, out, note),
    }
}
