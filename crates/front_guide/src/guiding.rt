//! A run that helps people.
ghost use Rattle.std.specs.Prelude.{◌≡◌, ◌≤◌, map, IfSome, true, false};
ghost use Rattle.std.specs.String.{string_bytes};
ghost use Rattle.command_line.specs.CommandLine.{spelled};
ghost use Rattle.file_io.specs.Files.{files_before_after};
ghost use Rattle.command_line.specs.Options.{is_word as is_word_of};
ghost use Rattle.frame_core.specs.Outside.{port_state, Writes};
ghost use Rattle.frame_core.specs.Run.{before_after};
ghost use Rattle.front_core.specs.Asked.{IsNotPlain};
ghost use Rattle.front_core.specs.Front.{front_run, promised_by};
ghost use Rattle.front_guide.specs.Guided.{IsPageStatus, IsFollowed, IsGuided, is_found as is_found_of};
ghost use Rattle.front_guide.specs.Words as spec;

use crate::explaining::{Rereads, netlist_line, people_line};
use crate::remembering::{Recalls, Retells};
use crate::subjects::Improves;
use command_line::read_words;
use file_io::Outside;
use file_words::FileLine;
use format_names::{FormatPair, NetFormat};
use frame_core::Status;
use front_at::serve;
use front_core::Program;
use help_text::asked_page;
use port_io::{Sink, WriteFault, write_all};
use std::alloc::Global;

/// Whether two words are the same.
fn is_word(word: &[u8], name: &[u8]) -> bool
    ensures { result ≡ is_word_of word.now name.now }
{
    word == name
}

/// Whether an option asks for help.
fn is_help_option(word: &[u8]) -> bool
    ensures { result ≡ spec.is_help_option word.now }
{
    is_word(word, b"--help") || is_word(word, b"-h")
}

/// Whether a first word asks for help.
fn is_help_word(word: &[u8]) -> bool
    ensures { result ≡ spec.is_help_word word.now }
{
    is_word(word, b"help") || is_help_option(word) || is_word(word, b"--version")
}

/// Whether an option asks for help, before `--`.
#[tactic(auto, unfolding(crate::specs::Words::names_help), using(crate::proofs::Options::naming))]
fn names_help(words: &[String]) -> bool
    ensures { result ≡ spec.names_help false (map string_bytes words.now) }
{
    let mut left = words;
    let mut is_file = false;
    while let Some((word, rest)) = left.split_first() {
        let bytes = word.as_bytes();
        if is_file {
            is_file = false;
        } else if is_word(bytes, b"--") {
            return false;
        } else if is_help_option(bytes) {
            return true;
        } else {
            is_file = is_word(bytes, b"-o");
        }
        left = rest;
    }
    false
}

/// Whether words ask for a page.
#[tactic(auto, unfolding(crate::specs::Words::asks_for_page))]
fn asks_for_page(words: &[String]) -> bool
    ensures { result ≡ spec.asks_for_page (map string_bytes words.now) }
{
    let Some((first, rest)) = words.split_first() else {
        return false;
    };
    if is_help_word(first.as_bytes()) {
        return true;
    }
    names_help(rest)
}

/// The page that words ask for; None if they ask for none, or memory runs out.
fn page_of(alloc: Global, words: &Vec<String>) -> Option<Vec<u8>> {
    asked_page(alloc, words).unwrap_or(None)
}

/// The page that words ask for which are no command line; None if they ask for none, or memory runs out.
#[tactic(auto, using(crate::proofs::Pages::asking))]
fn page_for(alloc: Global, words: &Vec<String>) -> Option<Vec<u8>>
    ensures other { IfSome result (λ _. IsNotPlain (spelled words.now)) }
    ensures asks { IfSome result (λ _. spec.asks_for_page (spelled words.now) ≡ true) }
{
    if !asks_for_page(words) {
        return None;
    }
    match read_words(words) {
        Ok(_) => None,
        Err(_) => page_of(alloc, words),
    }
}

/// Writes a page.
fn write_page<O: Sink>(out: &mut O, page: &[u8]) -> Status
    ensures text { Writes (port_state O.written O.faults out.old) (port_state O.written O.faults out.new) page.now }
    ensures status { IsPageStatus (before_after O.written O.faults out.old out.new) result }
{
    match write_all(out, page) {
        Ok(()) => Status::Done,
        Err(WriteFault::WriteFault) => Status::WriteFault,
    }
}

/// Writes a text for people. If that fails, it is ignored: the status of the run is already decided.
fn write_hint<N: Sink>(note: &mut N, hint: &[u8])
    ensures text { Writes (port_state N.written N.faults note.old) (port_state N.written N.faults note.new) hint.now }
    ensures rises { N.faults note.old ≤ N.faults note.new }
{
    let _ = write_all(note, hint);
}

/// Whether a command found an answer of its own.
fn is_found(status: Status) -> bool
    ensures { result ≡ is_found_of status }
{
    match status {
        Status::Done | Status::Undecided => true,
        Status::Usage | Status::Malformed | Status::Limit | Status::Refused => false,
        Status::ReadFault | Status::WriteFault | Status::Memory => false,
    }
}

/// Writes a line for people after the error line of a run over a netlist of a line, where it has no answer.
#[tactic(auto, using(crate::proofs::Runs::following))]
pub fn hint_of_netlist<S: Recalls, N: Retells, R: Rereads>(
    alloc: Global,
    format: NetFormat,
    line: &FileLine,
    status: Status,
    source: &S,
    note: &mut N,
    reader: &R,
)
    ensures { IsFollowed (port_state N.written N.faults note.old) (port_state N.written N.faults note.new) status }
{
    if is_found(status) {
        return;
    }
    let hint = netlist_line(alloc, format, line, status, source, note, reader);
    write_hint(note, &hint);
}

/// Writes the page that words ask for; or runs the command that they ask for, and where it has no answer, writes a line
/// for people after the error line. Netlists whose values are asked for are in these formats.
#[tactic(auto, using(crate::proofs::Runs::guided))]
pub fn guide<P: Program + Improves, W: Outside, S: Recalls, O: Sink, N: Retells, R: Rereads>(
    alloc: Global,
    program: &P,
    formats: FormatPair,
    words: &Vec<String>,
    outside: &mut W,
    source: &mut S,
    out: &mut O,
    note: &mut N,
    reader: &R,
) -> Status
    ensures { IsGuided formats (promised_by P.keeps P.keeps_named P.compares) (front_run (spelled words.now)
        (files_before_after W.holds W.faults outside.old outside.new)
        (before_after S.left S.faults source.old source.new)
        (before_after O.written O.faults out.old out.new)
        (before_after N.written N.faults note.old note.new)
        result) }
{
    if let Some(page) = page_for(alloc, words) {
        return write_page(out, &page);
    }
    let status = serve::<P, W, S, O, N>(alloc, program, formats, words, outside, source, out, note);
    if is_found(status) {
        return status;
    }
    let improved = program.improved();
    let hint = people_line(
        alloc, improved, formats, words, status, source, note, reader,
    );
    write_hint(note, &hint);
    status
}
