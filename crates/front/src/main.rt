//! The program `front`: `batsokemi` with files that are named, and help for people. It collects the arguments, wraps
//! the standard streams in ports that remember what went through them and tell of the progress, hands over the files
//! of the system, and calls `front_app::serve`. A standard stream that is closed stays so: no file takes its place.
#![tactic(auto)]

mod rereading;
mod standing;

use crate::rereading::Rereading;
use crate::standing::Standing;
use front_app::{Remembering, Retelling, Status, serve};
use port_io::{InputPort, OutputPort};
use progress::{WatchedSink, WatchedSource};
use std::io::IsTerminal;
use std::process::ExitCode;
use std::{env, io};
use system_files::{OpenAtStart, SystemFiles, Terminal};

/// What people are told of a word that isn't UTF-8.
const NOT_UTF8: &str =
    "words are read in UTF-8 alone; a file of another name can be given as standard input, by <";

/// The arguments after the program's name. An argument that isn't UTF-8 is a usage error.
fn words_of(rt: &HostRuntime) -> Result<Vec<String>, Status> {
    let collected = match env::args(rt) {
        Ok(words) => words.skip(1).collect(rt.alloc()),
        Err(error) if error.kind() == io::ErrorKind::OutOfMemory => return Err(Status::Memory),
        Err(_) => return Err(Status::Usage),
    };
    collected.map_err(|_| Status::Memory)
}

/// Reports that there are no words, by the error line of the status.
fn report_no_words(rt: &HostRuntime, status: Status) {
    let _ = match status {
        Status::Memory => eprintln!(rt; "error: Memory"),
        _ => eprintln!(rt; "error: Usage\nbatsokemi: {NOT_UTF8}"),
    };
}

/// The name of the file that gets the certificate; empty if no word names one.
fn certificate_of(words: &[String]) -> &str {
    let mut is_next = false;
    for word in words {
        let word = word.as_str();
        if is_next {
            return word;
        }
        is_next = word == "--certificate";
    }
    ""
}

fn main(rt: HostRuntime) -> ExitCode {
    let start = OpenAtStart::new(&rt);
    let standing = Standing::new(&rt);
    let words = match words_of(&rt) {
        Ok(words) => words,
        Err(status) => {
            report_no_words(&rt, status);
            return ExitCode::from(status.number());
        }
    };
    let terminal = Terminal::new(&rt);
    let input = WatchedSource::new(InputPort::new(rt.stdin()), &terminal);
    let mut source = Remembering::new(rt.alloc(), input);
    let mut out = WatchedSink::new(
        OutputPort::new(rt.stdout()),
        &terminal,
        rt.stdout().is_terminal(),
    );
    let errors = WatchedSink::new(OutputPort::new(rt.stderr()), &terminal, true);
    let mut note = Retelling::new(rt.alloc(), errors);
    let certificate = certificate_of(&words);
    let mut files = SystemFiles::new(&rt, &terminal, start, certificate);
    let reader = Rereading::new(&rt);
    let status = serve(
        rt.alloc(),
        &words,
        &mut files,
        &mut source,
        &mut out,
        &mut note,
        &reader,
        &terminal,
    );
    terminal.wipe();
    drop(standing);
    ExitCode::from(status.number())
}
