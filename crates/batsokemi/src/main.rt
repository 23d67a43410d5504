//! The program `batsokemi`: it collects the arguments, wraps the standard streams in ports, and calls
//! `chain_app::run`.
#![tactic(auto)]

use chain_app::{Status, run};
use port_io::{InputPort, OutputPort};
use std::process::ExitCode;
use std::{env, io};

/// The arguments after the program's name. An argument that isn't UTF-8 is a usage error.
fn words_of(rt: &HostRuntime) -> Result<Vec<String>, Status> {
    let collected = match env::args(rt) {
        Ok(words) => words.skip(1).collect(rt.alloc()),
        Err(error) if error.kind() == io::ErrorKind::OutOfMemory => return Err(Status::Memory),
        Err(_) => return Err(Status::Usage),
    };
    collected.map_err(|_| Status::Memory)
}

/// Reports that there are no words, by the error line of the status.
fn report_no_words(rt: &HostRuntime, status: Status) {
    let _ = match status {
        Status::Memory => eprintln!(rt; "error: Memory"),
        _ => eprintln!(rt; "error: Usage"),
    };
}

fn main(rt: HostRuntime) -> ExitCode {
    let words = match words_of(&rt) {
        Ok(words) => words,
        Err(status) => {
            report_no_words(&rt, status);
            return ExitCode::from(status.number());
        }
    };
    let mut source = InputPort::new(rt.stdin());
    let mut out = OutputPort::new(rt.stdout());
    let mut note = OutputPort::new(rt.stderr());
    let status = run(rt.alloc(), &words, &mut source, &mut out, &mut note);
    ExitCode::from(status.number())
}
