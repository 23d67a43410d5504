//! The program as a C function: a command line and an input in, a status and two texts out.
//!
//! This is a static library for programs that make many calls; its header is `include/batsokemi.h`. The function
//! `batsokemi_run` calls `chain_app::run` over a source and two sinks in memory, so its contract is the
//! program's (`specs/Called`): a run with these words and this input kept its promises, and the buffers have
//! what it wrote if it fits. `batsokemi_run_pair` does the same for `equiv` of two texts, which are never joined. There
//! is no state between calls, and concurrent calls share nothing.
//!
//! ```text
//! struct batsokemi_answer a = batsokemi_run("synth", 5, tables, length, output, sizeof output, notes, sizeof
//! notes);
//! ```
#![tactic(auto)]

ghost use Rattle.std.specs.Prelude.{◌≡◌};
ghost use Rattle.batsokemi_c.specs.Called.{IsAnswered, IsPairAnswered};

mod answer;
mod calling;
mod input;
pub mod laws;
mod room;
mod words;

pub use answer::Answer;
use calling::{call, call_pair};
use port_io::MemorySink;
use room::put;
use std::alloc::Global;

/// Runs the command line `command` on the bytes of `input`. Words are separated by single blanks, as in
/// `synth --max 3`; the empty text has no command.
///
/// The result has the program's exit status, and the lengths of the output and of the notes in bytes. A text that
/// fits into its buffer is at the buffer's start; if it doesn't fit, the buffer is unchanged.
#[unsafe(no_mangle)]
pub extern "C" fn batsokemi_run(
    alloc: Global,
    command: &[u8],
    input: &[u8],
    output: &mut [u8],
    notes: &mut [u8],
) -> Answer
    ensures { IsAnswered command.now input.now output.old output.new notes.old notes.new
        result.status result.output result.notes }
{
    let mut out = MemorySink::new(alloc, Vec::new(alloc));
    let mut note = MemorySink::new(alloc, Vec::new(alloc));
    let status = call(alloc, command, input, &mut out, &mut note);
    put(out.written(), output);
    put(note.written(), notes);
    Answer {
        status: u32::from(status.number()),
        output: out.written().len(),
        notes: note.written().len(),
    }
}

/// Compares two netlists, each in a text of its own, as the command line `command` asks, which is one of `equiv`. Any
/// other words are a usage error.
#[unsafe(no_mangle)]
pub extern "C" fn batsokemi_run_pair(
    alloc: Global,
    command: &[u8],
    first: &[u8],
    second: &[u8],
    output: &mut [u8],
    notes: &mut [u8],
) -> Answer
    ensures { IsPairAnswered command.now first.now second.now output.old output.new notes.old notes.new
        result.status result.output result.notes }
{
    let mut out = MemorySink::new(alloc, Vec::new(alloc));
    let mut note = MemorySink::new(alloc, Vec::new(alloc));
    let status = call_pair(alloc, command, first, second, &mut out, &mut note);
    put(out.written(), output);
    put(note.written(), notes);
    Answer {
        status: u32::from(status.number()),
        output: out.written().len(),
        notes: note.written().len(),
    }
}

/// The version of the functions: the header that was made for them has the same one.
#[unsafe(no_mangle)]
pub extern "C" fn batsokemi_version() -> u32
    ensures { result ≡ 2 }
{
    2
}
