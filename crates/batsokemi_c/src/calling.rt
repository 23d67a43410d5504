//! A run of the program in memory.
ghost use Rattle.std.specs.Prelude.{◌≡◌};
ghost use Rattle.chain_app.specs.KeepsPromises.{KeepsPromises};
ghost use Rattle.chain_app.specs.Pair.{KeepsPair};
ghost use Rattle.batsokemi_c.specs.Called.{empty_sink, IsCalled};

use crate::input::Input;
use crate::words::words_of;
use chain_app::{Status, run, run_pair};
use port_io::MemorySink;
use std::alloc::Global;

/// Runs the program over two empty sinks, unless memory runs out while the command line is split into words. If a sink
/// failed, for want of memory, the status says so.
#[tactic(auto, using(crate::specs::CallLaws::calling))]
pub fn call(
    alloc: Global,
    command: &[u8],
    input: &[u8],
    out: &mut MemorySink,
    note: &mut MemorySink,
) -> Status
    requires out { out.old ≡ empty_sink }
    requires note { note.old ≡ empty_sink }
    ensures { IsCalled KeepsPromises command.now input.now out.new.written note.new.written result }
{
    let Ok(words) = words_of(alloc, command) else {
        return Status::Memory;
    };
    let mut source = Input::new(input);
    let ended = run(alloc, &words, &mut source, out, note);
    if out.faults() > 0 {
        return Status::WriteFault;
    }
    if note.faults() > 0 {
        return Status::WriteFault;
    }
    ended
}

/// Compares two texts over two empty sinks, in the same way.
#[tactic(auto, using(crate::specs::CallLaws::calling))]
pub fn call_pair(
    alloc: Global,
    command: &[u8],
    first: &[u8],
    second: &[u8],
    out: &mut MemorySink,
    notes: &mut MemorySink,
) -> Status
    requires out { out.old ≡ empty_sink }
    requires notes { notes.old ≡ empty_sink }
    ensures { IsCalled (KeepsPair first.now) command.now second.now out.new.written notes.new.written result }
{
    let Ok(words) = words_of(alloc, command) else {
        return Status::Memory;
    };
    let mut source = Input::new(second);
    let ended = run_pair(alloc, &words, first, &mut source, out, notes);
    if out.faults() > 0 {
        return Status::WriteFault;
    }
    if notes.faults() > 0 {
        return Status::WriteFault;
    }
    ended
}
