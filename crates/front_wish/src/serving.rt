//! A run by wishes over the files of a line.
ghost use Rattle.std.specs.Prelude.{List, ℕ};
ghost use Rattle.frame_core.specs.Run.{before_after};
ghost use Rattle.file_io.specs.Files.{files_before_after};
ghost use Rattle.front_core.specs.Front.{front_run};
ghost use Rattle.front_wish.specs.AskedWishes.{wish_value, IsReady};
ghost use Rattle.front_wish.specs.WishRuns.{IsWishDone, IsWishServed};

use crate::asking::WishLine;
use crate::wishing::Wishing;
use file_io::{Outside, Reading};
use frame_core::Status;
use front_core::{input_of, serve_outputs};
use front_guide::{Recalls, Rereads, Retells, hint_of_netlist};
use port_io::{Sink, Source};
use progress::Tell;
use std::alloc::Global;

/// Improves the netlist of a line by its wishes.
#[tactic(auto, using(crate::proofs::Runs::answers))]
fn run_wish<W: Outside, S: Source, O: Sink, N: Sink, T: Tell>(
    alloc: Global,
    wish: &WishLine,
    outside: &mut W,
    source: &mut S,
    out: &mut O,
    note: &mut N,
    tell: &T,
) -> Status
    requires { IsReady wish.now.format wish.now.settings }
    ensures { (words : List (List ℕ)) → IsWishDone (wish_value wish.now) (front_run words
        (files_before_after W.holds W.faults outside.old outside.new)
        (before_after S.left S.faults source.old source.new)
        (before_after O.written O.faults out.old out.new)
        (before_after N.written N.faults note.old note.new)
        result) }
{
    let wishing = Wishing {
        format: wish.format,
        settings: wish.settings,
        wishes: wish.wishes,
        tell,
    };
    let input = input_of(&wish.line);
    let reading = Reading {
        input,
        work: &wishing,
    };
    serve_outputs(alloc, &reading, &wish.line, outside, source, out, note)
}

/// Improves the netlist of a line by its wishes; where there is no answer, a line for people comes after the error
/// line.
#[tactic(auto, using(crate::proofs::Runs::runs))]
pub fn serve_wish<W: Outside, S: Recalls, O: Sink, N: Retells, R: Rereads, T: Tell>(
    alloc: Global,
    wish: &WishLine,
    outside: &mut W,
    source: &mut S,
    out: &mut O,
    note: &mut N,
    reader: &R,
    tell: &T,
) -> Status
    requires { IsReady wish.now.format wish.now.settings }
    ensures { (words : List (List ℕ)) → IsWishServed (wish_value wish.now) (front_run words
        (files_before_after W.holds W.faults outside.old outside.new)
        (before_after S.left S.faults source.old source.new)
        (before_after O.written O.faults out.old out.new)
        (before_after N.written N.faults note.old note.new)
        result) }
{
    let status = run_wish::<W, S, O, N, T>(alloc, wish, outside, source, out, note, tell);
    hint_of_netlist(alloc, wish.format, &wish.line, status, source, note, reader);
    status
}
