//! The command `synth`: a certificate that is written during the search. What has been written isn't kept in
//! memory.
ghost use Rattle.std.specs.Prelude.{◌≡◌, ℕ, ◌≤◌, List, length, Err};
ghost use Rattle.text_core.specs.Lines.{lines_of};
ghost use Rattle.tt_core.specs.Gives.{Fails};
ghost use Rattle.settings.specs.declared.synth.SynthSettings.{SynthSettings};
ghost use Rattle.synth_core.specs.Pieces.{IsInProgress};
ghost use Rattle.synth_core.specs.Tables.{tables_alone};
ghost use Rattle.frame_core.specs.Outside.{PortState, port_state};
ghost use Rattle.cmd_synth.specs.SynthWriting.{IsOut, IsAfterPiece, StaysWithinMax, HasEndedAs};
ghost use Rattle.settings.specs.Synth.{IsInRange};
ghost use Rattle.cmd_lines.specs.TableLines.{most_of_tables};
ghost use Rattle.cmd_synth.specs.SynthReport.{verdict_status as verdict_status_of, synth_refusal, synth_task};
ghost use Rattle.frame_core.specs.Views.{refusal_value, Judges};

use cmd_lines::{MOST_BYTES_OF_TABLES, name_spec, spec_status};
use frame_core::{Job, Refusal, RunEnd, Status, Stop, finish};
use port_io::{Sink, WriteFault, write_all};
use progress::Tell;
use sat_solve::Solver;
use size_loop::SizeSearch;
use std::alloc::Global;
use std::marker::PhantomData;
use synth_core::{BegunSynthesis, Piece, SynthSettings, Verdict, begin, next_piece};
use tt_core::SpecError;

/// The status of a verdict.
pub(crate) fn verdict_status(verdict: Verdict) -> Status
    ensures { result ≡ verdict_status_of verdict }
{
    match verdict {
        Verdict::Minimum(_) | Verdict::NoChain(_) => Status::Done,
        Verdict::Bounded { .. } | Verdict::Open { .. } => Status::Undecided,
    }
}

/// A fault of the tables as a refusal.
pub(crate) fn refusal_of(error: SpecError) -> Refusal
    ensures { refusal_value result ≡ synth_refusal error }
{
    Refusal {
        status: spec_status(error),
        line: name_spec(error),
    }
}

/// The result of writing one more piece of a certificate.
#[derive(Drop)]
pub(crate) enum Next {
    /// The search goes on.
    On(SizeSearch),
    /// The command has ended.
    End(RunEnd),
}

/// Searches the next size, and writes its section of the certificate.
#[tactic(auto, using(crate::proofs::Writing::writing))]
fn write_next<S: Solver, O: Sink, T: Tell>(
    alloc: Global,
    search: SizeSearch,
    out: &mut O,
    tell: &T,
) -> Next
    ensures comes { (settings : SynthSettings) (bytes : List ℕ) (first : PortState) → length bytes ≤ most_of_tables →
        IsOut settings bytes first (port_state O.written O.faults out.old) search →
        IsAfterPiece settings bytes first (port_state O.written O.faults out.new) result }
    ensures up { StaysWithinMax search result }
{
    let Ok(piece) = next_piece::<S, T>(alloc, search, tell) else {
        return Next::End(RunEnd::OutOfMemoryMidway);
    };
    match piece {
        Piece::Section { search, text } => match write_all(out, &text) {
            Ok(()) => Next::On(search),
            Err(WriteFault::WriteFault) => Next::End(RunEnd::Truncated),
        },
        Piece::Trailer { text, verdict } => match write_all(out, &text) {
            Ok(()) => Next::End(RunEnd::Answered(verdict_status(verdict))),
            Err(WriteFault::WriteFault) => Next::End(RunEnd::Truncated),
        },
    }
}

/// Writes the sections of a search and the trailer, each as soon as it is found.
#[tactic(auto, using(crate::proofs::Writing::writing))]
fn write_sections<S: Solver, O: Sink, T: Tell>(
    alloc: Global,
    search: SizeSearch,
    out: &mut O,
    tell: &T,
) -> RunEnd
    ensures { (settings : SynthSettings) (bytes : List ℕ) (first : PortState) → length bytes ≤ most_of_tables →
        IsOut settings bytes first (port_state O.written O.faults out.old) search →
        HasEndedAs settings bytes result first (port_state O.written O.faults out.new) }
{
    let mut search = search;
    loop {
        match write_next::<S, O, T>(alloc, search, out, tell) {
            Next::On(next) => search = next,
            Next::End(ended) => return ended,
        }
    }
}

/// Writes a certificate, from its header on.
#[tactic(auto, using(crate::proofs::Writing::writing))]
fn write_certificate<S: Solver, O: Sink, T: Tell>(
    alloc: Global,
    begun: BegunSynthesis,
    out: &mut O,
    tell: &T,
) -> RunEnd
    ensures { (settings : SynthSettings) (bytes : List ℕ) → length bytes ≤ most_of_tables →
        IsInProgress bytes settings begun.search begun.text.items →
        HasEndedAs settings bytes result (port_state O.written O.faults out.old)
        (port_state O.written O.faults out.new) }
{
    if let Err(WriteFault::WriteFault) = write_all(out, &begun.text) {
        return RunEnd::Truncated;
    }
    write_sections::<S, O, T>(alloc, begun.search, out, tell)
}

/// Why there is no certificate.
#[tactic(auto, using(crate::proofs::Synthesising::reporting))]
fn stop_of(error: SpecError) -> Stop
    ensures { (settings : SynthSettings) (bytes : List ℕ) → length bytes ≤ most_of_tables →
        Fails error (tables_alone (lines_of bytes)) → Judges (synth_task settings) bytes (Err result) }
{
    match error {
        SpecError::Memory => Stop::NoMemory,
        error => Stop::NoAnswer(refusal_of(error)),
    }
}

/// The command: a certificate of the fewest steps for tables, searched with the solver `S`.
#[derive(Drop)]
pub struct Synth<'a, S, T> {
    /// The settings of the search.
    pub settings: SynthSettings,
    /// The solver.
    pub solver: PhantomData<S>,
    /// Who is told of the progress.
    pub tell: &'a T,
}

impl<'a, S: Solver, T: Tell> Job for Synth<'a, S, T> {
    ghost task = { λ job. synth_task job.settings };

    ghost ready = { λ job. IsInRange job.settings };

    fn reads(&self) -> Option<usize> {
        Some(MOST_BYTES_OF_TABLES)
    }

    #[tactic(auto, using(crate::proofs::Writing::answering))]
    fn answer<O: Sink, N: Sink>(
        &self,
        alloc: Global,
        bytes: &[u8],
        out: &mut O,
        note: &mut N,
    ) -> RunEnd {
        match begin(alloc, bytes, &self.settings) {
            Ok(begun) => write_certificate::<S, O, T>(alloc, begun, out, self.tell),
            Err(error) => finish(Err(stop_of(error)), out, note),
        }
    }
}
