//! Commands that take their input in pieces, and the loop that reads for them.
ghost use Rattle.std.specs.Prelude.{◌≡◌, ℕ, ◌+◌, ◌<◌, ◌≤◌, List, [], ◌++◌, Some, length, IfOk, IsErrOf};
ghost use Rattle.port_io.specs.Faults.{Rose};
ghost use Rattle.frame_core.specs.Task.{Task, IsWithin};
ghost use Rattle.frame_core.specs.Run.{before_after};
ghost use Rattle.frame_core.specs.Performing.{Answers};
ghost use Rattle.frame_core.specs.Streaming.{IsCount, WereTaken};

use crate::performing::Job;
use crate::replies::RunEnd;
use port_io::{PIECE, ReadError, Sink, Source, read_piece};
use std::alloc::{AllocError, Global};

/// A command that takes its input in pieces, and keeps only what it needs of them.
pub trait StreamJob {
    /// Its specification: the task.
    ghost task: { Self → Task };

    /// The precondition on its arguments.
    ghost ready: { Self → Type 0 };

    /// The state that it keeps of its input.
    type Kept: Drop;

    /// The state represents these bytes: all that it was given.
    ghost holds: { Self → Self.Kept → List ℕ → Type 0 };

    /// The invariant of the state.
    ghost whole: { Self → Self.Kept → Type 0 };

    /// How many bytes the state has counted.
    ghost count: { Self → Self.Kept → ℕ };

    /// The most bytes that it reads; None if it never calls its source.
    fn reads(&self) -> Option<usize>
        ensures { result ≡ (task self.now).reads };

    /// The state before the first piece.
    fn begin(&self, alloc: Global) -> Self::Kept
        requires { ready self.now }
        ensures whole { whole self.now result }
        ensures holds { holds self.now result [] }
        ensures count { count self.now result ≡ 0 };

    /// Takes the next piece. Running out of memory ends the run at once; any other fault is reported at the end
    /// of the input.
    fn take(&self, alloc: Global, kept: Self::Kept, piece: &[u8]) -> Result<Self::Kept, AllocError>
        requires ready { ready self.now }
        requires whole { whole self.now kept }
        requires room { IsCount (task self.now).reads (count self.now kept + length piece.now) }
        ensures whole { IfOk result (λ next. whole self.now next) }
        ensures holds { (bytes : List ℕ) → holds self.now kept bytes →
            IfOk result (λ next. holds self.now next (bytes ++ piece.now)) }
        ensures count { IfOk result (λ next. count self.now next ≤ count self.now kept + length piece.now) };

    /// Answers the input: writes the answer's text to `out`, at once or in pieces, and its report to `note`; or
    /// has no answer, and then writes nothing.
    fn answer<O: Sink, N: Sink>(
        &self,
        alloc: Global,
        kept: Self::Kept,
        out: &mut O,
        note: &mut N,
    ) -> RunEnd
        requires ready { ready self.now }
        requires whole { whole self.now kept }
        requires within { IsCount (task self.now).reads (count self.now kept) }
        ensures { (bytes : List ℕ) → holds self.now kept bytes → IsWithin (task self.now).reads bytes →
            Answers (task self.now) bytes result
            (before_after O.written O.faults out.old out.new)
            (before_after N.written N.faults note.old note.new) };
}

/// A `Job` as a `StreamJob` that collects the pieces.
#[derive(Drop)]
pub(crate) struct Collecting<'a, J>(pub(crate) &'a J);

impl<'a, J: Job> StreamJob for Collecting<'a, J> {
    ghost task = { λ c. J.task c.0.now };

    ghost ready = { λ c. J.ready c.0.now };

    type Kept = Vec<u8>;

    ghost holds = { λ c kept bytes. kept.items ≡ bytes };

    ghost whole = { λ c kept. Unit {0} };

    ghost count = { λ c kept. length kept.items };

    fn reads(&self) -> Option<usize> {
        self.0.reads()
    }

    fn begin(&self, alloc: Global) -> Vec<u8> {
        Vec::new(alloc)
    }

    fn take(&self, _alloc: Global, kept: Vec<u8>, piece: &[u8]) -> Result<Vec<u8>, AllocError> {
        let mut kept = kept;
        kept.extend_from_slice(piece)?;
        Ok(kept)
    }

    fn answer<O: Sink, N: Sink>(
        &self,
        alloc: Global,
        kept: Vec<u8>,
        out: &mut O,
        note: &mut N,
    ) -> RunEnd {
        self.0.answer(alloc, &kept, out, note)
    }
}

/// Reads a source to its end, piece by piece, with at most `most` + 2 calls.
pub(crate) fn read_pieces<J: StreamJob, S: Source>(
    alloc: Global,
    job: &J,
    source: &mut S,
    most: usize,
) -> Result<J::Kept, ReadError>
    requires ready { J.ready job.now }
    requires most { Some most ≡ (J.task job.now).reads }
    ensures taken { IfOk result (λ kept. WereTaken most (S.left source.old) (S.left source.new) (λ bytes.
        J.holds job.now kept bytes)) }
    ensures whole { IfOk result (λ kept. J.whole job.now kept) }
    ensures count { IfOk result (λ kept. IsCount (J.task job.now).reads (J.count job.now kept)) }
    ensures too_long { (input : List ℕ) → S.left source.old ≡ Some input →
        IsErrOf result ReadError.TooLong → most < length input }
    ensures only_if_rose { IsErrOf result ReadError.ReadFault →
        Rose (S.faults source.old) (S.faults source.new) }
    ensures faultless { (IsErrOf result ReadError.ReadFault → ⊥) → S.faults source.new ≡ S.faults source.old }
{
    let mut kept = job.begin(alloc);
    let mut room = most;
    let mut buf = [0u8; PIECE];
    // Every iteration but the last takes at least one byte.
    for _turn in 0..=most {
        let piece = read_piece(source, &mut buf, room)?;
        if piece.is_empty() {
            return Ok(kept);
        }
        kept = job.take(alloc, kept, piece)?;
        room -= piece.len();
    }
    unreachable!()
}
