//! The command that shows lines.
ghost use Rattle.std.specs.Prelude.{ℕ, ◌≤◌, List, length};
ghost use Rattle.frame_core.specs.Views.{Judges};
ghost use Rattle.line_reader.specs.Reader.{IsReader, StandsFor};
ghost use Rattle.line_reader.specs.Seen.{seen};
ghost use Rattle.shown_lines.specs.ShownReport.{shown_task, most_shown};
ghost use Rattle.shown_lines.specs.ShownStages.{has_shown, is_stage};

use crate::stage::ShownStage;
use frame_core::{Reply, RunEnd, Status, Stop, StreamJob, finish};
use line_reader::PieceReader;
use port_io::Sink;
use std::alloc::{AllocError, Global};

/// The most bytes that are read.
const MOST_BYTES: usize = 1_099_511_627_776;

/// The reply at the end of an answer.
#[tactic(auto, using(crate::proofs::Replying::replying))]
fn reply_of(kept: PieceReader<ShownStage>) -> Result<Reply, Stop>
    requires { IsReader is_stage (seen kept) }
    ensures { (bytes : List ℕ) → StandsFor has_shown (seen kept) bytes → length bytes ≤ most_shown →
        Judges shown_task bytes result }
{
    match kept.finish() {
        Ok(text) => Ok(Reply {
            text,
            report: None,
            status: Status::Done,
        }),
        Err(AllocError) => Err(Stop::NoMemory),
    }
}

/// The command: the lines of an answer without its certificate.
#[derive(Drop)]
pub struct ShowLines;

impl StreamJob for ShowLines {
    ghost use Rattle.line_reader.specs.Reader.{IsReader, StandsFor};
    ghost use Rattle.line_reader.specs.Seen.{seen};
    ghost use Rattle.shown_lines.specs.ShownReport.{shown_task};
    ghost use Rattle.shown_lines.specs.ShownStages.{has_shown, is_stage};

    ghost task = { λ _. shown_task };

    ghost ready = { λ _. Unit {0} };

    type Kept = PieceReader<ShownStage>;

    ghost holds = { λ _ kept bytes. StandsFor has_shown (seen kept) bytes };

    ghost whole = { λ _ kept. IsReader is_stage (seen kept) };

    ghost count = { λ _ kept. 0 };

    fn reads(&self) -> Option<usize> {
        Some(MOST_BYTES)
    }

    fn begin(&self, alloc: Global) -> PieceReader<ShownStage> {
        PieceReader::new(alloc)
    }

    fn take(
        &self,
        _alloc: Global,
        kept: PieceReader<ShownStage>,
        piece: &[u8],
    ) -> Result<PieceReader<ShownStage>, AllocError> {
        kept.feed(piece)
    }

    #[tactic(auto, using(frame_core::specs::PerformingLaws::answered))]
    fn answer<O: Sink, N: Sink>(
        &self,
        _alloc: Global,
        kept: PieceReader<ShownStage>,
        out: &mut O,
        note: &mut N,
    ) -> RunEnd {
        finish(reply_of(kept), out, note)
    }
}
