//! Jobs of commands that compute their whole reply before anything is written.
ghost use Rattle.std.specs.Prelude.{◌≡◌};
ghost use Rattle.frame_core.specs.Task.{Task, IsWithin};
ghost use Rattle.frame_core.specs.Views.{Judges};

use crate::performing::Job;
use crate::replies::{RunEnd, Reply, Stop};
use crate::sending::finish;
use port_io::Sink;
use std::alloc::Global;

/// A command that computes its whole reply before anything is written.
pub trait Replier {
    /// Its specification: the task.
    ghost task: { Self → Task };

    /// The precondition on its arguments.
    ghost ready: { Self → Type 0 };

    /// The most bytes that it reads; None if it never calls its source.
    fn reads(&self) -> Option<usize>
        ensures { result ≡ (task self.now).reads };

    /// The reply to an input, or why there is none. The input has at most `reads` bytes.
    fn reply(&self, alloc: Global, bytes: &[u8]) -> Result<Reply, Stop>
        requires within { IsWithin (task self.now).reads bytes.now }
        requires ready { ready self.now }
        ensures { Judges (task self.now) bytes.now result };
}

/// The job of a command that computes its whole reply before anything is written.
#[derive(Drop)]
pub struct AtOnce<R>(pub R);

impl<R: Replier> Job for AtOnce<R> {
    ghost task = { λ job. R.task job.0 };

    ghost ready = { λ job. R.ready job.0 };

    fn reads(&self) -> Option<usize> {
        self.0.reads()
    }

    #[tactic(auto, using(crate::specs::PerformingLaws::answered))]
    fn answer<O: Sink, N: Sink>(
        &self,
        alloc: Global,
        bytes: &[u8],
        out: &mut O,
        note: &mut N,
    ) -> RunEnd {
        finish(self.0.reply(alloc, bytes), out, note)
    }
}
