//! Properties of the small commands. Each law is the contract of a function with an empty body.
ghost use Rattle.std.specs.Prelude.{ℕ, List};
ghost use Rattle.frame_core.specs.Task.{IsTask, IsPrefix, MayBeLeft};
ghost use Rattle.frame_tests.specs.Small.{greeting_task, lines_text, lines_task};

/// Both tasks are well formed.
pub fn small_tasks_are_well_formed()
    ensures nothing_read { IsTask greeting_task }
    ensures in_pieces { IsTask lines_task }
{}

/// A truncated text that is written in pieces is a prefix of the answer's text.
pub fn truncated_lines_are_prefixes()
    ensures { (bytes prefix : List ℕ) → MayBeLeft lines_task bytes prefix → IsPrefix prefix (lines_text bytes) }
{}
