//! The trait of state machines that take the lines of a text one by one.
ghost use Rattle.std.specs.Prelude.{◌≡◌, ℕ, ◌+◌, ◌^◌, ◌<◌, List, [], ◌∷◌, Result, Err, IfOk};
ghost use Rattle.text_core.specs.Lines.{Line, lines_of};
ghost use Rattle.line_reader.specs.TextLines.{line_of};
ghost use Rattle.line_reader.specs.Splits.{HasNoEnd, IsPlace};
ghost use Rattle.line_reader.specs.Reader.{Judged};

use crate::line::TextLine;
use std::alloc::Global;

/// A state of reading a text line by line: what is expected next, and what is kept of the lines so far.
pub trait LineStage: Drop + Sized {
    /// Why a text is refused.
    type Fault: Drop;

    /// The result of a text.
    type End: Drop;

    /// The invariant of a stage, given the number of the next line.
    ghost whole: { Self → ℕ → Type 0 };

    /// It is the state of the text with all these lines (third argument), where the next line has this number
    /// (first) and these lines come next (second).
    ghost stands: { Self → ℕ → List Line → List Line → Type 0 };

    /// A text of these lines is refused with this fault.
    ghost refuses: { Self.Fault → List Line → Type 0 };

    /// This is the result of a text, or its fault.
    ghost gives: { Result Self.End Self.Fault → List ℕ → Type 0 };

    /// The state before the first line.
    fn start(alloc: Global) -> Self
        ensures whole { whole result 1 }
        ensures stands { (text : List ℕ) → stands result 1 (lines_of text) (lines_of text) };

    /// Takes the next line. A refusal holds for every text that begins with the lines so far.
    fn take(self, alloc: Global, line: &TextLine) -> Result<Self, Self::Fault>
        requires whole { whole self line.now.number }
        requires number { line.now.number < 2 ^ 32 }
        ensures whole { IfOk result (λ s. whole s (line.now.number + 1)) }
        ensures stands { (lines ls all : List Line) → HasNoEnd line.now.text.now → IsPlace line.now.number lines all →
            stands self line.now.number lines all → lines ≡ line_of line.now ∷ ls →
            Judged stands refuses result (line.now.number + 1) ls all };

    /// The result of a text, after its last line; `number` is the one that a further line would have.
    fn end(self, alloc: Global, number: u32) -> Result<Self::End, Self::Fault>
        requires { whole self number }
        ensures { (text : List ℕ) → IsPlace number [] (lines_of text) → stands self number [] (lines_of text) →
            gives result text };

    /// The fault that memory ran out. It may come at any time.
    fn no_memory() -> Self::Fault
        ensures { (all : List Line) → refuses result all };

    /// The result of a text that is refused is its fault.
    ghost refusal: { (e : Self.Fault) (text : List ℕ) → refuses e (lines_of text) → gives (Err e) text };
}
