//! The reader of a text that comes in pieces, which may end anywhere.
ghost use Rattle.std.specs.Prelude.{◌≡◌, ◌+◌, ◌^◌, ◌<◌, List, ℕ, [], ◌∷◌, ◌++◌, true, IfOk};
ghost use Rattle.text_core.specs.Lines.{Line, lines_of, last_line, line_bytes};
ghost use Rattle.line_reader.specs.Splits.{HasNoEnd, IsPlace, with_end};
ghost use Rattle.line_reader.specs.Reader.{Judged, IsReader, StandsFor, HasRead};
ghost use Rattle.line_reader.specs.Seen.{seen};
ghost use Rattle.line_reader.specs.Closing.{HasClosed};

use crate::line::TextLine;
use crate::stage::LineStage;
use std::alloc::Global;
use text_core::next_line;

/// The greatest number of a line. A text with more lines counts as running out of memory.
const MOST_LINES: u32 = 4_294_967_294;

/// The state of a text that was read in part. It keeps the stage and the bytes of the unfinished line; of the
/// lines before it keeps only what the stage keeps.
#[derive(Drop)]
pub struct PieceReader<S> {
    /// The stage after the whole lines so far.
    pub stage: S,
    /// The number of the next line, from 1 on.
    pub number: u32,
    /// The bytes of the next line that were fed so far.
    pub unfinished: Vec<u8>,
}

/// The state after all lines of a text.
#[derive(Drop)]
pub struct Closed<S> {
    /// The stage after all lines.
    pub stage: S,
    /// The number that the next line would have, from 1 on.
    pub number: u32,
}

/// Hands a whole line, ended by an LF, to the stage.
fn take_text<S: LineStage>(alloc: Global, stage: S, number: u32, text: &[u8]) -> Result<S, S::Fault>
    requires whole { S.whole stage number }
    ensures few { IfOk result (λ s. number + 1 < 2 ^ 32) }
    ensures whole { IfOk result (λ s. S.whole s (number + 1)) }
    ensures stands { (lines ls all : List Line) → HasNoEnd text.now → IsPlace number lines all →
        S.stands stage number lines all →
        lines ≡ record { text = text.now; ended = true } ∷ ls → Judged S.stands S.refuses result (number + 1) ls all }
{
    if number > MOST_LINES {
        // for the prover: dropped here at once; left to the exit, each of its fields would be
        drop(stage);
        return Err(S::no_memory());
    }
    let line = TextLine {
        text,
        ended: true,
        number,
    };
    stage.take(alloc, &line)
}

/// Hands the last line, which no LF ends, to the stage, unless it is empty.
fn close<S: LineStage>(stage: S, number: u32, unfinished: &Vec<u8>) -> Result<Closed<S>, S::Fault>
    requires whole { S.whole stage number }
    ensures whole { IfOk result (λ closed. S.whole closed.stage closed.number) }
    ensures stands { (all : List Line) → HasNoEnd unfinished.now.items →
        IsPlace number (last_line unfinished.now.items) all →
        S.stands stage number (last_line unfinished.now.items) all → HasClosed S.stands S.refuses result all }
{
    if unfinished.is_empty() {
        return Ok(Closed { stage, number });
    }
    if number > MOST_LINES {
        // for the prover: dropped here at once; left to the exit, each of its fields would be
        drop(stage);
        return Err(S::no_memory());
    }
    let line = TextLine {
        text: unfinished,
        ended: false,
        number,
    };
    match stage.take(*unfinished.allocator(), &line) {
        Ok(stage) => Ok(Closed {
            stage,
            number: number + 1,
        }),
        Err(fault) => Err(fault),
    }
}

impl<S: LineStage> PieceReader<S> {
    /// Nothing was fed yet. The reader itself allocates nothing; its stage may.
    #[tactic(auto, using(crate::proofs::Splitting::readers))]
    pub fn new(alloc: Global) -> PieceReader<S>
        ensures whole { IsReader S.whole (seen result) }
        ensures stands { StandsFor S.stands (seen result) [] }
    {
        PieceReader {
            stage: S::start(alloc),
            number: 1,
            unfinished: Vec::new(alloc),
        }
    }

    /// Feeds the next piece of the text. A refusal holds for every text that begins with what was fed.
    pub fn feed(self, piece: &[u8]) -> Result<PieceReader<S>, S::Fault>
        requires whole { IsReader S.whole (seen self) }
        ensures whole { IfOk result (λ reader. IsReader S.whole (seen reader)) }
        ensures read { (text : List ℕ) → StandsFor S.stands (seen self) text →
            HasRead seen S.stands S.refuses result (text ++ piece.now) }
    {
        let mut reader = self;
        let mut left = piece;
        while let Some((text, ended, rest)) = next_line(left) {
            reader = reader.feed_line(text, ended)?;
            left = rest;
        }
        Ok(reader)
    }

    /// Feeds a text without an LF, and then an LF if `ended`.
    pub fn feed_line(self, text: &[u8], ended: bool) -> Result<PieceReader<S>, S::Fault>
        requires whole { IsReader S.whole (seen self) }
        ensures whole { IfOk result (λ reader. IsReader S.whole (seen reader)) }
        ensures read { (before : List ℕ) → HasNoEnd text.now → StandsFor S.stands (seen self) before →
            HasRead seen S.stands S.refuses result (before ++ line_bytes (record { text = text.now; ended = ended })) }
    {
        if ended {
            return self.end_line(text);
        }
        let PieceReader {
            stage,
            number,
            unfinished,
        } = self;
        let mut unfinished = unfinished;
        if unfinished.extend_from_slice(text).is_err() {
            // for the prover: dropped here at once; left to the exit, each of its fields would be
            drop(stage);
            return Err(S::no_memory());
        }
        Ok(PieceReader {
            stage,
            number,
            unfinished,
        })
    }

    /// Feeds the rest of a line and its LF. A line that lies in one piece isn't copied.
    fn end_line(self, text: &[u8]) -> Result<PieceReader<S>, S::Fault>
        requires whole { IsReader S.whole (seen self) }
        ensures whole { IfOk result (λ reader. IsReader S.whole (seen reader)) }
        ensures read { (before : List ℕ) → HasNoEnd text.now → StandsFor S.stands (seen self) before →
            HasRead seen S.stands S.refuses result (before ++ with_end text.now) }
    {
        let PieceReader {
            stage,
            number,
            unfinished,
        } = self;
        let alloc = *unfinished.allocator();
        if unfinished.is_empty() {
            let stage = take_text(alloc, stage, number, text)?;
            return Ok(PieceReader {
                stage,
                number: number + 1,
                unfinished,
            });
        }
        let mut line = unfinished;
        if line.extend_from_slice(text).is_err() {
            // for the prover: dropped here at once; left to the exit, each of its fields would be
            drop(stage);
            return Err(S::no_memory());
        }
        let stage = take_text(alloc, stage, number, &line)?;
        line.clear();
        Ok(PieceReader {
            stage,
            number: number + 1,
            unfinished: line,
        })
    }

    /// Ends the text: the state after all its lines.
    pub fn closed(self) -> Result<Closed<S>, S::Fault>
        requires { IsReader S.whole (seen self) }
        ensures whole { IfOk result (λ closed. S.whole closed.stage closed.number) }
        ensures stands { (text : List ℕ) → StandsFor S.stands (seen self) text →
            HasClosed S.stands S.refuses result (lines_of text) }
    {
        let PieceReader {
            stage,
            number,
            unfinished,
        } = self;
        close(stage, number, &unfinished)
    }

    /// Ends the text: its result.
    pub fn finish(self) -> Result<S::End, S::Fault>
        requires { IsReader S.whole (seen self) }
        ensures { (text : List ℕ) → StandsFor S.stands (seen self) text → S.gives result text }
    {
        let alloc = *self.unfinished.allocator();
        match self.closed() {
            Ok(closed) => closed.stage.end(alloc, closed.number),
            Err(fault) => Err(fault),
        }
    }
}
