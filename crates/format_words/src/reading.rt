//! Reads the formats that words ask for.
ghost use Rattle.std.specs.Prelude.{◌≡◌, ℕ, List, IfOk};
ghost use Rattle.command_line.specs.CommandLine.{spelled};
ghost use Rattle.file_words.specs.Lines.{line_value};
ghost use Rattle.format_words.specs.FormatsAsked.{asked_in as asked_in_line, plain_in, asked_of, plain_words};
ghost use Rattle.format_words.specs.WordsOf.{words_of};

use crate::asking::{FormatsAsked, asked_in};
use crate::rebuilding::{rebuilds, rebuilt};
use file_words::{FileLine, read_line};
use std::alloc::{AllocError, Global};

/// What words ask for.
#[derive(Drop)]
pub struct FormatWords {
    /// The formats.
    pub asked: FormatsAsked,
    /// The words that mean the same without formats; None if they are the words themselves.
    pub words: Option<Vec<String>>,
}

/// The formats of a line, and its words without them.
#[tactic(auto, using(crate::proofs::LineFormats::lines))]
fn formats_of(alloc: Global, line: &FileLine) -> Result<FormatWords, AllocError>
    ensures asked { IfOk result (λ found. found.asked ≡
        asked_in_line (line_value line.now).words (line_value line.now).operands) }
    ensures words { IfOk result (λ found. (raw : List (List ℕ)) → words_of raw found.words ≡
        plain_in (asked_in_line (line_value line.now).words (line_value line.now).operands) raw (line_value line.now)) }
{
    let asked = asked_in(&line.words, &line.operands);
    if !rebuilds(asked, &line.words) {
        return Ok(FormatWords { asked, words: None });
    }
    let words = rebuilt(alloc, asked, line)?;
    Ok(FormatWords {
        asked,
        words: Some(words),
    })
}

/// The formats that words ask for, and the words that mean the same without them. The only error is out of memory.
#[tactic(auto, using(crate::proofs::LineFormats::reading))]
pub fn read_formats(alloc: Global, words: &Vec<String>) -> Result<FormatWords, AllocError>
    ensures asked { IfOk result (λ found. found.asked ≡ asked_of (spelled words.now)) }
    ensures words { IfOk result (λ found. words_of (spelled words.now) found.words ≡ plain_words (spelled words.now)) }
{
    let found = read_line(alloc, words)?;
    let Some(line) = &found else {
        return Ok(FormatWords {
            asked: FormatsAsked::Own,
            words: None,
        });
    };
    formats_of(alloc, line)
}
