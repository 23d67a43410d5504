//! Reads what a line wishes.
ghost use Rattle.std.specs.Prelude.{◌≡◌, map, IfOk};
ghost use Rattle.std.specs.Option.{option_map};
ghost use Rattle.std.specs.String.{string_bytes};
ghost use Rattle.file_words.specs.Lines.{line_value};
ghost use Rattle.wish_words.specs.Read.{wished_value};
ghost use Rattle.wish_words.specs.WishWords as spec;

use crate::stripping::plain_words;
use crate::values::{form_in, is_blif, wishes_in};
use file_words::FileLine;
use format_words::{is_word, wants_aiger};
use std::alloc::{AllocError, Global};
use wish_names::Wishes;

/// What a line wishes.
#[derive(Drop)]
pub struct WishedWords {
    pub wishes: Wishes,
    /// Whether it reads AIGER.
    pub aiger: bool,
    /// The command's name and its options without wishes.
    pub words: Vec<String>,
}

/// What the options of `improve` wish, whose name this is.
fn wished_as(
    alloc: Global,
    aiger: bool,
    output: &Option<String>,
    name: &str,
    options: &[String],
) -> Result<Option<WishedWords>, AllocError>
    ensures { IfOk result (λ found. option_map wished_value found ≡
        spec.wished_as aiger (option_map string_bytes output.now) name.now (map string_bytes options.now)) }
{
    let blif = is_blif(aiger, options);
    let Some(wishes) = wishes_in(options, aiger, blif, form_in(aiger, output)) else {
        return Ok(None);
    };
    let words = plain_words(alloc, name, aiger, options)?;
    Ok(Some(WishedWords {
        wishes,
        aiger,
        words,
    }))
}

/// What a line wishes; None if it is that of another command, wishes nothing, or has a value that is none. The only
/// error is out of memory.
pub fn read_wishes(alloc: Global, line: &FileLine) -> Result<Option<WishedWords>, AllocError>
    ensures { IfOk result (λ found. option_map wished_value found ≡ spec.wished_in (line_value line.now)) }
{
    let Some((name, options)) = line.words.split_first() else {
        return Ok(None);
    };
    if !is_word(name.as_bytes(), b"improve") {
        return Ok(None);
    }
    let aiger = wants_aiger(options, &line.operands);
    wished_as(alloc, aiger, &line.output, name.as_str(), options)
}
