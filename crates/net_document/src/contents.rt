//! The content of a line: the line without its CR, its comment and its trailing blanks. Each function is a loop
//! that follows the recursion of its definition.
ghost use Rattle.std.specs.Prelude.{◌≡◌};
ghost use Rattle.std.specs.Option.{option_copied};
ghost use Rattle.net_document.specs.Contents.{is_blank as is_blank_of, before_comment as before_comment_of, trimmed};
ghost use Rattle.net_document.specs.Contents.{without_last as without_last_of};
ghost use Rattle.net_document.specs.Contents.{without_return as without_return_of, content_of as content_of_line};

/// Whether a byte is a space or a tab.
pub fn is_blank(byte: u8) -> bool
    ensures { result ≡ is_blank_of byte }
{
    byte == b' ' || byte == b'\t'
}

/// `text` before the first `#`.
#[tactic(auto, using(text_core::specs::Splits::splits), unfolding(crate::specs::Contents::before_from))]
fn before_comment(text: &[u8]) -> &[u8]
    ensures content { result.now ≡ before_comment_of text.now }
{
    let mut at = 0;
    let mut left = text;
    while let Some((byte, rest)) = left.split_first() {
        if *byte == b'#' {
            let (prefix, _) = text.split_at(at);
            return prefix;
        }
        at += 1;
        left = rest;
    }
    text
}

/// A text without its trailing blanks.
#[tactic(auto, using(crate::specs::EndLaws::ends))]
fn trim(text: &[u8]) -> &[u8]
    ensures { result.now ≡ trimmed text.now }
{
    let mut left = text;
    while let Some((last, prefix)) = left.split_last() {
        if !is_blank(*last) {
            return left;
        }
        left = prefix;
    }
    left
}

/// `text` without its last byte, if that is `byte`, else None.
#[tactic(auto, using(crate::specs::EndLaws::ends))]
pub fn without_last(byte: u8, text: &[u8]) -> Option<&[u8]>
    ensures { option_copied result ≡ without_last_of byte text.now }
{
    let (last, prefix) = text.split_last()?;
    if *last == byte { Some(prefix) } else { None }
}

/// A line without its final CR, if an LF follows it.
fn without_return(text: &[u8], ended: bool) -> &[u8]
    ensures { result.now ≡ without_return_of (record { text = text.now; ended = ended }) }
{
    if !ended {
        return text;
    }
    match without_last(b'\r', text) {
        Some(prefix) => prefix,
        None => text,
    }
}

/// The content of a line; `ended` tells whether an LF follows it.
pub fn content_of(text: &[u8], ended: bool) -> &[u8]
    ensures { result.now ≡ content_of_line (record { text = text.now; ended = ended }) }
{
    trim(before_comment(without_return(text, ended)))
}
