//! The lines of a log within the text of a certificate.
ghost use Rattle.std.specs.Prelude.{◌≡◌, ◌++◌, ◌-◌, ◌≤◌, ◌∷◌, [], OnOk, IfOk};
ghost use Rattle.text_core.specs.Lines.{lines_of};
ghost use Rattle.cert_theory.specs.Spelling.{size_line, text_of, done_text};
ghost use Rattle.chain_theory.specs.Limits.{most_steps};
ghost use Rattle.cmd_formula.specs.LogLines as spec;

use std::alloc::{AllocError, Global};
use text_core::{next_line, push_number};

/// The text after the first line that is `word`; nothing if there is no such line.
#[tactic(auto, unfolding(crate::specs::LogLines::lines_after))]
fn after_line<'a>(bytes: &'a [u8], word: &[u8]) -> &'a [u8]
    ensures { lines_of result.now ≡ spec.lines_after word.now (lines_of bytes.now) }
{
    let mut left = bytes;
    while let Some((text, ended, rest)) = next_line(left) {
        if ended && text == word {
            return rest;
        }
        left = rest;
    }
    left
}

/// The text after so many lines `done`.
#[tactic(auto, unfolding(crate::specs::LogLines::after_logs))]
fn after_logs(bytes: &[u8], count: u32) -> &[u8]
    ensures { lines_of result.now ≡ spec.after_logs count (lines_of bytes.now) }
{
    let mut left = bytes;
    let mut others = count;
    while others > 0 {
        left = after_line(left, b"done");
        others -= 1;
    }
    left
}

/// The text after the first line that begins a log.
#[tactic(auto, unfolding(crate::specs::LogLines::log_from, cert_theory::specs::SubproblemLines::ended_in))]
fn log_from(bytes: &[u8]) -> &[u8]
    ensures { lines_of result.now ≡ spec.log_from (lines_of bytes.now) }
{
    let mut left = bytes;
    while let Some((text, ended, rest)) = next_line(left) {
        if ended && (text == b"refuted".as_slice() || text == b"open".as_slice()) {
            return rest;
        }
        left = rest;
    }
    left
}

/// Appends a line.
fn push_line(out: &mut Vec<u8>, text: &[u8], ended: bool) -> Result<(), AllocError>
    ensures { OnOk result (out.new.items ≡ out.old.items ++ text_of (record { text = text.now; ended = ended } ∷ [])) }
{
    out.extend_from_slice(text)?;
    if ended {
        out.push(b'\n')?;
    }
    Ok(())
}

/// Appends the lines before the first line `done`.
#[tactic(auto, unfolding(crate::specs::LogLines::lines_before))]
fn push_log(out: &mut Vec<u8>, bytes: &[u8]) -> Result<(), AllocError>
    ensures { OnOk result (out.new.items ≡ out.old.items ++
        text_of (spec.lines_before done_text (lines_of bytes.now))) }
{
    let mut left = bytes;
    while let Some((text, ended, rest)) = next_line(left) {
        if ended && text == b"done".as_slice() {
            return Ok(());
        }
        push_line(out, text, ended)?;
        left = rest;
    }
    Ok(())
}

/// The line of a size, without its LF.
#[tactic(auto, unfolding(cert_theory::specs::Spelling::size_line))]
fn size_text(alloc: Global, size: u32) -> Result<Vec<u8>, AllocError>
    ensures { IfOk result (λ text. text.items ≡ size_line size) }
{
    let mut text = Vec::new(alloc);
    text.extend_from_slice(b"size ")?;
    push_number(&mut text, size)?;
    Ok(text)
}

/// Whether more than so many lines `done` come before the first line that is `word`.
#[tactic(auto, unfolding(crate::specs::LogLines::has_log))]
fn has_log(bytes: &[u8], word: &[u8], others: u32) -> bool
    ensures { result ≡ spec.has_log word.now others (lines_of bytes.now) }
{
    let mut left = bytes;
    let mut count = others;
    while let Some((text, ended, rest)) = next_line(left) {
        if ended && text == word {
            return false;
        }
        if ended && text == b"done".as_slice() {
            if count == 0 {
                return true;
            }
            count -= 1;
        }
        left = rest;
    }
    false
}

/// The text of the log of a part, where the certificate has it; parts are numbered from 1 on.
pub(crate) fn log_text(
    alloc: Global,
    bytes: &[u8],
    size: u32,
    part: u32,
) -> Result<Vec<u8>, AllocError>
    requires { size ≤ most_steps }
    ensures { IfOk result (λ text. text.items ≡ text_of (spec.log_lines size (part - 1) (lines_of bytes.now))) }
{
    let word = size_text(alloc, size)?;
    let next = size_text(alloc, size + 1)?;
    let section = after_line(bytes, &word);
    let others = part.saturating_sub(1);
    let mut text = Vec::new(alloc);
    if has_log(section, &next, others) {
        push_log(&mut text, log_from(after_logs(section, others)))?;
    }
    Ok(text)
}
