//! Lines for people on the files of a line: those that can't be written, and netlists that are read as BLIF whatever
//! their names say.

use file_words::{FileLine, is_standard};
use format_names::{FormatPair, NetFormat};
use help_text::push_quoted;
use std::alloc::AllocError;

/// Whether an option is among the words of a line without files.
pub(crate) fn names(name: &[u8], words: &[String]) -> bool {
    for word in words {
        if word.as_bytes() == name {
            return true;
        }
    }
    false
}

/// The word after an option; None if it isn't named.
fn value_of<'a>(name: &[u8], words: &'a [String]) -> Option<&'a String> {
    let mut is_next = false;
    for word in words {
        if is_next {
            return Some(word);
        }
        is_next = word.as_bytes() == name;
    }
    None
}

/// Whether a file is named, and isn't standard output.
fn is_file(file: Option<&String>) -> bool {
    match file {
        Some(name) => !is_standard(name.as_str()),
        None => false,
    }
}

/// Appends the name of a file that is written, if it isn't standard output.
fn push_file(text: &mut Vec<u8>, file: Option<&String>) -> Result<(), AllocError> {
    let Some(name) = file else {
        return Ok(());
    };
    if is_standard(name.as_str()) {
        return Ok(());
    }
    if !text.is_empty() {
        text.extend_from_slice(b", ")?;
    }
    push_quoted(text, name.as_bytes())
}

/// Appends what a line writes, to a text that is empty; nothing if it names no file.
fn push_written(text: &mut Vec<u8>, line: &FileLine) -> Result<(), AllocError> {
    let output = line.output.as_ref();
    let certificate = line.certificate.as_ref();
    let formula = value_of(b"--formula", &line.words);
    let log = value_of(b"--log", &line.words);
    if is_file(output) {
        push_file(text, output)?;
    } else if is_file(certificate) || is_file(formula) || is_file(log) {
        text.extend_from_slice(b"standard output")?;
    }
    push_file(text, certificate)?;
    push_file(text, formula)?;
    push_file(text, log)
}

/// Appends what a line writes, to a text that is empty, where its error line doesn't say what couldn't be written.
pub(crate) fn push_unnamed(
    text: &mut Vec<u8>,
    line: &FileLine,
    error_line: &[u8],
) -> Result<(), AllocError> {
    if error_line != b"error: WriteFault".as_slice() {
        return Ok(());
    }
    push_written(text, line)?;
    if text.is_empty() {
        return Ok(());
    }
    text.extend_from_slice(b": writing failed: is there space left, or was the reader closed?\n")
}

/// Whether both netlists are in BLIF.
fn are_blif(formats: FormatPair) -> bool {
    matches!(formats.first, NetFormat::Blif) && matches!(formats.second, NetFormat::Blif)
}

/// Appends what else there is to say of the files of a line. Its words ask for netlists in these formats.
pub(crate) fn push_remarks(
    text: &mut Vec<u8>,
    formats: FormatPair,
    line: &FileLine,
) -> Result<(), AllocError> {
    if names(b"--formula", &line.words) && !are_blif(formats) {
        text.extend_from_slice(b"batsokemi: with --formula both netlists are read as BLIF\n")?;
    }
    Ok(())
}
