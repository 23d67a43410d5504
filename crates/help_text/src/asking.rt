//! The page that words ask for.

use crate::commands::{CommandName, command_named};
use crate::completing::{Shell, push_completion};
use crate::listing::push_table;
use crate::manual::push_manual;
use crate::pages::{push_command, push_program, push_version};
use crate::topics::{push_topic, topic_named};
use std::alloc::{AllocError, Global};

/// Whether a word asks for help.
fn is_help(word: &[u8]) -> bool {
    word == b"--help".as_slice() || word == b"-h".as_slice()
}

/// Whether `--help` stands among the words after a command, where an option's name may stand.
fn has_help(words: &[String]) -> bool {
    let mut is_name = true;
    for word in words {
        let bytes = word.as_bytes();
        if is_name && bytes == b"--".as_slice() {
            return false;
        }
        if is_name && is_help(bytes) {
            return true;
        }
        is_name = !(is_name && bytes == b"-o".as_slice());
    }
    false
}

/// The page of `help WORD`; None if there is none.
fn named_page(alloc: Global, word: &[u8]) -> Result<Option<Vec<u8>>, AllocError> {
    let mut page = Vec::new(alloc);
    if let Some(command) = command_named(word) {
        push_command(&mut page, command)?;
    } else if let Some(topic) = topic_named(word) {
        push_topic(&mut page, topic)?;
    } else if word == b"--manual".as_slice() {
        push_manual(&mut page)?;
    } else if word == b"--options".as_slice() {
        push_table(&mut page)?;
    } else {
        return Ok(None);
    }
    Ok(Some(page))
}

/// The completions of `help --completion SHELL`; None if there are none for that shell.
fn completion_page(alloc: Global, word: &[u8]) -> Result<Option<Vec<u8>>, AllocError> {
    let shell = if word == b"bash".as_slice() {
        Shell::Bash
    } else if word == b"zsh".as_slice() {
        Shell::Zsh
    } else if word == b"fish".as_slice() {
        Shell::Fish
    } else {
        return Ok(None);
    };
    let mut page = Vec::new(alloc);
    push_completion(&mut page, shell)?;
    Ok(Some(page))
}

/// The page of the words after `help`; None if there is none.
fn help_page(alloc: Global, words: &[String]) -> Result<Option<Vec<u8>>, AllocError> {
    let Some((word, rest)) = words.split_first() else {
        return program_page(alloc);
    };
    let Some((value, after)) = rest.split_first() else {
        return named_page(alloc, word.as_bytes());
    };
    if word.as_bytes() == b"--completion".as_slice() && after.is_empty() {
        completion_page(alloc, value.as_bytes())
    } else {
        Ok(None)
    }
}

/// The page on the program.
fn program_page(alloc: Global) -> Result<Option<Vec<u8>>, AllocError> {
    let mut page = Vec::new(alloc);
    push_program(&mut page)?;
    Ok(Some(page))
}

/// The version.
fn version_page(alloc: Global) -> Result<Option<Vec<u8>>, AllocError> {
    let mut page = Vec::new(alloc);
    push_version(&mut page)?;
    Ok(Some(page))
}

/// The page on a command.
fn command_page(alloc: Global, command: CommandName) -> Result<Option<Vec<u8>>, AllocError> {
    let mut page = Vec::new(alloc);
    push_command(&mut page, command)?;
    Ok(Some(page))
}

/// The page that words ask for: `help [COMMAND|FORMAT]`, `help --completion SHELL`, `help --manual`,
/// `help --options`, `--help`, `--version`, or a command with `--help`. None if they ask for none.
pub fn asked_page(alloc: Global, words: &[String]) -> Result<Option<Vec<u8>>, AllocError> {
    let Some((first, rest)) = words.split_first() else {
        return Ok(None);
    };
    let word = first.as_bytes();
    if word == b"help".as_slice() {
        return help_page(alloc, rest);
    }
    if is_help(word) {
        return program_page(alloc);
    }
    if word == b"--version".as_slice() {
        return version_page(alloc);
    }
    match command_named(word) {
        Some(command) if has_help(rest) => command_page(alloc, command),
        _ => Ok(None),
    }
}
