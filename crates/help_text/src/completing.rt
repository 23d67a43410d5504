//! Completions for shells, made from the table of options.

use crate::commands::{COMMANDS, CommandName, name_of, purpose_of};
use crate::options::{Allowed, Row, options_of};
use crate::pen::{Part, push_parts};
use crate::topics::push_topic_names;
use std::alloc::AllocError;
use text_core::after;

/// A shell.
#[derive(Clone, Copy)]
pub(crate) enum Shell {
    Bash,
    Zsh,
    Fish,
}

const BASES: &[&[u8]] = &[b"all", b"u2", b"bench", b"nand"];

/// The words that may be the value of an option; none for a number or a file.
fn values_of(row: &Row) -> &'static [&'static [u8]] {
    match row.allowed {
        Allowed::Words(words) | Allowed::WordsOr(words, _) => words,
        Allowed::Basis => BASES,
        Allowed::Number(_, _) | Allowed::Bytes(_) | Allowed::File | Allowed::Bits => &[],
    }
}

/// Appends words with a blank between them.
fn push_spaced(text: &mut Vec<u8>, words: &[&'static [u8]]) -> Result<(), AllocError> {
    for word in words {
        push_parts(text, &[Part::Text(word), Part::Text(b" ")])?;
    }
    Ok(())
}

/// Appends the names of the commands with a blank after each.
fn push_command_names(text: &mut Vec<u8>) -> Result<(), AllocError> {
    for command in COMMANDS {
        push_parts(text, &[Part::Text(name_of(*command)), Part::Text(b" ")])?;
    }
    Ok(())
}

/// Appends a text as it stands in single quotes of a shell.
fn push_inside_quotes(text: &mut Vec<u8>, words: &[u8]) -> Result<(), AllocError> {
    for byte in words {
        if *byte == b'\'' {
            text.extend_from_slice(b"\\'")?;
        } else {
            text.push(*byte)?;
        }
    }
    Ok(())
}

// ---- bash and zsh

/// The parts of a completion script: its head, what leads to the words of a reply and what ends it, what comes before
/// the cases of values and before those of options, and its end.
#[derive(Clone, Copy)]
struct Script {
    head: &'static [u8],
    reply: &'static [u8],
    end: &'static [u8],
    values: &'static [u8],
    names: &'static [u8],
    tail: &'static [u8],
}

const BASH: Script = Script {
    head: b"_batsokemi() {
    local word=${COMP_WORDS[COMP_CWORD]} before=${COMP_WORDS[COMP_CWORD-1]} command=${COMP_WORDS[1]}
    COMPREPLY=()
    [ \"$COMP_CWORD\" != 1 ] || before=first command=''
    case \"$command $before\" in
",
    reply: b"COMPREPLY=($(compgen -W '",
    end: b"' -- \"$word\")); return ;;\n",
    values: b"        'help --completion') COMPREPLY=($(compgen -W 'bash zsh fish' -- \"$word\")); return ;;\n",
    names: b"    esac\n    case \"$word $command\" in\n",
    tail: b"    esac
    COMPREPLY=($(compgen -f -- \"$word\"))
}
complete -o filenames -F _batsokemi batsokemi
",
};

const ZSH: Script = Script {
    head: b"#compdef batsokemi
local word=$words[CURRENT] before=$words[CURRENT-1] command=$words[2]
if (( CURRENT == 2 )); then before=first command=''; fi
case \"$command $before\" in
",
    reply: b"compadd -- ",
    end: b"; return ;;\n",
    values: b"        'help --completion') compadd -- bash zsh fish; return ;;\n",
    names: b"esac\ncase \"$word $command\" in\n",
    tail: b"esac\n_files\n",
};

/// Appends the case of an option's values.
fn push_values(
    text: &mut Vec<u8>,
    script: &Script,
    command: CommandName,
    row: &Row,
) -> Result<(), AllocError> {
    if matches!(row.allowed, Allowed::File) {
        return Ok(());
    }
    push_parts(
        text,
        &[
            Part::Text(b"        '"),
            Part::Text(name_of(command)),
            Part::Text(b" "),
            Part::Text(row.name),
            Part::Text(b"') "),
            Part::Text(script.reply),
        ],
    )?;
    push_spaced(text, values_of(row))?;
    text.extend_from_slice(script.end)
}

/// Appends the cases of the values of a command's options.
fn push_all_values(
    text: &mut Vec<u8>,
    script: &Script,
    command: CommandName,
) -> Result<(), AllocError> {
    for row in options_of(command) {
        push_values(text, script, command, row)?;
    }
    Ok(())
}

/// Appends the case of a command's options.
fn push_names(text: &mut Vec<u8>, script: &Script, command: CommandName) -> Result<(), AllocError> {
    push_parts(
        text,
        &[
            Part::Text(b"        -*' "),
            Part::Text(name_of(command)),
            Part::Text(b"') "),
            Part::Text(script.reply),
        ],
    )?;
    for row in options_of(command) {
        push_parts(text, &[Part::Text(row.name), Part::Text(b" ")])?;
    }
    push_parts(text, &[Part::Text(b"--help"), Part::Text(script.end)])
}

/// Appends the names of the commands and of the subjects, with a blank after each.
fn push_pages(text: &mut Vec<u8>) -> Result<(), AllocError> {
    push_command_names(text)?;
    push_topic_names(text)
}

/// Appends the cases of the first word, and of the word after `help`.
fn push_first_words(text: &mut Vec<u8>, script: &Script) -> Result<(), AllocError> {
    push_parts(
        text,
        &[Part::Text(b"        ' first') "), Part::Text(script.reply)],
    )?;
    push_command_names(text)?;
    push_parts(
        text,
        &[Part::Text(b"help --help --version"), Part::Text(script.end)],
    )?;
    push_parts(
        text,
        &[
            Part::Text(b"        'help help') "),
            Part::Text(script.reply),
        ],
    )?;
    push_pages(text)?;
    push_parts(
        text,
        &[Part::Text(b"--completion --manual"), Part::Text(script.end)],
    )
}

/// Appends a script.
fn push_script(text: &mut Vec<u8>, script: &Script) -> Result<(), AllocError> {
    text.extend_from_slice(script.head)?;
    push_first_words(text, script)?;
    text.extend_from_slice(script.values)?;
    for command in COMMANDS {
        push_all_values(text, script, *command)?;
    }
    text.extend_from_slice(script.names)?;
    for command in COMMANDS {
        push_names(text, script, *command)?;
    }
    text.extend_from_slice(script.tail)
}

// ---- fish

const FISH_HEAD: &[u8] =
    b"complete -c batsokemi -n __fish_use_subcommand -f -a help -d 'pages on commands and formats'
complete -c batsokemi -n '__fish_seen_subcommand_from help' -f -a '";

/// Appends the completions of an option.
fn push_fish_option(text: &mut Vec<u8>, command: CommandName, row: &Row) -> Result<(), AllocError> {
    push_parts(
        text,
        &[
            Part::Text(b"complete -c batsokemi -n '__fish_seen_subcommand_from "),
            Part::Text(name_of(command)),
        ],
    )?;
    match after(b"--", row.name) {
        Some(long) => push_parts(text, &[Part::Text(b"' -l "), Part::Text(long)])?,
        None => text.extend_from_slice(b"' -s o")?,
    }
    if matches!(row.allowed, Allowed::File) {
        text.extend_from_slice(b" -r -F")?;
    } else {
        text.extend_from_slice(b" -x -a '")?;
        push_spaced(text, values_of(row))?;
        text.extend_from_slice(b"'")?;
    }
    text.extend_from_slice(b" -d '")?;
    push_inside_quotes(text, row.says)?;
    text.extend_from_slice(b"'\n")
}

/// Appends the completions of a command.
fn push_fish_command(text: &mut Vec<u8>, command: CommandName) -> Result<(), AllocError> {
    push_parts(
        text,
        &[
            Part::Text(b"complete -c batsokemi -n __fish_use_subcommand -f -a "),
            Part::Text(name_of(command)),
            Part::Text(b" -d '"),
        ],
    )?;
    push_inside_quotes(text, purpose_of(command))?;
    text.extend_from_slice(b"'\n")?;
    for row in options_of(command) {
        push_fish_option(text, command, row)?;
    }
    Ok(())
}

/// Appends the completions of fish.
fn push_fish(text: &mut Vec<u8>) -> Result<(), AllocError> {
    text.extend_from_slice(FISH_HEAD)?;
    push_pages(text)?;
    text.extend_from_slice(b"--completion --manual'\n")?;
    for command in COMMANDS {
        push_fish_command(text, *command)?;
    }
    Ok(())
}

/// Appends the completions of a shell.
pub(crate) fn push_completion(text: &mut Vec<u8>, shell: Shell) -> Result<(), AllocError> {
    match shell {
        Shell::Bash => push_script(text, &BASH),
        Shell::Zsh => push_script(text, &ZSH),
        Shell::Fish => push_fish(text),
    }
}
