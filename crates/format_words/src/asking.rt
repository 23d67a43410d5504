//! What words ask for.
ghost use Rattle.std.specs.Prelude.{◌≡◌, ℕ, List, map};
ghost use Rattle.std.specs.Borrow.{Bor};
ghost use Rattle.std.specs.Option.{option_map};
ghost use Rattle.std.specs.String.{string_bytes};
ghost use Rattle.command_line.specs.Options.{is_word as is_word_of};
ghost use Rattle.command_line.specs.CommandLine.{word_after as word_after_of, is_named as is_named_of};
ghost use Rattle.format_words.specs.FormatsAsked as spec;

use file_words::ends_with;
use format_names::{FormatPair, NetFormat};

/// The formats that words ask for.
#[derive(Clone, Copy)]
pub enum FormatsAsked {
    /// Those that the command line itself names.
    Own,
    /// `improve` of a netlist in AIGER.
    ImproveAiger,
    /// `equiv` of two files in these formats.
    Compare(FormatPair),
    /// The same by the names of inputs, outputs and latches.
    Match(FormatPair),
}

/// Whether two words are the same.
pub fn is_word(word: &[u8], name: &[u8]) -> bool
    ensures { result ≡ is_word_of word.now name.now }
{
    word == name
}

/// The word after a name, where names and values alternate; None if the name doesn't occur.
#[tactic(auto, unfolding(command_line::specs::CommandLine::word_after))]
pub fn word_after<'a>(name: &[u8], words: &'a [String]) -> Option<&'a [u8]>
    ensures { option_map (λ (x : Bor (List ℕ)). x.now) result ≡
        word_after_of name.now (map string_bytes words.now) }
{
    let mut left = words;
    while let Some((found, after)) = left.split_first() {
        let Some((word, rest)) = after.split_first() else {
            return None;
        };
        if is_word(name, found.as_bytes()) {
            return Some(word.as_bytes());
        }
        left = rest;
    }
    None
}

/// Whether a file is in AIGER, by its name.
fn ends_as_aiger(file: &[u8]) -> bool
    ensures { result ≡ spec.ends_as_aiger file.now }
{
    ends_with(file, b".aag") || ends_with(file, b".aig")
}

/// The format of a file, by its name.
fn format_of_file(file: &[u8]) -> NetFormat
    ensures { result ≡ spec.format_of_file file.now }
{
    if ends_as_aiger(file) {
        return NetFormat::Aiger;
    }
    if ends_with(file, b".bench") {
        return NetFormat::Bench;
    }
    NetFormat::Blif
}

/// The format that a word names.
fn format_named(word: &[u8]) -> Option<NetFormat>
    ensures { result ≡ spec.format_named word.now }
{
    if is_word(word, b"aiger") {
        return Some(NetFormat::Aiger);
    }
    if is_word(word, b"bench") {
        return Some(NetFormat::Bench);
    }
    if is_word(word, b"blif") {
        return Some(NetFormat::Blif);
    }
    None
}

/// Whether the first of some files is in AIGER by its name.
fn names_aiger(files: &[String]) -> bool
    ensures { result ≡ spec.names_aiger (map string_bytes files.now) }
{
    let Some((file, _)) = files.split_first() else {
        return false;
    };
    ends_as_aiger(file.as_bytes())
}

/// Whether `improve` reads AIGER, by its options and files.
pub fn wants_aiger(options: &[String], files: &[String]) -> bool
    ensures { result ≡ spec.wants_aiger (spec.named_format (map string_bytes options.now))
        (map string_bytes files.now) }
{
    match word_after(b"--format", options) {
        None => names_aiger(files),
        Some(word) => is_word(word, b"aiger"),
    }
}

/// `improve`, by its options and files.
fn improve_asked(options: &[String], files: &[String]) -> FormatsAsked
    ensures { result ≡ spec.improve_asked (spec.named_format (map string_bytes options.now))
        (map string_bytes files.now) }
{
    if wants_aiger(options, files) {
        FormatsAsked::ImproveAiger
    } else {
        FormatsAsked::Own
    }
}

/// `equiv` of two files in a format that is named; nothing of its own if there is no such format.
fn pair_named(named: Option<NetFormat>) -> FormatsAsked
    ensures { result ≡ spec.pair_named named }
{
    match named {
        Some(format) => FormatsAsked::Compare(FormatPair {
            first: format,
            second: format,
        }),
        None => FormatsAsked::Own,
    }
}

/// `equiv` of two files, by its options.
fn pair_asked(options: &[String], first: &[u8], second: &[u8]) -> FormatsAsked
    ensures { result ≡ spec.pair_asked (spec.named_format (map string_bytes options.now)) first.now second.now }
{
    match word_after(b"--format", options) {
        None => FormatsAsked::Compare(FormatPair {
            first: format_of_file(first),
            second: format_of_file(second),
        }),
        Some(word) => pair_named(format_named(word)),
    }
}

/// `equiv`, by its options and files.
fn files_asked(options: &[String], files: &[String]) -> FormatsAsked
    ensures { result ≡ spec.files_asked (spec.named_format (map string_bytes options.now))
        (map string_bytes files.now) }
{
    let Some((first, others)) = files.split_first() else {
        return FormatsAsked::Own;
    };
    let Some((second, rest)) = others.split_first() else {
        return FormatsAsked::Own;
    };
    if !rest.is_empty() {
        return FormatsAsked::Own;
    }
    pair_asked(options, first.as_bytes(), second.as_bytes())
}

/// Whether options have one of this name.
fn names(name: &[u8], options: &[String]) -> bool
    ensures { result ≡ is_named_of name.now (map string_bytes options.now) }
{
    word_after(name, options).is_some()
}

/// Whether options ask for more than a comparison.
fn asks_more(options: &[String]) -> bool
    ensures { result ≡ spec.asks_more (map string_bytes options.now) }
{
    names(b"--at", options) || names(b"--formula", options) || names(b"--log", options)
}

/// Whether options ask for a comparison by names.
fn by_names(options: &[String]) -> bool
    ensures { result ≡ spec.by_names (map string_bytes options.now) }
{
    match word_after(b"--match", options) {
        None => false,
        Some(word) => is_word(word, b"names") && !asks_more(options),
    }
}

/// A comparison by names, if that is asked.
fn matched(by: bool, asked: FormatsAsked) -> FormatsAsked
    ensures { result ≡ spec.matched by asked }
{
    match asked {
        FormatsAsked::Compare(pair) => {
            if by {
                FormatsAsked::Match(pair)
            } else {
                FormatsAsked::Compare(pair)
            }
        }
        FormatsAsked::Own => FormatsAsked::Own,
        FormatsAsked::ImproveAiger => FormatsAsked::ImproveAiger,
        FormatsAsked::Match(pair) => FormatsAsked::Match(pair),
    }
}

/// `equiv`, by its options and files, and by names if that is asked.
fn equiv_asked(options: &[String], files: &[String]) -> FormatsAsked
    ensures { result ≡ spec.equiv_asked (map string_bytes options.now) (map string_bytes files.now) }
{
    matched(by_names(options), files_asked(options, files))
}

/// What the words of a line and its files ask for.
pub(crate) fn asked_in(words: &[String], files: &[String]) -> FormatsAsked
    ensures { result ≡ spec.asked_in (map string_bytes words.now) (map string_bytes files.now) }
{
    let Some((name, options)) = words.split_first() else {
        return FormatsAsked::Own;
    };
    if is_word(name.as_bytes(), b"improve") {
        return improve_asked(options, files);
    }
    if is_word(name.as_bytes(), b"equiv") {
        return equiv_asked(options, files);
    }
    FormatsAsked::Own
}
