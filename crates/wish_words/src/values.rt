//! The values of the options.
ghost use Rattle.std.specs.Prelude.{◌≡◌, map, codes, Some};
ghost use Rattle.std.specs.Option.{option_map};
ghost use Rattle.std.specs.String.{string_bytes};
ghost use Rattle.command_line.specs.CommandLine.{word_after as word_after_of, is_named as is_named_of};
ghost use Rattle.command_line.specs.Options.{flag_in as flag_in_of};
ghost use Rattle.format_words.specs.FormatsAsked.{named_format};
ghost use Rattle.wish_words.specs.WishWords as spec;

use file_words::ends_with;
use format_words::{is_word, word_after};
use text_core::number_up_to;
use wish_names::{CoversAsked, FormAsked, LevelsAsked, Wishes};

/// The greatest number of levels that can be named.
const MOST_LEVELS: u32 = 1_000_000;

/// `yes` or `no`.
fn flag_in(word: &[u8]) -> Option<bool>
    ensures { result ≡ flag_in_of word.now }
{
    if is_word(word, b"yes") {
        return Some(true);
    }
    if is_word(word, b"no") {
        return Some(false);
    }
    None
}

/// The value of `--only`, by whether the netlist is in AIGER.
fn only_in(aiger: bool, options: &[String]) -> Option<bool>
    ensures { result ≡ spec.only_in aiger (word_after_of (codes "--only") (map string_bytes options.now)) }
{
    match word_after(b"--only", options) {
        None => Some(false),
        Some(word) => {
            if aiger {
                return None;
            }
            flag_in(word)
        }
    }
}

/// A number of levels.
fn most_in(found: Option<u32>) -> Option<LevelsAsked>
    ensures { result ≡ spec.most_in found }
{
    match found {
        None => None,
        Some(most) => Some(LevelsAsked::Most(most)),
    }
}

/// The levels that a word asks for.
fn levels_named(word: &[u8]) -> Option<LevelsAsked>
    ensures { result ≡ spec.levels_in (Some word.now) }
{
    if is_word(word, b"tell") {
        return Some(LevelsAsked::Tell);
    }
    if is_word(word, b"keep") {
        return Some(LevelsAsked::Keep);
    }
    most_in(number_up_to(MOST_LEVELS, word))
}

/// The value of `--levels`.
fn levels_in(options: &[String]) -> Option<LevelsAsked>
    ensures { result ≡ spec.levels_in (word_after_of (codes "--levels") (map string_bytes options.now)) }
{
    match word_after(b"--levels", options) {
        None => Some(LevelsAsked::Untold),
        Some(word) => levels_named(word),
    }
}

/// The covers that a word asks for.
fn covers_named(word: &[u8]) -> Option<CoversAsked>
    ensures { result ≡ spec.covers_named word.now }
{
    if is_word(word, b"rows") {
        return Some(CoversAsked::Rows);
    }
    if is_word(word, b"least") {
        return Some(CoversAsked::Least);
    }
    None
}

/// The value of `--covers`, by whether the netlist is in BLIF.
fn covers_in(blif: bool, options: &[String]) -> Option<CoversAsked>
    ensures { result ≡ spec.covers_in blif (word_after_of (codes "--covers") (map string_bytes options.now)) }
{
    match word_after(b"--covers", options) {
        None => Some(CoversAsked::Rows),
        Some(word) => {
            if !blif {
                return None;
            }
            covers_named(word)
        }
    }
}

/// Whether the netlist is in BLIF: it isn't in AIGER, and no other format is named.
pub(crate) fn is_blif(aiger: bool, options: &[String]) -> bool
    ensures { result ≡ spec.is_blif aiger (named_format (map string_bytes options.now)) }
{
    if aiger {
        return false;
    }
    match word_after(b"--format", options) {
        None => true,
        Some(word) => !is_word(word, b"bench"),
    }
}

/// The form of an AIGER file, by the end of its name.
fn form_named(file: &[u8]) -> FormAsked
    ensures { result ≡ spec.form_named (Some file.now) }
{
    if ends_with(file, b".aig") {
        return FormAsked::Binary;
    }
    if ends_with(file, b".aag") {
        return FormAsked::Ascii;
    }
    FormAsked::Given
}

/// The form of what is written, where AIGER is read.
pub(crate) fn form_in(aiger: bool, output: &Option<String>) -> FormAsked
    ensures { result ≡ spec.form_in aiger (option_map string_bytes output.now) }
{
    if !aiger {
        return FormAsked::Given;
    }
    match output {
        None => FormAsked::Given,
        Some(file) => form_named(file.as_bytes()),
    }
}

/// Whether a form is asked for.
fn is_asked(form: FormAsked) -> bool
    ensures { result ≡ spec.is_asked form }
{
    match form {
        FormAsked::Given => false,
        FormAsked::Ascii | FormAsked::Binary => true,
    }
}

/// Whether an option is named.
fn is_named(name: &[u8], options: &[String]) -> bool
    ensures { result ≡ is_named_of name.now (map string_bytes options.now) }
{
    word_after(name, options).is_some()
}

/// Whether a wish is named.
fn names_wish(options: &[String], form: FormAsked) -> bool
    ensures { result ≡ spec.names_wish (map string_bytes options.now) form }
{
    if is_named(b"--only", options) {
        return true;
    }
    if is_named(b"--levels", options) {
        return true;
    }
    if is_named(b"--covers", options) {
        return true;
    }
    is_asked(form)
}

/// The wishes by the values of the options.
fn wishes_from(
    only: Option<bool>,
    levels: Option<LevelsAsked>,
    covers: Option<CoversAsked>,
    form: FormAsked,
) -> Option<Wishes>
    ensures { result ≡ spec.wishes_from only levels covers form }
{
    match (only, levels, covers) {
        (Some(only), Some(levels), Some(covers)) => Some(Wishes {
            only,
            levels,
            form,
            covers,
        }),
        _ => None,
    }
}

/// The wishes of options; None if there are none, or a value is none.
pub(crate) fn wishes_in(
    options: &[String],
    aiger: bool,
    blif: bool,
    form: FormAsked,
) -> Option<Wishes>
    ensures { result ≡ spec.wishes_in (map string_bytes options.now) aiger blif form }
{
    if !names_wish(options, form) {
        return None;
    }
    wishes_from(
        only_in(aiger, options),
        levels_in(options),
        covers_in(blif, options),
        form,
    )
}
