//! The table of options: the name of each, how its value is read, its default, and which commands take it.
//! `specs/Options.antt` is the same table. The values of `--basis` depend on the format.
ghost use Rattle.std.specs.Prelude.{◌≡◌, map};
ghost use Rattle.std.specs.String.{string_bytes};
ghost use Rattle.op_basis.specs.Text.{bench_set};
ghost use Rattle.command_line.specs.Options as spec;
ghost use Rattle.command_line.specs.CommandLine.{value};

use crate::command::{Format, GenAction};
use crate::pairs::{is_word, word_after};
use op_basis::{BENCH, Basis, read_basis};
use settings::{
    ImproveSettings, MOST_BLOCKS, MOST_CONFLICTS, MOST_EFFORT, MOST_GATES_OF_WINDOW, MOST_ROUNDS,
    MOST_SEED, MOST_STEPS, Method, MethodChoice, SynthSettings, choice_named, method_named,
};
use text_core::number_up_to;

/// The names of the options.
const BASIS: &[u8] = b"--basis";

const METHOD: &[u8] = b"--method";

const MAX: &[u8] = b"--max";

const CONFLICTS: &[u8] = b"--conflicts";

const CAP: &[u8] = b"--cap";

const ROUNDS: &[u8] = b"--rounds";

const FORMAT: &[u8] = b"--format";

const OBSERVE: &[u8] = b"--observe";

const EFFORT: &[u8] = b"--effort";

const SEED: &[u8] = b"--seed";

const BLOCKS: &[u8] = b"--blocks";

const RUN: &[u8] = b"--run";

const LEAST_DEPTH: &[u8] = b"--least-depth";

const DEPTH: &[u8] = b"--depth";

/// The commands that have names of their own.
#[derive(Clone, Copy)]
pub(crate) enum OptionKind {
    Agree,
    Recheck,
    Synth,
    Improve,
    Equiv,
    Gen,
}

/// The command with a name.
pub(crate) fn kind_named(name: &[u8]) -> Option<OptionKind>
    ensures { result ≡ spec.kind_named name.now }
{
    if is_word(name, b"agree") {
        return Some(OptionKind::Agree);
    }
    if is_word(name, b"recheck") {
        return Some(OptionKind::Recheck);
    }
    if is_word(name, b"synth") {
        return Some(OptionKind::Synth);
    }
    if is_word(name, b"improve") {
        return Some(OptionKind::Improve);
    }
    if is_word(name, b"equiv") {
        return Some(OptionKind::Equiv);
    }
    if is_word(name, b"gen") {
        return Some(OptionKind::Gen);
    }
    None
}

/// Whether a command takes the option with a name.
pub(crate) fn takes(kind: OptionKind, name: &[u8]) -> bool
    ensures { result ≡ spec.is_among name.now (spec.options_of kind) }
{
    match kind {
        OptionKind::Agree => false,
        OptionKind::Recheck => is_word(name, DEPTH),
        OptionKind::Synth => {
            is_word(name, BASIS)
                || is_word(name, METHOD)
                || is_word(name, MAX)
                || is_word(name, CONFLICTS)
                || is_word(name, LEAST_DEPTH)
                || is_word(name, EFFORT)
        }
        OptionKind::Improve => {
            is_word(name, BASIS)
                || is_word(name, METHOD)
                || is_word(name, CAP)
                || is_word(name, ROUNDS)
                || is_word(name, CONFLICTS)
                || is_word(name, FORMAT)
                || is_word(name, OBSERVE)
                || is_word(name, EFFORT)
                || is_word(name, SEED)
        }
        OptionKind::Equiv => is_word(name, CONFLICTS),
        OptionKind::Gen => is_word(name, BLOCKS) || is_word(name, RUN),
    }
}

/// A number from `low` to `high`.
fn number_within(low: u32, high: u32, word: &[u8]) -> Option<u32>
    ensures { result ≡ spec.number_within low high word.now }
{
    match number_up_to(high, word) {
        Some(n) if n >= low => Some(n),
        _ => None,
    }
}

/// The value of an option that is a number.
fn number(name: &[u8], low: u32, high: u32, defaults: Option<u32>, words: &[String]) -> Option<u32>
    ensures { result ≡ value (spec.number_row name.now low high defaults) (map string_bytes words.now) }
{
    match word_after(name, words) {
        None => defaults,
        Some(word) => number_within(low, high, word),
    }
}

/// The value of an option that is `yes` or `no`, with the default `no`.
fn flag(name: &[u8], words: &[String]) -> Option<bool>
    ensures { result ≡ value (spec.flag_row name.now) (map string_bytes words.now) }
{
    match word_after(name, words) {
        None => Some(false),
        Some(word) if is_word(word, b"yes") => Some(true),
        Some(word) if is_word(word, b"no") => Some(false),
        Some(_) => None,
    }
}

/// The value of `--basis`.
pub(crate) fn given_basis(words: &[String]) -> Option<Basis>
    ensures { result ≡ value spec.basis_row (map string_bytes words.now) }
{
    match word_after(BASIS, words) {
        None => Some(SynthSettings::defaults().basis),
        Some(word) => match read_basis(word) {
            Ok(basis) => Some(basis),
            Err(_) => None,
        },
    }
}

/// Whether all operators of a set are gates of BENCH.
fn is_of_gates(basis: Basis) -> bool
    ensures { result ≡ spec.is_within basis bench_set }
{
    basis.get() & BENCH == basis.get()
}

/// The value of `--basis` for the format BENCH.
fn given_gates(words: &[String]) -> Option<Basis>
    ensures { result ≡ value spec.gates_row (map string_bytes words.now) }
{
    match word_after(BASIS, words) {
        None => Some(Basis::new(BENCH)),
        Some(word) => match read_basis(word) {
            Ok(basis) if is_of_gates(basis) => Some(basis),
            _ => None,
        },
    }
}

/// The value of `--basis` for a format.
pub(crate) fn given_basis_for(format: Format, words: &[String]) -> Option<Basis>
    ensures { result ≡ value (spec.format_basis_row format) (map string_bytes words.now) }
{
    match format {
        Format::Blif => given_basis(words),
        Format::Bench => given_gates(words),
    }
}

/// The value of `--method` of `synth`.
pub(crate) fn given_choice(words: &[String]) -> Option<MethodChoice>
    ensures { result ≡ value spec.choice_row (map string_bytes words.now) }
{
    match word_after(METHOD, words) {
        None => Some(SynthSettings::defaults().method),
        Some(word) => choice_named(word),
    }
}

/// The value of `--method` of `improve`.
pub(crate) fn given_method(words: &[String]) -> Option<Method>
    ensures { result ≡ value spec.method_row (map string_bytes words.now) }
{
    match word_after(METHOD, words) {
        None => Some(ImproveSettings::defaults().method),
        Some(word) => method_named(word),
    }
}

/// The value of `--max`.
pub(crate) fn given_max(words: &[String]) -> Option<u32>
    ensures { result ≡ value spec.max_row (map string_bytes words.now) }
{
    number(
        MAX,
        0,
        MOST_STEPS,
        Some(SynthSettings::defaults().max),
        words,
    )
}

/// The value of `--conflicts`.
pub(crate) fn given_conflicts(words: &[String]) -> Option<u32>
    ensures { result ≡ value spec.conflicts_row (map string_bytes words.now) }
{
    let defaults = SynthSettings::defaults().conflicts;
    number(CONFLICTS, 1, MOST_CONFLICTS, Some(defaults), words)
}

/// The value of `--cap`.
pub(crate) fn given_cap(words: &[String]) -> Option<u32>
    ensures { result ≡ value spec.cap_row (map string_bytes words.now) }
{
    let defaults = ImproveSettings::defaults().cap;
    number(CAP, 0, MOST_GATES_OF_WINDOW, Some(defaults), words)
}

/// The value of `--rounds`.
pub(crate) fn given_rounds(words: &[String]) -> Option<u32>
    ensures { result ≡ value spec.rounds_row (map string_bytes words.now) }
{
    let defaults = ImproveSettings::defaults().rounds;
    number(ROUNDS, 1, MOST_ROUNDS, Some(defaults), words)
}

/// The value of `--format`.
pub(crate) fn given_format(words: &[String]) -> Option<Format>
    ensures { result ≡ value spec.format_row (map string_bytes words.now) }
{
    match word_after(FORMAT, words) {
        None => Some(Format::Blif),
        Some(word) if is_word(word, b"blif") => Some(Format::Blif),
        Some(word) if is_word(word, b"bench") => Some(Format::Bench),
        Some(_) => None,
    }
}

/// The value of `--observe`.
pub(crate) fn given_observe(words: &[String]) -> Option<bool>
    ensures { result ≡ value spec.observe_row (map string_bytes words.now) }
{
    flag(OBSERVE, words)
}

/// The value of `--effort` of `synth`.
pub(crate) fn given_synth_effort(words: &[String]) -> Option<u32>
    ensures { result ≡ value spec.synth_effort_row (map string_bytes words.now) }
{
    let defaults = SynthSettings::defaults().effort;
    number(EFFORT, 0, MOST_EFFORT, Some(defaults), words)
}

/// The value of `--effort` of `improve`.
pub(crate) fn given_effort(words: &[String]) -> Option<u32>
    ensures { result ≡ value spec.effort_row (map string_bytes words.now) }
{
    let defaults = ImproveSettings::defaults().effort;
    number(EFFORT, 0, MOST_EFFORT, Some(defaults), words)
}

/// The value of `--seed`.
pub(crate) fn given_seed(words: &[String]) -> Option<u32>
    ensures { result ≡ value spec.seed_row (map string_bytes words.now) }
{
    let defaults = ImproveSettings::defaults().seed;
    number(SEED, 0, MOST_SEED, Some(defaults), words)
}

/// The value of `--blocks`, which has no default.
pub(crate) fn given_blocks(words: &[String]) -> Option<u32>
    ensures { result ≡ value spec.blocks_row (map string_bytes words.now) }
{
    number(BLOCKS, 1, MOST_BLOCKS, None, words)
}

/// The value of `--run`.
pub(crate) fn given_deed(words: &[String]) -> Option<GenAction>
    ensures { result ≡ value spec.run_row (map string_bytes words.now) }
{
    match word_after(RUN, words) {
        None => Some(GenAction::Write),
        Some(word) if is_word(word, b"write") => Some(GenAction::Write),
        Some(word) if is_word(word, b"improve") => Some(GenAction::Improve),
        Some(_) => None,
    }
}

/// The value of `--least-depth`.
pub(crate) fn given_least_depth(words: &[String]) -> Option<bool>
    ensures { result ≡ value spec.least_depth_row (map string_bytes words.now) }
{
    flag(LEAST_DEPTH, words)
}

/// The value of `--depth`.
pub(crate) fn given_depth(words: &[String]) -> Option<bool>
    ensures { result ≡ value spec.depth_row (map string_bytes words.now) }
{
    flag(DEPTH, words)
}
