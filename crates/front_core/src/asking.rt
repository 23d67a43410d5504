//! What words ask for that may name files.
ghost use Rattle.std.specs.Prelude.{◌≡◌, nat_le, length, map, IfSome};
ghost use Rattle.std.specs.Option.{option_map};
ghost use Rattle.std.specs.String.{string_bytes};
ghost use Rattle.command_line.specs.CommandLine.{IsAskable, IsBudget};
ghost use Rattle.file_io.specs.Texts.{text_in};
ghost use Rattle.file_words.specs.Lines.{line_value};
ghost use Rattle.front_core.specs.Asked as spec;

use command_line::Command;
use file_words::{FileLine, is_same, is_standard};

/// The most files that a command reads.
fn most_operands(command: &Command) -> usize
    ensures { result ≡ spec.most_operands command.now }
{
    match command {
        Command::Gen { .. } => 0,
        Command::Agree | Command::Recheck | Command::RecheckDepth => 1,
        Command::Synth(_) | Command::LeastDepth(_) => 1,
        Command::Improve { .. } => 1,
        Command::Equiv(_) => 2,
    }
}

/// Whether a command's answers have a certificate that can go to a file.
fn has_certificate(command: &Command) -> bool
    ensures { result ≡ spec.has_certificate command.now }
{
    match command {
        Command::Synth(_) | Command::LeastDepth(_) | Command::Equiv(_) => true,
        Command::Agree | Command::Recheck | Command::RecheckDepth => false,
        Command::Improve { .. } | Command::Gen { .. } => false,
    }
}

/// Whether a file isn't that of `-o`.
pub fn is_apart(file: &String, output: &Option<String>) -> bool
    ensures { result ≡ spec.is_apart (string_bytes file.now) (option_map string_bytes output.now) }
{
    match output {
        None => true,
        Some(output) => !is_same(file.as_str(), output.as_str()),
    }
}

/// Whether the file of `--certificate`, if it is named, fits the command and `-o`.
fn certificate_fits(
    command: &Command,
    certificate: &Option<String>,
    output: &Option<String>,
) -> bool
    ensures { result ≡ spec.certificate_fits command.now (option_map string_bytes certificate.now)
        (option_map string_bytes output.now) }
{
    let Some(file) = certificate else {
        return true;
    };
    if is_standard(file.as_str()) {
        return false;
    }
    if !has_certificate(command) {
        return false;
    }
    is_apart(file, output)
}

/// Whether a line names no more files than the command reads.
#[tactic(auto, using(crate::proofs::Words::counting))]
fn is_few(command: &Command, line: &FileLine) -> bool
    ensures { result ≡ nat_le (length (line_value line.now).operands) (spec.most_operands command.now) }
{
    let most = most_operands(command);
    line.operands.len() <= most
}

/// Whether a line names no more files than the command reads and writes.
pub fn fits(command: &Command, line: &FileLine) -> bool
    ensures { result ≡ spec.fits command.now (line_value line.now) }
{
    if !is_few(command, line) {
        return false;
    }
    certificate_fits(command, &line.certificate, &line.output)
}

/// The name of a file; None for standard input or output.
fn name_of(file: &String) -> Option<&str>
    ensures { text_in result ≡ spec.name_of (string_bytes file.now) }
{
    if is_standard(file.as_str()) {
        None
    } else {
        Some(file.as_str())
    }
}

/// The name of the file that is read; None for standard input.
pub fn input_of(line: &FileLine) -> Option<&str>
    ensures { text_in result ≡ spec.name_in (spec.first_in (line_value line.now).operands) }
{
    let Some((file, _)) = line.operands.split_first() else {
        return None;
    };
    name_of(file)
}

/// The name of the second file that is read; None for standard input, or if there is none.
pub fn second_of(line: &FileLine) -> Option<&str>
    ensures { text_in result ≡ spec.name_in (spec.second_in (line_value line.now).operands) }
{
    let Some((_, files)) = line.operands.split_first() else {
        return None;
    };
    let Some((file, _)) = files.split_first() else {
        return None;
    };
    name_of(file)
}

/// The budget, if two files are named.
fn budget_of_two(budget: u32, operands: &[String]) -> Option<u32>
    requires { IsBudget budget }
    ensures exact { result ≡ spec.pair_budget (Command.Equiv budget) (map string_bytes operands.now) }
    ensures budget { IfSome result IsBudget }
{
    let Some((_, files)) = operands.split_first() else {
        return None;
    };
    let Some((_, _)) = files.split_first() else {
        return None;
    };
    Some(budget)
}

/// The budget of a comparison of two files; None for what reads one input or none.
pub fn pair_budget(command: &Command, line: &FileLine) -> Option<u32>
    requires { IsAskable command.now }
    ensures exact { result ≡ spec.pair_budget command.now (line_value line.now).operands }
    ensures budget { IfSome result IsBudget }
{
    match command {
        Command::Equiv(budget) => budget_of_two(*budget, &line.operands),
        Command::Agree | Command::Recheck | Command::RecheckDepth => None,
        Command::Synth(_) | Command::LeastDepth(_) => None,
        Command::Improve { .. } | Command::Gen { .. } => None,
    }
}

/// The name of the file that is written; None for standard output.
pub fn output_of(line: &FileLine) -> Option<&str>
    ensures { text_in result ≡ spec.name_in (line_value line.now).output }
{
    match &line.output {
        None => None,
        Some(file) => name_of(file),
    }
}

/// The name of the file that the certificate goes to; None if it goes with the answer.
pub(crate) fn certificate_of(line: &FileLine) -> Option<&str>
    ensures { text_in result ≡ spec.name_in (line_value line.now).certificate }
{
    match &line.certificate {
        None => None,
        Some(file) => name_of(file),
    }
}
