//! Single lines: words, numbers and faults.
ghost use Rattle.std.specs.Prelude.{◌≡◌};
ghost use Rattle.std.specs.Option.{option_copied};
ghost use Rattle.cert_theory.specs.Judging as judging;
ghost use Rattle.cert_theory.specs.SubproblemLines as subproblems;
ghost use Rattle.text_core.specs.Items.{items_of};
ghost use Rattle.line_reader.specs.TextLines.{line_of};
ghost use Rattle.cert_file.specs.declared.lines.VerdictNumbers.TheVariants as numbers;

use cert_theory::{CertificateError, SubproblemError};
pub use line_reader::TextLine;
use text_core::{MOST_NUMBER, after, next_item, number_up_to};

/// A fault of a subproblem as a fault of the certificate, at a line.
pub(crate) fn fault_at(number: u32, fault: SubproblemError) -> CertificateError
    ensures { result ≡ judging.fault_at number fault }
{
    match fault {
        SubproblemError::Syntax => CertificateError::Syntax(number),
        SubproblemError::StepRefused(fault) => CertificateError::StepRefused(number, fault),
        SubproblemError::NotNew => CertificateError::NotNew(number),
        SubproblemError::NotRefuted => CertificateError::NotRefuted(number),
        SubproblemError::TooShort => CertificateError::OpenTooShort(number),
        SubproblemError::EmptyClauseDerived => CertificateError::WrongVerdict(number),
        SubproblemError::Memory => CertificateError::Memory,
    }
}

/// Whether a line is this text, with its LF.
pub fn is_line(word: &[u8], line: &TextLine) -> bool
    ensures { result ≡ subproblems.is_line word.now (line_of line.now) }
{
    line.ended && line.text == word
}

/// Whether a line begins with a word.
pub(crate) fn begins(word: &[u8], line: &TextLine) -> bool
    ensures { result ≡ judging.begins word.now (line_of line.now) }
{
    after(word, line.text).is_some()
}

/// The text between a word and the LF.
pub(crate) fn value_of<'a>(word: &[u8], line: &TextLine<'a>) -> Option<&'a [u8]>
    ensures { option_copied result ≡ judging.value_of word.now (line_of line.now) }
{
    if !line.ended {
        return None;
    }
    after(word, line.text)
}

/// The number after a word.
pub fn number_after(word: &[u8], line: &TextLine) -> Option<u32>
    ensures { result ≡ judging.number_after word.now (line_of line.now) }
{
    number_up_to(MOST_NUMBER, value_of(word, line)?)
}

/// The numbers of a verdict: the minimum, or bounds of it.
#[derive(Drop)]
pub enum VerdictNumbers {
    /// One number.
    One(u32),
    /// Two numbers.
    Two {
        /// The lower bound.
        low: u32,
        /// The upper bound.
        most: u32,
    },
}

/// The two numbers that a text spells.
fn two_in(text: &[u8]) -> Option<VerdictNumbers>
    ensures { result ≡ judging.bounded_in (λ low most. numbers.Two low most) (items_of text.now) }
{
    let (low, Some(rest)) = next_item(text) else {
        return None;
    };
    let (most, None) = next_item(rest) else {
        return None;
    };
    let low = number_up_to(MOST_NUMBER, low)?;
    let most = number_up_to(MOST_NUMBER, most)?;
    Some(VerdictNumbers::Two { low, most })
}

/// The number after the first word, or the two after the second.
pub fn numbered_in(first: &[u8], second: &[u8], line: &TextLine) -> Option<VerdictNumbers>
    ensures { result ≡ judging.numbered_in (λ number. numbers.One number) (λ low most.
        numbers.Two low most) first.now second.now (line_of line.now) }
{
    if begins(first, line) {
        let number = number_after(first, line)?;
        return Some(VerdictNumbers::One(number));
    }
    two_in(value_of(second, line)?)
}
