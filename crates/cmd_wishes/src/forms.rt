//! The sections and the form of the answer.
ghost use Rattle.std.specs.Prelude.{◌≡◌, false, IfOk};
ghost use Rattle.aiger_binary.specs.Ascii.{is_binary as is_binary_of};
ghost use Rattle.aiger_sections.specs.Plain.{plain_in, sections_in};
ghost use Rattle.cmd_wishes.specs.WishReport as spec;

use aiger_binary::is_binary;
use aiger_pack::pack;
use aiger_sections::sectioned;
use format_names::NetFormat;
use improve_wishes::{FormAsked, ImprovedText};
use std::alloc::{AllocError, Global};

/// Whether the binary form of AIGER is written.
fn wants_binary_form(form: FormAsked, bytes: &[u8]) -> bool
    ensures { result ≡ spec.wants_binary_form form bytes.now }
{
    match form {
        FormAsked::Given => is_binary(bytes),
        FormAsked::Ascii => false,
        FormAsked::Binary => true,
    }
}

/// The answer of AIGER, in the sections of the text that was read, and in the form that is wanted.
fn formed_aiger(
    alloc: Global,
    form: FormAsked,
    bytes: &[u8],
    text: &[u8],
) -> Result<Vec<u8>, AllocError>
    ensures text { IfOk result (λ t. plain_in t.items ≡ text.now) }
    ensures sections { IfOk result (λ t. sections_in t.items ≡ sections_in bytes.now) }
    ensures form { IfOk result (λ t.
        spec.wants_binary_form form bytes.now ≡ false → is_binary_of t.items ≡ false) }
{
    let placed = sectioned(alloc, bytes, text)?;
    if !wants_binary_form(form, bytes) {
        return Ok(placed);
    }
    let packed = pack(alloc, &placed)?;
    Ok(packed)
}

/// The text of the answer, in the sections of the text that was read, and in the form that is wanted.
fn formed_text(
    alloc: Global,
    format: NetFormat,
    form: FormAsked,
    bytes: &[u8],
    text: Vec<u8>,
) -> Result<Vec<u8>, AllocError>
    ensures text { IfOk result (λ t. spec.plain_text format t.items ≡ text.items) }
    ensures sections { IfOk result (λ t. spec.KeepsSections format bytes.now t.items) }
    ensures form { IfOk result (λ t. spec.IsInForm format form bytes.now t.items) }
{
    match format {
        NetFormat::Blif => Ok(text),
        NetFormat::Bench => Ok(text),
        NetFormat::Aiger => formed_aiger(alloc, form, bytes, &text),
    }
}

/// The answer, in the sections of the text that was read, and in the form that is wanted.
pub(crate) fn formed(
    alloc: Global,
    format: NetFormat,
    form: FormAsked,
    bytes: &[u8],
    improved: ImprovedText,
) -> Result<ImprovedText, AllocError>
    ensures text { IfOk result (λ i. spec.plain_text format i.text.items ≡ improved.text.items) }
    ensures sections { IfOk result (λ i. spec.KeepsSections format bytes.now i.text.items) }
    ensures form { IfOk result (λ i. spec.IsInForm format form bytes.now i.text.items) }
    ensures report { IfOk result (λ i. i.report.items ≡ improved.report.items) }
{
    let ImprovedText { text, report } = improved;
    let made = formed_text(alloc, format, form, bytes, text)?;
    Ok(ImprovedText { text: made, report })
}
