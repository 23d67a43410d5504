//! The lines after the header.

ghost use Rattle.std.specs.Prelude.{◌≡◌, ◌++◌, ◌≤◌, OnOk};
ghost use Rattle.text_core.specs.Lines.{lines_of, line_bytes};
ghost use Rattle.text_core.specs.Limits.{most_number};
ghost use Rattle.aiger_sections.specs.Header.{total as total_of};
ghost use Rattle.aiger_sections.specs.Plain as spec;

use crate::header::Sections;
use crate::symbols::push_symbol;
use std::alloc::AllocError;
use text_core::next_line;

/// Adds the text of a line: a symbol's is that of the plain text.
fn push_text(
    out: &mut Vec<u8>,
    sections: Sections,
    kept: u64,
    text: &[u8],
) -> Result<(), AllocError>
    requires { total_of sections ≤ most_number }
    ensures { OnOk result (out.new.items ≡ out.old.items ++ spec.text_at sections kept text.now) }
{
    if kept > 0 {
        out.extend_from_slice(text)
    } else {
        push_symbol(out, sections, text)
    }
}

/// Adds a line of the plain text.
fn push_line(
    out: &mut Vec<u8>,
    sections: Sections,
    kept: u64,
    text: &[u8],
    ended: bool,
) -> Result<(), AllocError>
    requires { total_of sections ≤ most_number }
    ensures { OnOk result (out.new.items ≡
        out.old.items ++ line_bytes (spec.line_at sections kept (record { text = text.now; ended = ended }))) }
{
    push_text(out, sections, kept, text)?;
    if ended {
        out.push(b'\n')?;
    }
    Ok(())
}

/// Adds the lines after the header, `count` of them as they are.
#[tactic(auto, unfolding(crate::specs::Plain::lines_in))]
pub(crate) fn push_lines(
    out: &mut Vec<u8>,
    sections: Sections,
    count: u64,
    bytes: &[u8],
) -> Result<(), AllocError>
    requires { total_of sections ≤ most_number }
    ensures { OnOk result (out.new.items ≡ out.old.items ++ spec.lines_in sections count (lines_of bytes.now)) }
{
    let mut kept = count;
    let mut left = bytes;
    while let Some((text, ended, rest)) = next_line(left) {
        push_line(out, sections, kept, text, ended)?;
        kept = kept.saturating_sub(1);
        left = rest;
    }
    Ok(())
}
