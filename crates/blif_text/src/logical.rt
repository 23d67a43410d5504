//! Logical lines: a line that ends with `\` is continued by the next one. The content of a line follows the rules
//! shared by the netlist formats (`net_document`).

ghost use Rattle.std.specs.Prelude.{◌≡◌, ◌+◌, ◌≤◌, ◌<◌, ◌^◌, length, IfOk, IfSome};
ghost use Rattle.blif_text.specs.Logical.{logical_of};
ghost use Rattle.blif_text.specs.Walks.{logical_in};

use net_document::{content_of, without_last};
use std::alloc::{AllocError, Global};
use std::marker::Model;
use text_core::next_line;

/// A logical line: the number of its first line, the total number of bytes of its lines without LFs, and its
/// content.
#[derive(Drop)]
pub struct LogicalLine {
    pub first: u32,
    pub size: usize,
    pub text: Vec<u8>,
}

impl Model for LogicalLine {
    ghost use Rattle.blif_text.specs.Logical as logical;

    ghost Value = { logical.Logical };

    ghost view = { λ l. record { first = l.first; size = l.size; text = l.text.items } };
}

/// The first logical line, the number of the line after it, and the rest of the text; None if no line is left. The
/// first line of `bytes` has the number `number`.
#[tactic(auto, unfolding(crate::specs::Logical::logical_from))]
pub fn next_logical(
    alloc: Global,
    number: u32,
    bytes: &[u8],
) -> Result<Option<(LogicalLine, u32, &[u8])>, AllocError>
    requires { number + length bytes.now ≤ 2 ^ 31 }
    ensures next { IfOk result (λ x. logical_of number bytes.now ≡ logical_in x) }
    ensures room { IfOk result (λ x. IfSome x (λ y. y.1 + length y.2.now ≤ number + length bytes.now)) }
    ensures shorter { IfOk result (λ x. IfSome x (λ y. length y.2.now < length bytes.now)) }
{
    let mut text = Vec::new(alloc);
    let mut size: usize = 0;
    let mut next = number;
    let mut left = bytes;
    while let Some((line, ended, rest)) = next_line(left) {
        next += 1;
        size += line.len();
        left = rest;
        let said = content_of(line, ended);
        let Some(prefix) = without_last(b'\\', said) else {
            text.extend_from_slice(said)?;
            let logical = LogicalLine {
                first: number,
                size,
                text,
            };
            return Ok(Some((logical, next, left)));
        };
        text.extend_from_slice(prefix)?;
        text.push(b' ')?;
    }
    if next == number {
        return Ok(None);
    }
    let logical = LogicalLine {
        first: number,
        size,
        text,
    };
    Ok(Some((logical, next, left)))
}
