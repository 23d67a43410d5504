//! The parser's loop over the lines of a text.

ghost use Rattle.std.specs.Prelude.{◌≡◌, ◌+◌, ◌*◌, ◌≤◌, ◌<◌, ◌^◌, length, IfOk};
ghost use Rattle.blif_text.specs.Reading.{Gives};
ghost use Rattle.net_document.specs.Listed.{IsWellListed, AreControlsFree};
ghost use Rattle.net_theory.specs.Cost.{cost};
ghost use Rattle.net_theory.specs.NetOf.{source_count};
ghost use Rattle.bench_text.specs.Statements.{nothing as nothing_of, listed_of};

use crate::lines::take_line;
use net_document::{Document, Listed, Name, NetError};
use std::alloc::{AllocError, Global};
use text_core::next_line;

/// The document before the first line.
fn nothing(alloc: Global) -> Result<Listed, AllocError>
    ensures { IfOk result (λ l. l ≡ nothing_of) }
{
    Ok(Listed {
        document: Document {
            model: Name::of(alloc, b"top")?,
            inputs: Vec::new(alloc),
            outputs: Vec::new(alloc),
            clocks: Vec::new(alloc),
            latches: Vec::new(alloc),
            tables: Vec::new(alloc),
        },
        driven: Vec::new(alloc),
        used: Vec::new(alloc),
    })
}

/// The document of a text, line by line.
#[tactic(auto, unfolding(crate::specs::Statements::listed_of, crate::specs::Statements::steps))]
fn read_lines(alloc: Global, bytes: &[u8]) -> Result<Listed, NetError>
    requires { length bytes.now < 2 ^ 31 }
    ensures { Gives (λ l. l) result (listed_of bytes.now) }
{
    let mut listed = nothing(alloc)?;
    let mut number = 1;
    let mut left = bytes;
    while let Some((text, ended, rest)) = next_line(left) {
        take_line(alloc, number, &mut listed, text, ended)?;
        number += 1;
        left = rest;
    }
    Ok(listed)
}

/// Parses a BENCH text: its document, with the names that it drives and reads in the order of the text.
///
/// Lines are checked in order, and the first fault is reported with its line. Whether the document is well formed
/// isn't checked here.
#[tactic(auto, using(crate::specs::ListingLaws::listings))]
pub fn read_listed(alloc: Global, bytes: &[u8]) -> Result<Listed, NetError>
    requires { length bytes.now < 2 ^ 31 }
    ensures exact { Gives (λ l. l) result (listed_of bytes.now) }
    ensures listed { IfOk result IsWellListed }
    ensures free { IfOk result (λ l. AreControlsFree l.document) }
    ensures few { IfOk result (λ l. length l.document.tables ≤ length bytes.now) }
    ensures small { IfOk result (λ l. 2 * source_count l.document + cost l.document ≤ length bytes.now) }
{
    let listed = read_lines(alloc, bytes)?;
    Ok(listed)
}
