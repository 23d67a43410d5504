//! Logs as LRAT texts: the spellings of the lines, one after another. Each number is written as soon as it is
//! read, without building the line first. Room is reserved once for all items of a line. If memory runs out, the
//! text is truncated to what it was before.
ghost use Rattle.std.specs.Prelude.{◌≡◌, ◌+◌, ◌*◌, ◌^◌, ◌<◌, ◌≤◌, [], ◌∷◌, ◌++◌, length, vec_len, OnOk, OnErr};
ghost use Rattle.std.specs.Vec.{vec_capacity};
ghost use Rattle.std.specs.List.{flat_map};
ghost use Rattle.sat_theory.specs.Line as theory;
ghost use Rattle.lrat_text.specs.Spelling.{id_item, literal_item, line_text};
ghost use Rattle.log_core.specs.Lists.{ids_of, literals_of};
ghost use Rattle.log_core.specs.Rows.{BeginsAs, IsSplit, size_of, line_in, lines_in};

use crate::Log;
use crate::head::Head;
use crate::held::take_row;
use crate::items::{MOST_CHARACTERS, put_id};
use crate::numbers::next_number;
use crate::steps::stepped;
use crate::unpacking::literal_at;
use cnf_core::Lit;
use std::alloc::AllocError;

/// Reserves room for the items of a line whose lists take `bytes` bytes, each of which spells at most one
/// number, and for the rest of that line, which takes at most two items.
fn reserve(out: &mut Vec<u8>, bytes: usize) -> Result<(), AllocError>
    requires few { bytes < 2 ^ 33 }
    ensures same { out.new.items ≡ out.old.items }
    ensures room { OnOk result (vec_len out.new + MOST_CHARACTERS * (bytes + 2) ≤ vec_capacity out.new) }
{
    out.reserve(MOST_CHARACTERS * (bytes + 2))?;
    Ok(())
}

/// Appends two characters.
fn put_both(out: &mut Vec<u8>, first: u8, second: u8)
    requires room { vec_len out.old + 2 ≤ vec_capacity out.old }
    ensures items { out.new.items ≡ out.old.items ++ first ∷ second ∷ [] }
    ensures within { vec_len out.new ≤ vec_len out.old + 2 }
    ensures capacity { vec_capacity out.new ≡ vec_capacity out.old }
{
    out.push_reserved(first);
    out.push_reserved(second);
}

/// Appends a literal, followed by a blank.
#[inline(always)]
fn put_lit(out: &mut Vec<u8>, lit: Lit)
    requires room { vec_len out.old + MOST_CHARACTERS ≤ vec_capacity out.old }
    ensures items { out.new.items ≡ out.old.items ++ literal_item lit }
    ensures within { vec_len out.new ≤ vec_len out.old + MOST_CHARACTERS }
    ensures capacity { vec_capacity out.new ≡ vec_capacity out.old }
{
    if !lit.is_positive() {
        out.push_reserved(b'-');
    }
    put_id(out, lit.variable());
}

/// Appends the ids that bytes spell to a text. There is room for them.
#[tactic(auto, using(crate::proofs::Spelled::spelled))]
fn with_ids(mut text: Vec<u8>, bytes: &[u8]) -> Vec<u8>
    requires room { vec_len text + MOST_CHARACTERS * length bytes.now ≤ vec_capacity text }
    ensures items { result.items ≡ text.items ++ flat_map id_item (ids_of bytes.now) }
    ensures within { vec_len result ≤ vec_len text + MOST_CHARACTERS * length bytes.now }
    ensures capacity { vec_capacity result ≡ vec_capacity text }
{
    let mut last = 0u32;
    let mut left = bytes;
    while let Some((number, rest)) = next_number(left) {
        last = stepped(last, number);
        put_id(&mut text, last);
        left = rest;
    }
    text
}

/// Appends the ids that bytes spell, as `with_ids` does.
fn put_ids(out: &mut Vec<u8>, bytes: &[u8])
    requires room { vec_len out.old + MOST_CHARACTERS * length bytes.now ≤ vec_capacity out.old }
    ensures items { out.new.items ≡ out.old.items ++ flat_map id_item (ids_of bytes.now) }
    ensures within { vec_len out.new ≤ vec_len out.old + MOST_CHARACTERS * length bytes.now }
    ensures capacity { vec_capacity out.new ≡ vec_capacity out.old }
{
    let text = take_row(out);
    *out = with_ids(text, bytes);
}

/// Appends the literals that bytes spell to a text. There is room for them.
#[tactic(auto, using(crate::proofs::Spelled::spelled))]
fn with_lits(mut text: Vec<u8>, bytes: &[u8]) -> Vec<u8>
    requires room { vec_len text + MOST_CHARACTERS * length bytes.now ≤ vec_capacity text }
    ensures items { result.items ≡ text.items ++ flat_map literal_item (literals_of bytes.now) }
    ensures within { vec_len result ≤ vec_len text + MOST_CHARACTERS * length bytes.now }
    ensures capacity { vec_capacity result ≡ vec_capacity text }
{
    let mut left = bytes;
    while let Some((number, rest)) = next_number(left) {
        put_lit(&mut text, literal_at(number));
        left = rest;
    }
    text
}

/// Appends the literals that bytes spell, as `with_lits` does.
fn put_lits(out: &mut Vec<u8>, bytes: &[u8])
    requires room { vec_len out.old + MOST_CHARACTERS * length bytes.now ≤ vec_capacity out.old }
    ensures items { out.new.items ≡ out.old.items ++ flat_map literal_item (literals_of bytes.now) }
    ensures within { vec_len out.new ≤ vec_len out.old + MOST_CHARACTERS * length bytes.now }
    ensures capacity { vec_capacity out.new ≡ vec_capacity out.old }
{
    let text = take_row(out);
    *out = with_lits(text, bytes);
}

/// Appends the addition of the literals and hints that bytes spell.
#[tactic(auto, using(crate::proofs::Spelled::pieces))]
fn put_addition(out: &mut Vec<u8>, id: u32, lits: &[u8], hints: &[u8])
    requires room { vec_len out.old + MOST_CHARACTERS * (length lits.now + length hints.now + 2) ≤ vec_capacity
        out.old }
    ensures { out.new.items ≡ out.old.items ++ line_text (theory.Add id (literals_of lits.now) (ids_of hints.now)) }
{
    put_id(out, id);
    put_lits(out, lits);
    put_both(out, b'0', b' ');
    put_ids(out, hints);
    put_both(out, b'0', b'\n');
}

/// Appends the deletion of the ids that bytes spell.
#[tactic(auto, using(crate::proofs::Spelled::pieces))]
fn put_deletion(out: &mut Vec<u8>, id: u32, ids: &[u8])
    requires room { vec_len out.old + MOST_CHARACTERS * (length ids.now + 2) ≤ vec_capacity out.old }
    ensures { out.new.items ≡ out.old.items ++ line_text (theory.Delete id (ids_of ids.now)) }
{
    put_id(out, id);
    put_both(out, b'd', b' ');
    put_ids(out, ids);
    put_both(out, b'0', b'\n');
}

/// Appends the line that a head and its bytes spell.
fn put_line(out: &mut Vec<u8>, head: Head, bytes: &[u8])
    requires size { length bytes.now ≡ size_of head }
    requires room { vec_len out.old + MOST_CHARACTERS * (length bytes.now + 2) ≤ vec_capacity out.old }
    ensures { out.new.items ≡ out.old.items ++ line_text (line_in head bytes.now) }
{
    match head {
        Head::Add { id, lits, .. } => {
            let (prefix, back) = bytes.split_at(lits as usize);
            put_addition(out, id, prefix, back);
        }
        Head::Delete { id, .. } => put_deletion(out, id, bytes),
    }
}

/// Reserves room for a line, and appends it.
#[tactic(auto, using(crate::proofs::After::after))]
fn push_line(out: &mut Vec<u8>, head: Head, bytes: &[u8]) -> Result<(), AllocError>
    requires { length bytes.now ≡ size_of head }
    ensures ok { OnOk result (out.new.items ≡ out.old.items ++ line_text (line_in head bytes.now)) }
    ensures begins { BeginsAs out.old.items out.new.items }
{
    reserve(out, head.size())?;
    put_line(out, head, bytes);
    Ok(())
}

/// Appends the lines of a byte array one after another. If memory runs out, some of them may have been appended.
#[tactic(auto, using(crate::proofs::Spelled::lines))]
fn push_lines(out: &mut Vec<u8>, heads: &[Head], bytes: &[u8]) -> Result<(), AllocError>
    requires { IsSplit heads.now bytes.now }
    ensures ok { OnOk result (out.new.items ≡ out.old.items ++ flat_map line_text (lines_in heads.now bytes.now)) }
    ensures begins { BeginsAs out.old.items out.new.items }
{
    let mut left = bytes;
    let mut heads_left = heads;
    while let Some((head, others)) = heads_left.split_first() {
        let (prefix, back) = left.split_at(head.size());
        push_line(out, *head, prefix)?;
        heads_left = others;
        left = back;
    }
    Ok(())
}

/// Appends the spelling of each line of a log. After an error the text is as before.
pub fn write_log(log: &Log, out: &mut Vec<u8>) -> Result<(), AllocError>
    ensures ok { OnOk result (out.new.items ≡ out.old.items ++ flat_map line_text log.now) }
    ensures err { OnErr result (out.new.items ≡ out.old.items) }
{
    let start = out.len();
    let (heads, bytes) = log.parts();
    let written = push_lines(out, heads, bytes);
    if written.is_err() {
        out.truncate(start);
    }
    written
}
