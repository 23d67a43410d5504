//! Logs: the heads of the lines, and one array with the bytes of all lines. The only invariant is that the
//! lengths in the heads add up to the length of the array. That suffices to append a line and to take off the
//! first one; the bytes themselves are arbitrary.
ghost use Rattle.std.specs.Prelude.{◌≡◌, [], ◌∷◌, ◌++◌, length, take, OnOk, OnErr, IsOkAnd, IfOk, IfSome, IfNone};
ghost use Rattle.sat_theory.specs.Line as theory;
ghost use Rattle.lrat_text.specs.Values.{line_value};
ghost use Rattle.log_core.specs.Rows.{lines_in, IsSplit};

use crate::head::Head;
use crate::packing::{pack_addition, pack_deletion};
use crate::unpacking::line_in;
use cnf_core::Lit;
use lrat_text::Line;
use std::alloc::{AllocError, Global};
use std::marker::Model;

/// A log. A line takes 16 bytes and about two more for each literal and hint, without an allocation of its own.
#[derive(Drop)]
pub struct Log {
    heads: Vec<Head>,
    bytes: Vec<u8>,
}

impl Model for Log {
    ghost use Rattle.std.specs.Prelude.{List};
    ghost use Rattle.sat_theory.specs.Line as theory;
    ghost use Rattle.log_core.specs.Rows.{lines_in, IsSplit};

    ghost Value = { List theory.Line };

    ghost view = { λ l. lines_in l.heads.items l.bytes.items };

    ghost invariant = { λ l. IsSplit l.heads.items l.bytes.items };
}

/// What is left of a log while it is read.
#[derive(Drop)]
pub struct Lines<'a> {
    heads: &'a [Head],
    bytes: &'a [u8],
}

impl<'a> Model for Lines<'a> {
    ghost use Rattle.std.specs.Prelude.{List};
    ghost use Rattle.sat_theory.specs.Line as theory;
    ghost use Rattle.log_core.specs.Rows.{lines_in, IsSplit};

    ghost Value = { List theory.Line };

    ghost view = { λ l. lines_in l.heads.now l.bytes.now };

    ghost invariant = { λ l. IsSplit l.heads.now l.bytes.now };
}

/// Appends the head of a packed line.
fn push_head(heads: &mut Vec<Head>, packed: Result<Head, AllocError>) -> Result<(), AllocError>
    ensures ok { OnOk result (IsOkAnd packed (λ head. heads.new.items ≡ heads.old.items ++ head ∷ [])) }
    ensures err { OnErr result (heads.new.items ≡ heads.old.items) }
{
    heads.push(packed?)?;
    Ok(())
}

/// As `push_head`; if memory runs out, the byte array is truncated to where the line began.
fn push_or_truncate(
    heads: &mut Vec<Head>,
    bytes: &mut Vec<u8>,
    start: usize,
    packed: Result<Head, AllocError>,
) -> Result<(), AllocError>
    ensures ok { OnOk result (IsOkAnd packed (λ head. heads.new.items ≡ heads.old.items ++ head ∷ [])) }
    ensures kept { OnOk result (bytes.new.items ≡ bytes.old.items) }
    ensures err { OnErr result (heads.new.items ≡ heads.old.items) }
    ensures split { OnErr result (bytes.new.items ≡ take start bytes.old.items) }
{
    let pushed = push_head(heads, packed);
    if pushed.is_err() {
        bytes.truncate(start);
    }
    pushed
}

#[tactic(auto, using(crate::proofs::Shown::shown))]
impl Log {
    /// The empty log.
    pub fn new(alloc: Global) -> Log
        ensures { result ≡ [] }
    {
        Log {
            heads: Vec::new(alloc),
            bytes: Vec::new(alloc),
        }
    }

    /// How many lines it has.
    pub fn len(&self) -> usize
        ensures { result ≡ length self.now }
    {
        self.heads.len()
    }

    /// Appends an addition. Literals or hints that take more than 4,294,967,295 bytes count as running out of
    /// memory (a head keeps lengths as u32).
    pub fn add(&mut self, id: u32, lits: &[Lit], hints: &[u32]) -> Result<(), AllocError>
        ensures ok { OnOk result (self.new ≡ self.old ++ theory.Add id lits.now hints.now ∷ []) }
        ensures err { OnErr result (self.new ≡ self.old) }
    {
        let start = self.bytes.len();
        let packed = pack_addition(&mut self.bytes, id, lits, hints);
        push_or_truncate(&mut self.heads, &mut self.bytes, start, packed)?;
        Ok(())
    }

    /// Appends a deletion. Ids that take more than 4,294,967,295 bytes count as running out of memory.
    pub fn delete(&mut self, id: u32, ids: &[u32]) -> Result<(), AllocError>
        ensures ok { OnOk result (self.new ≡ self.old ++ theory.Delete id ids.now ∷ []) }
        ensures err { OnErr result (self.new ≡ self.old) }
    {
        let start = self.bytes.len();
        let packed = pack_deletion(&mut self.bytes, id, ids);
        push_or_truncate(&mut self.heads, &mut self.bytes, start, packed)?;
        Ok(())
    }

    /// The heads of its lines, and the byte array that they divide.
    pub(crate) fn parts(&self) -> (&[Head], &[u8])
        ensures lines { lines_in result.0.now result.1.now ≡ self.now }
        ensures split { IsSplit result.0.now result.1.now }
    {
        (&self.heads, &self.bytes)
    }

    /// An iterator over its lines, in order.
    pub fn lines(&self) -> Lines<'_>
        ensures { result ≡ self.now }
    {
        Lines {
            heads: &self.heads,
            bytes: &self.bytes,
        }
    }
}

#[tactic(auto, using(crate::proofs::Shown::left))]
impl<'a> Lines<'a> {
    /// The next line; None at the end. If memory runs out, the line isn't skipped.
    pub fn next(&mut self, alloc: Global) -> Result<Option<Line>, AllocError>
        ensures none { IfOk result (λ found. IfNone found (self.old ≡ [])) }
        ensures end { IfOk result (λ found. IfNone found (self.new ≡ [])) }
        ensures some { IfOk result (λ found. IfSome found (λ line. self.old ≡ line_value line ∷ self.new)) }
        ensures err { OnErr result (self.new ≡ self.old) }
    {
        let Some((head, heads)) = self.heads.split_first() else {
            return Ok(None);
        };
        let (prefix, back) = self.bytes.split_at(head.size());
        let line = line_in(alloc, *head, prefix)?;
        self.heads = heads;
        self.bytes = back;
        Ok(Some(line))
    }
}
