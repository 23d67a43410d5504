//! An input that consists of tables alone.
ghost use Rattle.std.specs.Prelude.{◌^◌, ◌<◌, length, [], IfOk};
ghost use Rattle.text_core.specs.Lines.{lines_of};
ghost use Rattle.tt_core.specs.Gives.{Gives};
ghost use Rattle.tt_core.specs.Spelling.{SpellsTables};
ghost use Rattle.tt_core.specs.Words.{specification};
ghost use Rattle.synth_core.specs.Tables.{tables_alone};

use std::alloc::Global;
use text_core::next_line;
use tt_core::{Spec, SpecError, read_tables};

/// The tables in the input, with nothing after them.
pub fn tables(alloc: Global, bytes: &[u8]) -> Result<Spec, SpecError>
    requires { length bytes.now < 2 ^ 31 }
    ensures exact { Gives (λ spec. spec) result (tables_alone (lines_of bytes.now)) }
    ensures spelled { IfOk result (λ spec. SpellsTables (specification spec) (lines_of bytes.now) []) }
{
    let tables = read_tables(alloc, bytes)?;
    let (_, rest) = bytes.split_at(tables.used);
    match next_line(rest) {
        None => Ok(tables.spec),
        Some(_) => Err(SpecError::BadRow(1 + tables.lines)),
    }
}
