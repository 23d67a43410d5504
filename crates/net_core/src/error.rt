//! The errors of netlists.

ghost use Rattle.std.specs.Prelude.{◌≡◌};
ghost use Rattle.net_core.specs.declared.error.NetError.TheVariants.{Memory};

use crate::name::Name;
use std::alloc::{AllocError, AllocFailed};

/// Why the text of a netlist is refused. Line numbers start at 1; a continued line has the number of its first
/// part.
#[derive(Drop)]
pub enum NetError {
    /// The line isn't in the format's syntax.
    Syntax(u32),
    /// The line's first word (or a latch's control) belongs to the format but isn't supported.
    NotSupported(u32, Name),
    /// The output value of the cover line differs from that of its table's first line.
    MixedCover(u32),
    /// The table or gate has more than 256 inputs.
    TooWide(u32),
    /// The netlist decomposes into more gates than may be read: their number.
    TooManyGates(u32),
    /// The name is driven twice.
    DrivenTwice(Name),
    /// The name is read, but nothing drives it.
    Undriven(Name),
    /// The name depends on itself through tables: a combinational loop.
    Cycle(Name),
    /// The line has more than 1,048,576 bytes.
    LineTooLong(u32),
    /// The cover line is the table's 4,097th.
    TooManyRows(u32),
    /// The line has a word of more than 1,024 bytes.
    NameTooLong(u32),
    /// Out of memory.
    Memory,
}

impl From<AllocError> for NetError {
    ghost from_gives = { λ _ e. e ≡ Memory };

    fn from(_error: AllocError) -> NetError {
        NetError::Memory
    }
}

impl<T: Drop> From<AllocFailed<T>> for NetError {
    ghost from_gives = { λ _ e. e ≡ Memory };

    fn from(_error: AllocFailed<T>) -> NetError {
        NetError::Memory
    }
}
