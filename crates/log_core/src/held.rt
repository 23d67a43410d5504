//! Byte arrays that are held by value while a loop appends to them. Through a reference, the address and the
//! length of an array are loaded again after each byte, since writing the byte might have changed them.
ghost use Rattle.std.specs.Prelude.{◌≡◌};

use std::mem;

/// Moves an array out of its place, where an empty one is left until it is put back.
#[inline(always)]
pub(crate) fn take_row(row: &mut Vec<u8>) -> Vec<u8>
    ensures { result ≡ row.old }
{
    let alloc = *row.allocator();
    mem::replace(row, Vec::new(alloc))
}
