//! Lists of names.
ghost use Rattle.std.specs.Prelude.{◌≡◌, ◌++◌, OnOk};

use net_core::Name;
use std::alloc::AllocError;

/// Appends copies of `others` to `names`.
pub fn add_copies(names: &mut Vec<Name>, others: &[Name]) -> Result<(), AllocError>
    ensures { OnOk result (names.new.items ≡ names.old.items ++ others.now) }
{
    let mut left = others;
    while let Some((name, rest)) = left.split_first() {
        names.push(name.copied()?)?;
        left = rest;
    }
    Ok(())
}
