//! The names of subproblems, as they are written.
ghost use Rattle.std.specs.Prelude.{◌≡◌, ◌∷◌, ◌++◌, decimal, IfOk, OnOk};
ghost use Rattle.std.specs.List.{flat_map};
ghost use Rattle.cert_theory.specs.Spelling.{fence_text};

use std::alloc::{AllocError, Global};
use text_core::push_number;

/// Appends the sizes of the levels, each with a blank before it.
fn push_levels(text: &mut Vec<u8>, levels: &[u32]) -> Result<(), AllocError>
    ensures { OnOk result (text.new.items ≡ text.old.items ++ flat_map (λ size. 32 ∷ decimal size) levels.now) }
{
    for size in levels {
        text.push(b' ')?;
        push_number(text, *size)?;
    }
    Ok(())
}

/// The name of a fence: `fence`, then the number of steps on each level; without LF.
#[tactic(auto, unfolding(crate::specs::Spelling::fence_text))]
pub fn fence_name(alloc: Global, levels: &[u32]) -> Result<Vec<u8>, AllocError>
    ensures { IfOk result (λ name. name.items ≡ fence_text levels.now) }
{
    let mut name = Vec::new(alloc);
    name.extend_from_slice(b"fence")?;
    push_levels(&mut name, levels)?;
    Ok(name)
}
