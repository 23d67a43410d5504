//! Whether two AIGER texts have the same sections.
ghost use Rattle.std.specs.Prelude.{◌≡◌, IfOk, IfErr};
ghost use Rattle.aiger_sections.specs.Plain.{sections_in, are_same};
ghost use Rattle.equiv_formats.specs.Comparison.{share_sections as share_sections_of, ShareSections};
ghost use Rattle.equiv_formats.specs.Comparison.{AreSectionsRefused};

use aiger_sections::{same_sections, sections};
use equiv_run::CompareError;
use format_names::{FormatPair, NetFormat};
use std::alloc::{AllocError, Global};

/// Whether two AIGER texts have as many outputs, bad states and constraints.
fn have_same(alloc: Global, first: &[u8], second: &[u8]) -> Result<bool, AllocError>
    ensures { IfOk result (λ same. same ≡ are_same (sections_in first.now) (sections_in second.now)) }
{
    let one = sections(alloc, first)?;
    let other = sections(alloc, second)?;
    Ok(same_sections(one, other))
}

/// The same of two texts in their formats; beside another format all are outputs.
fn share_sections(
    alloc: Global,
    formats: FormatPair,
    first: &[u8],
    second: &[u8],
) -> Result<bool, AllocError>
    ensures { IfOk result (λ same. same ≡
        share_sections_of formats.first formats.second first.now second.now) }
{
    match (formats.first, formats.second) {
        (NetFormat::Aiger, NetFormat::Aiger) => have_same(alloc, first, second),
        _ => Ok(true),
    }
}

/// Refuses two AIGER texts that differ in how many outputs, bad states or constraints they have, as different
/// interfaces.
pub fn check_sections(
    alloc: Global,
    formats: FormatPair,
    first: &[u8],
    second: &[u8],
) -> Result<(), CompareError>
    ensures shared { IfOk result (λ done. ShareSections formats first.now second.now) }
    ensures refused { IfErr result (AreSectionsRefused formats first.now second.now) }
{
    match share_sections(alloc, formats, first, second) {
        Ok(same) => {
            if same {
                Ok(())
            } else {
                Err(CompareError::DifferentInterface)
            }
        }
        Err(AllocError) => Err(CompareError::Memory),
    }
}
