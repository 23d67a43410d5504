//! What a text lists, in any format.
ghost use Rattle.std.specs.Prelude.{◌≡◌, ◌+◌, ◌*◌, ◌≤◌, ◌<◌, ◌^◌, length, Ok, IfOk};
ghost use Rattle.net_theory.specs.Cost.{cost};
ghost use Rattle.net_theory.specs.Limits.{most_of_two};
ghost use Rattle.net_theory.specs.NetOf.{source_count};
ghost use Rattle.net_document.specs.Listed.{IsWellListed};
ghost use Rattle.net_formats.specs.Formats.{format_of};
ghost use Rattle.aiger_core.specs.Aiger.{aiger_format};
ghost use Rattle.aiger_forms.specs.Forms.{aiger_forms};
ghost use Rattle.blif_core.specs.Blif.{blif_format};
ghost use Rattle.bench_core.specs.Bench.{bench_format};

use aiger_sections::plain_text;
use aiger_text::{listed_of, read_ascii};
use format_names::NetFormat;
use net_core::NetError;
use net_document::Listed;
use std::alloc::Global;

/// The most bytes of a plain text of AIGER, as of `aiger_forms`.
const MOST_BYTES: usize = 2_147_483_647;

/// What a BLIF text lists.
fn read_blif(alloc: Global, bytes: &[u8]) -> Result<Listed, NetError>
    requires { length bytes.now ≤ most_of_two }
    ensures said { IfOk result (λ l. blif_format.listed bytes.now ≡ Ok l) }
    ensures listed { IfOk result IsWellListed }
    ensures few { IfOk result (λ l. length l.document.tables < 2 ^ 31) }
    ensures small { IfOk result (λ l. 2 * source_count l.document + cost l.document < 2 ^ 31) }
{
    let listed = blif_text::read_listed(alloc, bytes)?;
    Ok(listed)
}

/// What a BENCH text lists.
fn read_bench(alloc: Global, bytes: &[u8]) -> Result<Listed, NetError>
    requires { length bytes.now ≤ most_of_two }
    ensures said { IfOk result (λ l. bench_format.listed bytes.now ≡ Ok l) }
    ensures listed { IfOk result IsWellListed }
    ensures few { IfOk result (λ l. length l.document.tables < 2 ^ 31) }
    ensures small { IfOk result (λ l. 2 * source_count l.document + cost l.document < 2 ^ 31) }
{
    let listed = bench_text::read_listed(alloc, bytes)?;
    Ok(listed)
}

/// What a plain AIGER text lists.
#[tactic(auto, using(crate::specs::ListingLaws::listings))]
fn read_plain(alloc: Global, bytes: &[u8]) -> Result<Listed, NetError>
    requires { length bytes.now < 2 ^ 31 }
    ensures said { IfOk result (λ l. aiger_format.listed bytes.now ≡ Ok l) }
    ensures listed { IfOk result IsWellListed }
    ensures few { IfOk result (λ l. length l.document.tables < 2 ^ 31) }
    ensures small { IfOk result (λ l. 2 * source_count l.document + cost l.document < 2 ^ 31) }
{
    let file = read_ascii(alloc, bytes)?;
    let listed = listed_of(alloc, &file)?;
    Ok(listed)
}

/// What an AIGER text lists, in either form, with bad states and constraints as outputs.
#[tactic(auto, using(crate::specs::ListingLaws::forms))]
fn read_aiger(alloc: Global, bytes: &[u8]) -> Result<Listed, NetError>
    ensures said { IfOk result (λ l. aiger_forms.listed bytes.now ≡ Ok l) }
    ensures listed { IfOk result IsWellListed }
    ensures few { IfOk result (λ l. length l.document.tables < 2 ^ 31) }
    ensures small { IfOk result (λ l. 2 * source_count l.document + cost l.document < 2 ^ 31) }
{
    let text = plain_text(alloc, bytes)?;
    if text.len() > MOST_BYTES {
        return Err(NetError::Memory);
    }
    read_plain(alloc, &text)
}

/// What a text lists in a format.
pub(crate) fn read_listing(
    alloc: Global,
    format: NetFormat,
    bytes: &[u8],
) -> Result<Listed, NetError>
    requires { length bytes.now ≤ most_of_two }
    ensures said { IfOk result (λ l. (format_of format).listed bytes.now ≡ Ok l) }
    ensures listed { IfOk result IsWellListed }
    ensures few { IfOk result (λ l. length l.document.tables < 2 ^ 31) }
    ensures small { IfOk result (λ l. 2 * source_count l.document + cost l.document < 2 ^ 31) }
{
    match format {
        NetFormat::Blif => read_blif(alloc, bytes),
        NetFormat::Bench => read_bench(alloc, bytes),
        NetFormat::Aiger => read_aiger(alloc, bytes),
    }
}
