//! Texts that are improved by wishes, in each format.
ghost use Rattle.std.specs.Prelude.{◌≡◌, ◌<◌, ◌^◌, false, length, IfOk, IfErr};
ghost use Rattle.net_document.specs.Format.{IsRefusedText};
ghost use Rattle.blif_core.specs.Blif.{blif_format};
ghost use Rattle.bench_core.specs.Bench.{bench_format};
ghost use Rattle.aiger_forms.specs.Forms.{aiger_forms};
ghost use Rattle.settings.specs.Improve.{IsInRange};
ghost use Rattle.improve_windows.specs.Improving.{FitsFormat};
ghost use Rattle.improve_wishes.specs.Covers.{blif_in};
ghost use Rattle.improve_wishes.specs.Texts.{IsWishedText};
ghost use Rattle.improve_wishes.specs.Wished.{IsWished};

use crate::bases::base_of;
use crate::writing::{aiger_of, bench_of, blif_of};
use aiger_forms::{forms_are_a_format, read_forms};
use based::Based;
use bench_core::read_bench;
use bench_laws::bench_is_a_format;
use blif_core::read_blif;
use blif_covers::least_is_a_format;
use blif_laws::blif_is_a_format;
use improve_windows::ImprovedText;
use net_core::NetError;
use progress::Tell;
use sat_solve::Solver;
use settings::ImproveSettings;
use std::alloc::Global;
use wish_names::Wishes;

/// The text of a netlist that was improved by wishes, or why there is none.
#[derive(Drop)]
pub enum WishedText {
    /// The text and its report.
    Text(ImprovedText),
    /// The basis can't express the gate with this name.
    Cannot(Vec<u8>),
    /// Over the basis there could be more gates than a netlist may have.
    TooMany,
}

/// Improves a BLIF netlist by the settings and the wishes, and writes it with the covers that are wished for. It is
/// refused as `improve_blif` refuses it.
#[tactic(auto, using(crate::specs::TextLaws::texts))]
pub fn wished_blif<S: Solver, T: Tell>(
    alloc: Global,
    bytes: &[u8],
    settings: ImproveSettings,
    wishes: Wishes,
    tell: &T,
) -> Result<WishedText, NetError>
    requires size { length bytes.now < 2 ^ 31 }
    requires range { IsInRange settings }
    ensures wished { IfOk result (IsWishedText (blif_in wishes.covers) settings wishes bytes.now) }
    ensures refused { IfErr result (IsRefusedText blif_format bytes.now) }
{
    // for the prover: the laws of BLIF
    blif_is_a_format();
    least_is_a_format();
    let circuit = read_blif(alloc, bytes)?;
    let found = base_of(alloc, circuit, &settings, wishes.only)?;
    match found {
        Based::Base(base) => {
            let improved = blif_of::<S, T>(alloc, base, settings, wishes, tell)?;
            Ok(WishedText::Text(improved))
        }
        Based::Cannot(name) => Ok(WishedText::Cannot(name)),
        Based::TooMany => Ok(WishedText::TooMany),
    }
}

/// Improves a BENCH netlist by the settings and the wishes. It is refused as `improve_bench` refuses it.
#[tactic(auto, using(crate::specs::TextLaws::texts))]
pub fn wished_bench<S: Solver, T: Tell>(
    alloc: Global,
    bytes: &[u8],
    settings: ImproveSettings,
    wishes: Wishes,
    tell: &T,
) -> Result<WishedText, NetError>
    requires size { length bytes.now < 2 ^ 31 }
    requires range { IsInRange settings }
    requires basis { FitsFormat bench_format settings }
    ensures wished { IfOk result (IsWishedText bench_format settings wishes bytes.now) }
    ensures refused { IfErr result (IsRefusedText bench_format bytes.now) }
{
    // for the prover: the laws of BENCH
    bench_is_a_format();
    let circuit = read_bench(alloc, bytes)?;
    let found = base_of(alloc, circuit, &settings, wishes.only)?;
    match found {
        Based::Base(base) => {
            let improved = bench_of::<S, T>(alloc, base, settings, wishes.levels, tell)?;
            Ok(WishedText::Text(improved))
        }
        Based::Cannot(name) => Ok(WishedText::Cannot(name)),
        Based::TooMany => Ok(WishedText::TooMany),
    }
}

/// Improves an AIGER file in either form by the settings and the wishes, and writes its ASCII form. It is refused as
/// `improve_aiger` refuses it. An AIGER file is over AND with complements anyway: no other basis can be wished for.
#[tactic(auto, using(crate::specs::TextLaws::texts))]
pub fn wished_aiger<S: Solver, T: Tell>(
    alloc: Global,
    bytes: &[u8],
    settings: ImproveSettings,
    wishes: Wishes,
    tell: &T,
) -> Result<ImprovedText, NetError>
    requires size { length bytes.now < 2 ^ 31 }
    requires range { IsInRange settings }
    requires basis { FitsFormat aiger_forms settings }
    requires only { wishes.only ≡ false }
    ensures wished { IfOk result (λ i. IsWished aiger_forms settings wishes bytes.now i.text.items i.report.items) }
    ensures refused { IfErr result (IsRefusedText aiger_forms bytes.now) }
{
    // for the prover: the laws of AIGER
    forms_are_a_format();
    let circuit = read_forms(alloc, bytes)?;
    let improved = aiger_of::<S, T>(alloc, circuit, settings, wishes.levels, tell)?;
    Ok(improved)
}
