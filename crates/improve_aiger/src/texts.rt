//! Improvement of AIGER texts.
ghost use Rattle.std.specs.Prelude.{◌≡◌, ◌<◌, ◌^◌, length, IfOk, IfErr};
ghost use Rattle.net_core.specs.declared.error.NetError.TheVariants.{Memory};
ghost use Rattle.net_document.specs.Format.{IsNetlist, IsRefusedText};
ghost use Rattle.aiger_forms.specs.Forms.{aiger_forms};
ghost use Rattle.settings.specs.Improve.{IsInRange};
ghost use Rattle.improve_windows.specs.Improving.{FitsFormat, IsReported};

use crate::writing::{CostedText, costed_text};
use aiger_forms::{forms_are_a_format, read_forms};
use improve_windows::{Improved, ImprovedText, Written, all_reported, improve_written};
use net_core::NetError;
use progress::Tell;
use sat_solve::Solver;
use settings::ImproveSettings;
use std::alloc::Global;

/// Improves an AIGER file in either form as `improve_windows` does a BLIF netlist, and writes its ASCII form. Each
/// operator of the basis must be one that a gate may have which AIGER can express: any but XOR and its complement.
///
/// Lines are judged in order, and the first fault is reported; then more than 100,000 gates, a name that is driven
/// twice, one that is used and not driven, and a combinational loop. A well-formed file is refused only where memory
/// runs out.
#[tactic(auto, using(improve_windows::specs::ImprovingLaws::improving))]
pub fn improve_aiger<S: Solver, T: Tell>(
    alloc: Global,
    bytes: &[u8],
    settings: ImproveSettings,
    tell: &T,
) -> Result<ImprovedText, NetError>
    requires size { length bytes.now < 2 ^ 31 }
    requires range { IsInRange settings }
    requires basis { FitsFormat aiger_forms settings }
    ensures improved { IfOk result (λ i. IsReported aiger_forms settings bytes.now i.text.items i.report.items) }
    ensures refused { IfErr result (IsRefusedText aiger_forms bytes.now) }
    ensures complete { IfErr result (λ e. IsNetlist aiger_forms bytes.now → e ≡ Memory) }
{
    // for the prover: the laws of AIGER
    forms_are_a_format();
    let circuit = read_forms(alloc, bytes)?;
    let Written {
        improved,
        document: _,
    } = improve_written::<S, T>(alloc, circuit, settings, tell)?;
    let CostedText { text, cost } = costed_text(alloc, &improved.circuit)?;
    let counted = Improved {
        after: cost,
        ..improved
    };
    let report = all_reported(alloc, &counted)?;
    Ok(ImprovedText { text, report })
}
