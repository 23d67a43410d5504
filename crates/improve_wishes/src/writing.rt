//! The improved circuit of each format, as a text with its report.
ghost use Rattle.std.specs.Prelude.{◌≡◌, All, IfOk};
ghost use Rattle.net_theory.specs.Circuit.{IsProper};
ghost use Rattle.net_levels.specs.Levels.{levels_of};
ghost use Rattle.blif_core.specs.Written.{written};
ghost use Rattle.blif_core.specs.Spelling.{spelled, HasInit};
ghost use Rattle.blif_core.specs.Blif.{CanWriteBlif};
ghost use Rattle.bench_core.specs.Spelling.{circuit_text as gates_text};
ghost use Rattle.bench_core.specs.Bench.{bench_format};
ghost use Rattle.bench_core.specs.Writable.{IsBenchCircuit};
ghost use Rattle.bench_laws.specs.Spelled.{CanWriteBench};
ghost use Rattle.aiger_forms.specs.Forms.{aiger_forms};
ghost use Rattle.aiger_laws.specs.Writable.{CanWriteAiger};
ghost use Rattle.settings.specs.Improve.{IsInRange};
ghost use Rattle.improve_windows.specs.Improving.{FitsFormat};
ghost use Rattle.improve_wishes.specs.Covers.{covered, blif_in};
ghost use Rattle.improve_wishes.specs.Wished.{IsTextBy};
ghost use Rattle.improve_wishes.specs.WishedLaws.{CanIfRoom};

use crate::reaching::reach;
use crate::reporting::wished_report;
use aiger_forms::forms_are_a_format;
use bench_core::write_gates;
use bench_laws::{bench_is_a_format, circuits_cost_the_same};
use blif_core::write_document;
use blif_covers::{least_circuits_cost_the_same, write_least};
use improve_aiger::{CostedText, costed_text};
use improve_windows::{Improved, ImprovedText, Written};
use net_core::Circuit;
use net_document::Document;
use net_levels::levels;
use progress::Tell;
use sat_solve::Solver;
use settings::ImproveSettings;
use std::alloc::{AllocError, Global};
use wish_names::{CoversAsked, LevelsAsked, Wishes};

/// The levels of a circuit.
fn levels_in(alloc: Global, circuit: &Circuit) -> Result<u32, AllocError>
    ensures { IfOk result (λ n. n ≡ levels_of circuit.now.net) }
{
    levels(alloc, &circuit.net)
}

/// The BLIF text of a document with the covers that are wished for.
fn blif_text_of(
    alloc: Global,
    covers: CoversAsked,
    document: Document,
) -> Result<Vec<u8>, AllocError>
    requires { All HasInit document.latches }
    ensures { IfOk result (λ text. text.items ≡ spelled (covered covers document)) }
{
    let mut text = Vec::new(alloc);
    match covers {
        CoversAsked::Rows => write_document(&mut text, &document)?,
        CoversAsked::Least => write_least(&mut text, document)?,
    }
    Ok(text)
}

/// The BENCH text of a circuit that BENCH can express, by the document that BLIF would write for it.
fn bench_text_of(
    alloc: Global,
    circuit: &Circuit,
    document: &Document,
) -> Result<Vec<u8>, AllocError>
    requires fits { IsBenchCircuit circuit.now }
    requires document { document.now ≡ written circuit.now }
    ensures { IfOk result (λ text. text.items ≡ gates_text circuit.now) }
{
    let mut text = Vec::new(alloc);
    write_gates(&mut text, circuit, document)?;
    Ok(text)
}

/// The BLIF text of a circuit that is improved, and its report.
pub(crate) fn blif_of<S: Solver, T: Tell>(
    alloc: Global,
    base: Circuit,
    settings: ImproveSettings,
    wishes: Wishes,
    tell: &T,
) -> Result<ImprovedText, AllocError>
    requires proper { IsProper base }
    requires range { IsInRange settings }
    ensures { IfOk result (λ i. IsTextBy (blif_in wishes.covers) CanWriteBlif settings wishes.levels base i.text.items
        i.report.items) }
{
    // for the prover: the cost is the same with the least covers
    least_circuits_cost_the_same();
    let asked = wishes.levels;
    let base_levels = levels_in(alloc, &base)?;
    let Written { improved, document } = reach::<S, T>(alloc, base, settings, asked, tell)?;
    let text = blif_text_of(alloc, wishes.covers, document)?;
    let report = wished_report(alloc, asked, base_levels, &improved)?;
    Ok(ImprovedText { text, report })
}

/// The BENCH text of a circuit that is improved, and its report.
pub(crate) fn bench_of<S: Solver, T: Tell>(
    alloc: Global,
    base: Circuit,
    settings: ImproveSettings,
    asked: LevelsAsked,
    tell: &T,
) -> Result<ImprovedText, AllocError>
    requires proper { IsProper base }
    requires range { IsInRange settings }
    requires basis { FitsFormat bench_format settings }
    requires can { CanIfRoom CanWriteBench base }
    ensures { IfOk result (λ i. IsTextBy bench_format CanWriteBench settings asked base i.text.items i.report.items) }
{
    // for the prover: the laws of BENCH
    bench_is_a_format();
    circuits_cost_the_same();
    let base_levels = levels_in(alloc, &base)?;
    let Written { improved, document } = reach::<S, T>(alloc, base, settings, asked, tell)?;
    let text = bench_text_of(alloc, &improved.circuit, &document)?;
    let report = wished_report(alloc, asked, base_levels, &improved)?;
    Ok(ImprovedText { text, report })
}

/// The AIGER text of a circuit that is improved, in the ASCII form, and its report.
pub(crate) fn aiger_of<S: Solver, T: Tell>(
    alloc: Global,
    base: Circuit,
    settings: ImproveSettings,
    asked: LevelsAsked,
    tell: &T,
) -> Result<ImprovedText, AllocError>
    requires proper { IsProper base }
    requires range { IsInRange settings }
    requires basis { FitsFormat aiger_forms settings }
    requires can { CanIfRoom CanWriteAiger base }
    ensures { IfOk result (λ i. IsTextBy aiger_forms CanWriteAiger settings asked base i.text.items i.report.items) }
{
    // for the prover: the laws of AIGER
    forms_are_a_format();
    let base_levels = levels_in(alloc, &base)?;
    let Written {
        improved,
        document: _,
    } = reach::<S, T>(alloc, base, settings, asked, tell)?;
    let CostedText { text, cost } = costed_text(alloc, &improved.circuit)?;
    let counted = Improved {
        after: cost,
        ..improved
    };
    let report = wished_report(alloc, asked, base_levels, &counted)?;
    Ok(ImprovedText { text, report })
}
