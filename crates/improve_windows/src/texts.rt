//! Improvement of texts, in each format; the improvement of the circuit and the report are shared.
ghost use Rattle.std.specs.Prelude.{◌≡◌, ◌<◌, ◌^◌, length, All, IfOk, IfErr};
ghost use Rattle.net_theory.specs.Circuit.{IsProper};
ghost use Rattle.net_theory.specs.Naming.{gate_names as gate_names_of};
ghost use Rattle.net_core.specs.declared.error.NetError.TheVariants.{Memory};
ghost use Rattle.net_document.specs.Format.{IsNetlist, IsRefusedText};
ghost use Rattle.blif_core.specs.Written.{written};
ghost use Rattle.blif_core.specs.Spelling.{spelled, HasInit};
ghost use Rattle.blif_core.specs.Blif.{blif_format};
ghost use Rattle.bench_core.specs.Spelling.{circuit_text as gates_text};
ghost use Rattle.bench_core.specs.Bench.{bench_format};
ghost use Rattle.bench_core.specs.Writable.{IsBenchCircuit};
ghost use Rattle.settings.specs.Improve.{IsInRange};
ghost use Rattle.improve_windows.specs.Report.{report_text};
ghost use Rattle.improve_windows.specs.ReportLaws.{CanBeWritten};
ghost use Rattle.improve_windows.specs.Improving.{FitsFormat, IsReported};

use crate::circuits::{Improved, Written, improve_written};
use crate::reporting::report_of;
use bench_core::{read_bench, write_gates};
use bench_laws::{bench_is_a_format, circuits_cost_the_same};
use blif_core::{Circuit, NetError, read_blif, write_document};
use blif_laws::blif_is_a_format;
use net_core::gate_names;
use net_document::Document;
use progress::Tell;
use sat_solve::Solver;
use settings::ImproveSettings;
use std::alloc::{AllocError, Global};

/// The text of the improved netlist, and the report.
#[derive(Drop)]
pub struct ImprovedText {
    pub text: Vec<u8>,
    pub report: Vec<u8>,
}

/// The report of an improved circuit.
pub fn all_reported(alloc: Global, improved: &Improved) -> Result<Vec<u8>, AllocError>
    requires proper { IsProper improved.now.circuit }
    requires undecided { All CanBeWritten improved.now.undecided.items }
    ensures { IfOk result (λ report. report.items ≡
        report_text (gate_names_of improved.now.circuit) improved.now.circuit.net.sources improved.now.before
        improved.now.after improved.now.settled improved.now.undecided.items) }
{
    let names = gate_names(alloc, &improved.circuit)?;
    let report = report_of(
        alloc,
        &names,
        improved.circuit.net.sources(),
        improved.before,
        improved.after,
        improved.settled,
        &improved.undecided,
    )?;
    Ok(report)
}

/// The BLIF text of a document.
fn blif_text_of(alloc: Global, document: &Document) -> Result<Vec<u8>, AllocError>
    requires { All HasInit document.now.latches }
    ensures { IfOk result (λ text. text.items ≡ spelled document.now) }
{
    let mut text = Vec::new(alloc);
    write_document(&mut text, document)?;
    Ok(text)
}

/// The BENCH text of a circuit that BENCH can express, by the document that BLIF would write for it.
fn bench_text_of(
    alloc: Global,
    circuit: &Circuit,
    document: &Document,
) -> Result<Vec<u8>, AllocError>
    requires fits { IsBenchCircuit circuit.now }
    requires document { document.now ≡ written circuit.now }
    ensures { IfOk result (λ text. text.items ≡ gates_text circuit.now) }
{
    let mut text = Vec::new(alloc);
    write_gates(&mut text, circuit, document)?;
    Ok(text)
}

/// Improves a BLIF netlist by the settings. Returns the text of the improved netlist, and a report of its
/// cost before and after, of the windows that stayed undecided with their certificates, and of whether all
/// others are settled. `tell` hears of the rounds, and of the gates that are left after each stage.
///
/// Lines are judged in order, and the first fault is reported; then a control that a table drives, more than
/// 100,000 gates, a name that is driven twice, one that is used and not driven, and a combinational
/// loop. A well-formed netlist is refused only where memory runs out.
#[tactic(auto, using(crate::specs::ImprovingLaws::improving))]
pub fn improve_blif<S: Solver, T: Tell>(
    alloc: Global,
    bytes: &[u8],
    settings: ImproveSettings,
    tell: &T,
) -> Result<ImprovedText, NetError>
    requires size { length bytes.now < 2 ^ 31 }
    requires range { IsInRange settings }
    ensures improved { IfOk result (λ i. IsReported blif_format settings bytes.now i.text.items i.report.items) }
    ensures refused { IfErr result (IsRefusedText blif_format bytes.now) }
    ensures complete { IfErr result (λ e. IsNetlist blif_format bytes.now → e ≡ Memory) }
{
    // for the prover: the laws of BLIF
    blif_is_a_format();
    let circuit = read_blif(alloc, bytes)?;
    let Written { improved, document } = improve_written::<S, T>(alloc, circuit, settings, tell)?;
    let text = blif_text_of(alloc, &document)?;
    let report = all_reported(alloc, &improved)?;
    Ok(ImprovedText { text, report })
}

/// Improves a BENCH netlist as `improve_blif` does a BLIF netlist. Each operator of the basis must be one
/// that gates may have in BENCH.
///
/// Lines are judged in order, and the first fault is reported; then more than 100,000 gates, a name that is
/// driven twice, one that is used and not driven, and a combinational loop. A well-formed netlist is refused
/// only where memory runs out.
#[tactic(auto, using(crate::specs::ImprovingLaws::improving))]
pub fn improve_bench<S: Solver, T: Tell>(
    alloc: Global,
    bytes: &[u8],
    settings: ImproveSettings,
    tell: &T,
) -> Result<ImprovedText, NetError>
    requires size { length bytes.now < 2 ^ 31 }
    requires range { IsInRange settings }
    requires basis { FitsFormat bench_format settings }
    ensures improved { IfOk result (λ i. IsReported bench_format settings bytes.now i.text.items i.report.items) }
    ensures refused { IfErr result (IsRefusedText bench_format bytes.now) }
    ensures complete { IfErr result (λ e. IsNetlist bench_format bytes.now → e ≡ Memory) }
{
    // for the prover: the laws of BENCH
    bench_is_a_format();
    circuits_cost_the_same();
    let circuit = read_bench(alloc, bytes)?;
    let Written { improved, document } = improve_written::<S, T>(alloc, circuit, settings, tell)?;
    let text = bench_text_of(alloc, &improved.circuit, &document)?;
    let report = all_reported(alloc, &improved)?;
    Ok(ImprovedText { text, report })
}
