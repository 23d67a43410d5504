//! How the tests improve a netlist: the settings, and the expected result.
ghost use Rattle.settings.specs.Improve.{IsInRange};
ghost use Rattle.bench_core.specs.Bench.{bench_format};
ghost use Rattle.improve_windows.specs.Improving.{FitsFormat};

use cdcl_core::Cdcl;
use improve_windows::{ImproveSettings, ImprovedText, NetError, improve_bench, improve_blif};
use op_basis::Basis;
use progress::Silent;
use std::alloc::Global;

/// The default settings with this cap, these rounds and this conflict limit, with ODCs where `observe`.
fn settings(cap: u32, rounds: u32, conflicts: u32, observe: bool) -> ImproveSettings
    ensures { IsInRange result }
{
    let defaults = ImproveSettings::defaults();
    ImproveSettings {
        basis: defaults.basis,
        method: defaults.method,
        cap: cap.min(8),
        rounds: rounds.clamp(1, 1000),
        conflicts: conflicts.clamp(1, 100_000),
        observe,
        effort: defaults.effort,
        seed: defaults.seed,
    }
}

/// The default settings with all operators of gates in BENCH.
fn gates_alone() -> ImproveSettings
    ensures range { IsInRange result }
    ensures fits { FitsFormat bench_format result }
{
    let defaults = ImproveSettings::defaults();
    ImproveSettings {
        basis: Basis::new(17_346),
        method: defaults.method,
        cap: defaults.cap,
        rounds: defaults.rounds,
        conflicts: defaults.conflicts,
        observe: defaults.observe,
        effort: defaults.effort,
        seed: defaults.seed,
    }
}

/// How a netlist is improved.
#[derive(Clone, Copy)]
pub enum Asked {
    /// As BLIF: the cap, the rounds, the conflict limit, and whether ODCs are used.
    Blif(u32, u32, u32, bool),
    /// As BENCH, with the default settings.
    Bench,
}

/// The improved netlist, or the error.
fn answered(alloc: Global, bytes: &[u8], asked: Asked) -> Option<Result<ImprovedText, NetError>> {
    if bytes.len() > 100_000 {
        return None;
    }
    match asked {
        Asked::Blif(cap, rounds, conflicts, observe) => {
            let settings = settings(cap, rounds, conflicts, observe);
            Some(improve_blif::<Cdcl, Silent>(alloc, bytes, settings, &Silent))
        }
        Asked::Bench => Some(improve_bench::<Cdcl, Silent>(alloc, bytes, gates_alone(), &Silent)),
    }
}

/// The improved netlist, unless there is an error.
pub fn improved(alloc: Global, bytes: &[u8], asked: Asked) -> Option<ImprovedText> {
    match answered(alloc, bytes, asked) {
        Some(Ok(improved)) => Some(improved),
        Some(Err(_)) => None,
        None => None,
    }
}

/// The error, if there is one.
pub fn refused(alloc: Global, bytes: &[u8], asked: Asked) -> Option<NetError> {
    match answered(alloc, bytes, asked) {
        Some(Ok(_)) => None,
        Some(Err(error)) => Some(error),
        None => None,
    }
}

/// Whether the text followed by its report is `wanted`.
fn are_together(text: &[u8], report: &[u8], wanted: &[u8]) -> bool {
    let long = text.len().checked_add(report.len()) == Some(wanted.len());
    long && wanted.starts_with(text) && wanted.ends_with(report)
}

/// Whether the improved netlist followed by its report is as expected.
pub fn is_improved(alloc: Global, bytes: &[u8], asked: Asked, wanted: &[u8]) -> bool {
    match improved(alloc, bytes, asked) {
        Some(improved) => are_together(&improved.text, &improved.report, wanted),
        None => false,
    }
}
