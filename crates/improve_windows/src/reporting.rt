//! The report: the cost of a netlist before and after, the windows that stayed undecided with their
//! certificates, and whether all others were decided.
ghost use Rattle.std.specs.Prelude.{◌≡◌, ◌++◌, IfOk, OnOk, All};
ghost use Rattle.std.specs.List.{flat_map};
ghost use Rattle.improve_windows.specs.Report.{name_at, partner_text, window_text, first_line, last_line};
ghost use Rattle.improve_windows.specs.Report.{report_text};
ghost use Rattle.improve_windows.specs.ReportLaws.{CanBeWritten};

use cert_text::write_certificate;
use improve_theory::Undecided;
use net_core::Name;
use std::alloc::{AllocError, Global};
use text_core::push_number;

/// Appends the name of a gate.
#[tactic(auto, unfolding(crate::specs::Report::name_at))]
fn push_name(
    report: &mut Vec<u8>,
    names: &[Name],
    sources: u32,
    node: u32,
) -> Result<(), AllocError>
    ensures { OnOk result (report.new.items ≡ report.old.items ++ name_at names.now sources node) }
{
    let index = (node as usize).saturating_sub(sources as usize + 1);
    match names.get(index) {
        None => Ok(()),
        Some(name) => {
            report.extend_from_slice(name.get())?;
            Ok(())
        }
    }
}

/// Appends a blank and the partner's name, if there is a partner.
#[tactic(auto, unfolding(crate::specs::Report::partner_text))]
fn push_partner(
    report: &mut Vec<u8>,
    names: &[Name],
    sources: u32,
    partner: Option<u32>,
) -> Result<(), AllocError>
    ensures { OnOk result (report.new.items ≡ report.old.items ++ partner_text names.now sources partner) }
{
    match partner {
        None => Ok(()),
        Some(partner) => {
            report.push(b' ')?;
            push_name(report, names, sources, partner)?;
            Ok(())
        }
    }
}

/// Appends the line of a window and its certificate.
#[tactic(auto, unfolding(crate::specs::Report::window_text))]
fn push_window(
    report: &mut Vec<u8>,
    names: &[Name],
    sources: u32,
    undecided: &Undecided,
) -> Result<(), AllocError>
    requires { CanBeWritten undecided.now }
    ensures { OnOk result (report.new.items ≡ report.old.items ++ window_text names.now sources undecided.now) }
{
    report.extend_from_slice(b"undecided ")?;
    push_name(report, names, sources, undecided.candidate.root)?;
    push_partner(report, names, sources, undecided.candidate.partner)?;
    report.extend_from_slice(b" ")?;
    push_number(report, undecided.candidate.count)?;
    report.extend_from_slice(b"\n")?;
    write_certificate(&undecided.search, report)?;
    Ok(())
}

/// Appends the lines of all windows and their certificates.
#[tactic(auto, using(crate::specs::ReportLaws::writing))]
fn push_windows(
    report: &mut Vec<u8>,
    names: &[Name],
    sources: u32,
    undecided: &[Undecided],
) -> Result<(), AllocError>
    requires { All CanBeWritten undecided.now }
    ensures { OnOk result (report.new.items ≡ report.old.items ++
        flat_map (window_text names.now sources) undecided.now) }
{
    let mut left = undecided;
    while let Some((window, rest)) = left.split_first() {
        push_window(report, names, sources, window)?;
        left = rest;
    }
    Ok(())
}

/// Appends the first line.
#[tactic(auto, unfolding(crate::specs::Report::first_line))]
fn push_first(report: &mut Vec<u8>, before: u32, after: u32) -> Result<(), AllocError>
    ensures { OnOk result (report.new.items ≡ report.old.items ++ first_line before after) }
{
    report.extend_from_slice(b"gates ")?;
    push_number(report, before)?;
    report.extend_from_slice(b" -> ")?;
    push_number(report, after)?;
    report.extend_from_slice(b"\n")?;
    Ok(())
}

/// Appends the last line.
#[tactic(auto, unfolding(crate::specs::Report::last_line))]
fn push_last(report: &mut Vec<u8>, settled: bool) -> Result<(), AllocError>
    ensures { OnOk result (report.new.items ≡ report.old.items ++ last_line settled) }
{
    if settled {
        report.extend_from_slice(b"settled\n")?;
        return Ok(());
    }
    report.extend_from_slice(b"stopped\n")?;
    Ok(())
}

/// The report of an improvement.
pub fn report_of(
    alloc: Global,
    names: &[Name],
    sources: u32,
    before: u32,
    after: u32,
    settled: bool,
    undecided: &[Undecided],
) -> Result<Vec<u8>, AllocError>
    requires { All CanBeWritten undecided.now }
    ensures { IfOk result (λ report. report.items ≡ report_text names.now sources before after settled undecided.now) }
{
    let mut report = Vec::new(alloc);
    push_first(&mut report, before, after)?;
    push_windows(&mut report, names, sources, undecided)?;
    push_last(&mut report, settled)?;
    Ok(report)
}
