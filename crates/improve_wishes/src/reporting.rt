//! The report, with a line of levels.
ghost use Rattle.std.specs.Prelude.{◌≡◌, ◌≤◌, ◌++◌, length, drop, All, IfOk};
ghost use Rattle.net_theory.specs.Circuit.{IsProper};
ghost use Rattle.net_theory.specs.Naming.{gate_names as gate_names_of};
ghost use Rattle.net_levels.specs.Levels.{levels_of};
ghost use Rattle.improve_windows.specs.Report.{first_line as first_line_of};
ghost use Rattle.improve_windows.specs.ReportLaws.{CanBeWritten};
ghost use Rattle.improve_wishes.specs.LevelsReport as spec;

use improve_windows::{Improved, all_reported};
use net_levels::levels;
use std::alloc::{AllocError, Global};
use text_core::push_number;
use wish_names::LevelsAsked;

/// The line of gates.
#[tactic(auto, unfolding(improve_windows::specs::Report::first_line))]
fn first_line(alloc: Global, before: u32, after: u32) -> Result<Vec<u8>, AllocError>
    ensures { IfOk result (λ line. line.items ≡ first_line_of before after) }
{
    let mut line = Vec::new(alloc);
    line.extend_from_slice(b"gates ")?;
    push_number(&mut line, before)?;
    line.extend_from_slice(b" -> ")?;
    push_number(&mut line, after)?;
    line.extend_from_slice(b"\n")?;
    Ok(line)
}

/// The line of levels.
#[tactic(auto, unfolding(crate::specs::LevelsReport::levels_line))]
fn levels_line(alloc: Global, before: u32, after: u32) -> Result<Vec<u8>, AllocError>
    ensures { IfOk result (λ line. line.items ≡ spec.levels_line before after) }
{
    let mut line = Vec::new(alloc);
    line.extend_from_slice(b"levels ")?;
    push_number(&mut line, before)?;
    line.extend_from_slice(b" -> ")?;
    push_number(&mut line, after)?;
    line.extend_from_slice(b"\n")?;
    Ok(line)
}

/// The lines of gates and of levels.
fn short_report(alloc: Global, base_levels: u32, improved: &Improved) -> Result<Vec<u8>, AllocError>
    ensures { IfOk result (λ text. text.items ≡ spec.short_report improved.now.before improved.now.after
        base_levels (levels_of improved.now.circuit.net)) }
{
    let mut text = first_line(alloc, improved.before, improved.after)?;
    let after = levels(alloc, &improved.circuit.net)?;
    let line = levels_line(alloc, base_levels, after)?;
    text.extend_from_slice(&line)?;
    Ok(text)
}

/// A text, and another without as many bytes as a third one has.
fn joined(
    alloc: Global,
    first: &Vec<u8>,
    other: &Vec<u8>,
    skipped: &Vec<u8>,
) -> Result<Vec<u8>, AllocError>
    requires { length skipped.now.items ≤ length other.now.items }
    ensures { IfOk result (λ text. text.items ≡
        first.now.items ++ drop (length skipped.now.items) other.now.items) }
{
    let mut text = Vec::from_slice(alloc, first)?;
    text.extend_from_slice(&other[skipped.len()..])?;
    Ok(text)
}

/// The report of `improve` with the line of levels after the first one.
#[tactic(auto, using(crate::specs::TellingLaws::telling))]
fn told_report(alloc: Global, base_levels: u32, improved: &Improved) -> Result<Vec<u8>, AllocError>
    requires proper { IsProper improved.now.circuit }
    requires undecided { All CanBeWritten improved.now.undecided.items }
    ensures { IfOk result (λ text. text.items ≡ spec.wished_report LevelsAsked.Tell
        (gate_names_of improved.now.circuit) improved.now.circuit.net.sources improved.now.before improved.now.after
        base_levels (levels_of improved.now.circuit.net) improved.now.settled improved.now.undecided.items) }
{
    let first = first_line(alloc, improved.before, improved.after)?;
    let short = short_report(alloc, base_levels, improved)?;
    let whole = all_reported(alloc, improved)?;
    joined(alloc, &short, &whole, &first)
}

/// The report by what is wished of levels.
pub(crate) fn wished_report(
    alloc: Global,
    asked: LevelsAsked,
    base_levels: u32,
    improved: &Improved,
) -> Result<Vec<u8>, AllocError>
    requires proper { IsProper improved.now.circuit }
    requires undecided { All CanBeWritten improved.now.undecided.items }
    ensures { IfOk result (λ text. text.items ≡ spec.wished_report asked
        (gate_names_of improved.now.circuit) improved.now.circuit.net.sources improved.now.before improved.now.after
        base_levels (levels_of improved.now.circuit.net) improved.now.settled improved.now.undecided.items) }
{
    match asked {
        LevelsAsked::Untold => all_reported(alloc, improved),
        LevelsAsked::Tell => told_report(alloc, base_levels, improved),
        LevelsAsked::Keep => short_report(alloc, base_levels, improved),
        LevelsAsked::Most(_) => short_report(alloc, base_levels, improved),
    }
}
