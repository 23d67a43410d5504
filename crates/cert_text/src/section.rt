//! The sections of a certificate.
ghost use Rattle.std.specs.Prelude.{◌≡◌, ◌++◌, OnOk, OnErr};
ghost use Rattle.std.specs.List.{flat_map};
ghost use Rattle.text_core.specs.Lines.{line_bytes};
ghost use Rattle.chain_core.specs.Spelling.{line};
ghost use Rattle.cert_theory.specs.Spelling as spelling;
ghost use Rattle.cert_text.specs.Texts.{subproblems_text};

use crate::tables::push_numbered;
use cert_theory::{LogEnd, Section, SubproblemLog, fence_name};
use enc_theory::Subproblem;
use log_core::write_log;
use std::alloc::AllocError;

/// The initial capacity of a section's text in bytes; enough for sizes 0 and 1.
const SHORT: usize = 1000;

/// Appends the name of a subproblem: the sizes of a fence's levels, and nothing for a whole size.
#[tactic(auto, unfolding(cert_theory::specs::Spelling::name_lines))]
fn push_name(text: &mut Vec<u8>, subproblem: &Subproblem) -> Result<(), AllocError>
    ensures { OnOk result (text.new.items ≡ text.old.items ++ spelling.text_of (spelling.name_lines subproblem.now)) }
{
    let Subproblem::Levels(fence) = subproblem else {
        return Ok(());
    };
    let name = fence_name(*text.allocator(), fence.levels())?;
    text.extend_from_slice(&name)?;
    text.extend_from_slice(b"\n")
}

/// Appends the first line of a log: `refuted` or `open`.
fn push_ended(text: &mut Vec<u8>, ended: LogEnd) -> Result<(), AllocError>
    ensures { OnOk result (text.new.items ≡ text.old.items ++ line_bytes (line (spelling.ended_text ended))) }
{
    match ended {
        LogEnd::Refuted => text.extend_from_slice(b"refuted\n"),
        LogEnd::Open => text.extend_from_slice(b"open\n"),
    }
}

/// Appends the lines of a subproblem.
#[tactic(auto, using(crate::proofs::Written::subproblem_pieces))]
fn push_subproblem(text: &mut Vec<u8>, subproblem: &SubproblemLog) -> Result<(), AllocError>
    ensures { OnOk result (text.new.items ≡ text.old.items ++
        spelling.text_of (spelling.subproblem_lines subproblem.now)) }
{
    push_name(text, &subproblem.subproblem)?;
    push_ended(text, subproblem.ended)?;
    write_log(&subproblem.log, text)?;
    text.extend_from_slice(b"done\n")
}

/// Appends the lines of subproblems.
#[tactic(auto, using(crate::proofs::Written::subproblems))]
fn push_subproblems(text: &mut Vec<u8>, subproblems: &[SubproblemLog]) -> Result<(), AllocError>
    ensures { OnOk result (text.new.items ≡ text.old.items ++ subproblems_text subproblems.now) }
{
    let mut left = subproblems;
    while let Some((subproblem, rest)) = left.split_first() {
        push_subproblem(text, subproblem)?;
        left = rest;
    }
    Ok(())
}

/// Appends the lines of subproblems, as in a section. On an error `out` is unchanged.
#[tactic(auto, unfolding(crate::specs::Texts::subproblems_text))]
pub fn write_subproblems(subproblems: &[SubproblemLog], out: &mut Vec<u8>) -> Result<(), AllocError>
    ensures ok { OnOk result (out.new.items ≡ out.old.items ++
        spelling.text_of (flat_map spelling.subproblem_lines subproblems.now)) }
    ensures err { OnErr result (out.new.items ≡ out.old.items) }
{
    let mut text = Vec::new(*out.allocator());
    push_subproblems(&mut text, subproblems)?;
    out.extend_from_slice(&text)
}

/// Appends the lines of a section.
#[tactic(auto, using(crate::proofs::Written::section_pieces), unfolding(cert_theory::specs::Spelling::size_line))]
pub fn push_section(text: &mut Vec<u8>, section: &Section) -> Result<(), AllocError>
    ensures { OnOk result (text.new.items ≡ text.old.items ++ spelling.text_of (spelling.section_lines section.now)) }
{
    push_numbered(text, b"size ", section.size)?;
    push_subproblems(text, &section.subproblems)
}

/// Appends the lines of a section. On an error `out` is unchanged.
pub fn write_section(section: &Section, out: &mut Vec<u8>) -> Result<(), AllocError>
    ensures ok { OnOk result (out.new.items ≡ out.old.items ++
        spelling.text_of (spelling.section_lines section.now)) }
    ensures err { OnErr result (out.new.items ≡ out.old.items) }
{
    let mut text = Vec::with_capacity(*out.allocator(), SHORT)?;
    push_section(&mut text, section)?;
    out.extend_from_slice(&text)
}
