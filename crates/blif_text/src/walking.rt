//! The parser's loop over the logical lines of a text.

ghost use Rattle.std.specs.Prelude.{◌≡◌, ◌+◌, ◌*◌, ◌≤◌, ◌<◌, ◌^◌, length, map, None, OnOk, IfOk, IfErr};
ghost use Rattle.net_theory.specs.Document.{table_output};
ghost use Rattle.net_theory.specs.Naming.{each_once};
ghost use Rattle.blif_text.specs.Reading.{Gives};
ghost use Rattle.net_document.specs.Refusals.{IsReportOf};
ghost use Rattle.net_document.specs.Listed.{IsWellListed, AreControlsFree};
ghost use Rattle.net_theory.specs.Cost.{cost};
ghost use Rattle.net_theory.specs.NetOf.{source_count};
ghost use Rattle.blif_text.specs.Logical.{logical_of};
ghost use Rattle.blif_text.specs.Statements.{steps, said_of, control_fault as control_fault_of};
ghost use Rattle.blif_text.specs.Statements.{listed_by as listed_by_said, listed_of};

use crate::logical::next_logical;
use crate::reading::{Control, Reading};
use crate::statements::take_line;
use indexmap::IndexSet;
use net_document::{Document, Listed, Name, NetError, Table};
use std::alloc::{AllocError, Global};

/// Handles the logical lines of a text, one after the other.
#[tactic(auto, unfolding(crate::specs::Statements::steps))]
fn take_lines(alloc: Global, reading: &mut Reading, bytes: &[u8]) -> Result<(), NetError>
    requires { length bytes.now < 2 ^ 31 }
    ensures { Gives (λ _. reading.new) result (steps reading.old (logical_of 1 bytes.now)) }
{
    let mut number = 1;
    let mut left = bytes;
    while let Some((line, next, rest)) = next_logical(alloc, number, left)? {
        take_line(alloc, reading, &line)?;
        number = next;
        left = rest;
    }
    reading.close()?;
    Ok(())
}

/// The parser state at the end of a text.
#[tactic(auto, unfolding(crate::specs::Statements::said_of))]
pub fn parse_all(alloc: Global, bytes: &[u8]) -> Result<Reading, NetError>
    requires { length bytes.now < 2 ^ 31 }
    ensures { Gives (λ r. r) result (said_of bytes.now) }
{
    let mut reading = Reading::new(alloc)?;
    take_lines(alloc, &mut reading, bytes)?;
    Ok(reading)
}

/// Adds the outputs of `tables`.
#[tactic(auto, unfolding(net_theory::specs::Naming::each_once, net_theory::specs::Document::has))]
fn add_driven(driven: &mut IndexSet<Name>, tables: &[Table]) -> Result<(), AllocError>
    ensures { OnOk result (driven.new.keys ≡ each_once driven.old.keys (map table_output tables.now)) }
{
    let mut left = tables;
    while let Some((table, rest)) = left.split_first() {
        driven.insert(table.output.copied()?)?;
        left = rest;
    }
    Ok(())
}

/// Refuses the first control whose name is in `driven`.
#[tactic(auto, unfolding(crate::specs::Statements::control_fault, net_theory::specs::Document::has))]
fn refuse_driven(driven: &IndexSet<Name>, controls: &[Control]) -> Result<(), NetError>
    ensures good { IfOk result (λ _. control_fault_of driven.now.keys controls.now ≡ None) }
    ensures refused { IfErr result (λ e. IsReportOf e (control_fault_of driven.now.keys controls.now)) }
{
    let mut left = controls;
    while let Some((control, rest)) = left.split_first() {
        if driven.contains(&control.name) {
            return Err(NetError::NotSupported(control.line, control.name.copied()?));
        }
        left = rest;
    }
    Ok(())
}

/// Refuses the first control that a table drives.
#[tactic(auto, using(crate::proofs::Controls::controls))]
fn check_controls(alloc: Global, reading: &Reading) -> Result<(), NetError>
    ensures good { IfOk result (λ _. control_fault_of (map table_output reading.now.tables) reading.now.controls ≡
        None) }
    ensures refused { IfErr result (λ e. IsReportOf e
        (control_fault_of (map table_output reading.now.tables) reading.now.controls)) }
{
    let mut driven = IndexSet::new(alloc);
    add_driven(&mut driven, &reading.tables)?;
    refuse_driven(&driven, &reading.controls)
}

/// The document of a final parser state.
fn listed_by(reading: Reading) -> Listed
    ensures { result ≡ listed_by_said reading }
{
    let Reading {
        model,
        inputs,
        outputs,
        clocks,
        latches,
        tables,
        current: _,
        driven,
        used,
        controls: _,
        has_model: _,
        is_begun: _,
        is_ended: _,
    } = reading;
    Listed {
        document: Document {
            model,
            inputs,
            outputs,
            clocks,
            latches,
            tables,
        },
        driven,
        used,
    }
}

/// Parses a BLIF text: its document, with the names that it drives and reads in the order of the text.
///
/// Lines are checked in order, and the first fault is reported with its line. Of well-formedness only one
/// condition is checked here: no table may drive a latch's control.
#[tactic(auto, unfolding(crate::specs::Statements::listed_of))]
pub fn read_listed(alloc: Global, bytes: &[u8]) -> Result<Listed, NetError>
    requires { length bytes.now < 2 ^ 31 }
    ensures exact { Gives (λ l. l) result (listed_of bytes.now) }
    ensures listed { IfOk result IsWellListed }
    ensures free { IfOk result (λ l. AreControlsFree l.document) }
    ensures few { IfOk result (λ l. length l.document.tables ≤ length bytes.now) }
    ensures small { IfOk result (λ l. 2 * source_count l.document + cost l.document ≤ length bytes.now) }
{
    let reading = parse_all(alloc, bytes)?;
    check_controls(alloc, &reading)?;
    Ok(listed_by(reading))
}
