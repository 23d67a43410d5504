//! The names of variables, and which literals need names of their own.

ghost use Rattle.std.specs.Prelude.{◌≡◌, ◌<◌, ◌≤◌, ◌^◌, length, IfOk};
ghost use Rattle.aiger_text.specs.Limits.{most_variables};
ghost use Rattle.aiger_text.specs.Meaning as spec;

use crate::file::AigFile;
use crate::marks::{bit_at, marks_of, turns_of};
use crate::names::{name_at, numbered, variable_names};
use net_core::Name;
use std::alloc::{AllocError, Global};
use std::marker::Model;

/// The names of variables; by literal, whether it is an output or a next state; and by variable, whether it is a gate
/// that is listed as its complement.
#[derive(Drop)]
pub struct Signals {
    pub names: Vec<Name>,
    pub marks: Vec<bool>,
    pub turns: Vec<bool>,
}

impl Model for Signals {
    ghost use Rattle.aiger_text.specs.Meaning as spec;

    ghost Value = { spec.Signals };

    ghost view = { λ s. record { names = s.names.items; marks = s.marks.items; turns = s.turns.items } };
}

/// The signals of a file.
pub fn signals_of(alloc: Global, file: &AigFile) -> Result<Signals, AllocError>
    requires variables { file.now.variables ≤ most_variables }
    requires inputs { length file.now.inputs < 2 ^ 31 }
    requires latches { length file.now.latches < 2 ^ 31 }
    ensures { IfOk result (λ s. s ≡ spec.signals_of file.now) }
{
    let names = variable_names(alloc, file)?;
    let marks = marks_of(alloc, file)?;
    let turns = turns_of(alloc, &marks, file)?;
    Ok(Signals {
        names,
        marks,
        turns,
    })
}

/// Whether a literal is the complement of what is listed for its variable.
#[tactic(auto, unfolding(crate::specs::Meaning::is_complement))]
pub fn is_complement(signals: &Signals, literal: u32) -> bool
    ensures { result ≡ spec.is_complement signals.now literal }
{
    if bit_at(&signals.turns, literal as usize / 2) {
        literal % 2 == 0
    } else {
        literal % 2 == 1
    }
}

/// Whether a variable's complement has a table of its own.
pub fn needs_not(signals: &Signals, variable: u32) -> bool
    requires { variable ≤ most_variables }
    ensures { result ≡ spec.needs_not signals.now variable }
{
    bit_at(&signals.marks, variable as usize * 2 + 1) && !bit_at(&signals.turns, variable as usize)
}

/// The name of a literal that is an output or a next state.
pub fn sink_name(alloc: Global, signals: &Signals, literal: u32) -> Result<Name, AllocError>
    ensures { IfOk result (λ n. n ≡ spec.sink_name signals.now literal) }
{
    if is_complement(signals, literal) {
        numbered(alloc, b"&", literal)
    } else {
        Name::of(alloc, name_at(&signals.names, literal))
    }
}
