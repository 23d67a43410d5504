//! The state of the parser, which each statement updates.

ghost use Rattle.std.specs.Prelude.{◌≡◌, OnOk, IfOk};
ghost use Rattle.blif_text.specs.Statements.{nothing, closed as closed_of};

use net_document::{Body, Cover, LatchLine, Name, Table};
use std::alloc::{AllocError, Global};
use std::marker::Model;

/// The control of a latch, with the line of the latch.
#[derive(Drop)]
pub struct Control {
    pub line: u32,
    pub name: Name,
}

impl Model for Control {
    ghost use Rattle.blif_text.specs.Statements as statements;

    ghost Value = { statements.Control };

    ghost view = { λ c. record { line = c.line; name = c.name } };
}

/// A table whose cover lines may still follow.
#[derive(Drop)]
pub struct CoverTable {
    pub inputs: Vec<Name>,
    pub output: Name,
    pub cover: Cover,
}

impl Model for CoverTable {
    ghost use Rattle.net_theory.specs.Document as document;

    ghost Value = { document.Table };

    ghost view = { λ t. record { inputs = t.inputs.items; output = t.output; cover = t.cover } };
}

impl CoverTable {
    /// The complete table.
    fn closed(self) -> Table
        ensures { result ≡ self }
    {
        let CoverTable {
            inputs,
            output,
            cover,
        } = self;
        Table {
            inputs,
            output,
            body: Body::Cubes(cover),
        }
    }
}

/// The state of the parser: what the lines so far list. The current table is kept apart while its cover lines may
/// follow.
#[derive(Drop)]
pub struct Reading {
    pub model: Name,
    pub inputs: Vec<Name>,
    pub outputs: Vec<Name>,
    pub clocks: Vec<Name>,
    pub latches: Vec<LatchLine>,
    pub tables: Vec<Table>,
    pub current: Option<CoverTable>,
    pub driven: Vec<Name>,
    pub used: Vec<Name>,
    pub controls: Vec<Control>,
    pub has_model: bool,
    pub is_begun: bool,
    pub is_ended: bool,
}

impl Model for Reading {
    ghost use Rattle.blif_text.specs.Statements as statements;

    ghost Value = { statements.Said };

    ghost view = { λ r. record {
      model = r.model;
      inputs = r.inputs.items;
      outputs = r.outputs.items;
      clocks = r.clocks.items;
      latches = r.latches.items;
      tables = r.tables.items;
      current = r.current;
      driven = r.driven.items;
      used = r.used.items;
      controls = r.controls.items;
      has_model = r.has_model;
      is_begun = r.is_begun;
      is_ended = r.is_ended;
    } };
}

impl Reading {
    /// The state before the first line.
    pub fn new(alloc: Global) -> Result<Reading, AllocError>
        ensures { IfOk result (λ r. r ≡ nothing) }
    {
        Ok(Reading {
            model: Name::of(alloc, b"top")?,
            inputs: Vec::new(alloc),
            outputs: Vec::new(alloc),
            clocks: Vec::new(alloc),
            latches: Vec::new(alloc),
            tables: Vec::new(alloc),
            current: None,
            driven: Vec::new(alloc),
            used: Vec::new(alloc),
            controls: Vec::new(alloc),
            has_model: false,
            is_begun: false,
            is_ended: false,
        })
    }

    /// Completes the current table, since a statement begins.
    pub fn close(&mut self) -> Result<(), AllocError>
        ensures { OnOk result (self.new ≡ closed_of self.old) }
    {
        if let Some(table) = self.current.take() {
            self.tables.push(table.closed())?;
        }
        self.is_begun = true;
        Ok(())
    }
}
