//! The parsed netlist: tables, latches and documents as data. Their views are the records of `net_theory`. The
//! only invariant is that of the bodies of tables.
use net_core::{Body, Latch, Name};
use std::marker::Model;

/// A table: its output has the body's value at the inputs. A body that joins its inputs has at least one input.
#[derive(Drop)]
pub struct Table {
    pub inputs: Vec<Name>,
    pub output: Name,
    pub body: Body,
}

impl Model for Table {
    ghost use Rattle.net_theory.specs.Document as document;
    ghost use Rattle.net_core.specs.Wholes.{cover_of, JoinsSome};

    ghost Value = { document.Table };

    ghost view = { λ t. record { inputs = t.inputs.items; output = t.output; cover = cover_of t.body } };

    ghost invariant = { λ t. JoinsSome t.body };
}

/// A latch with the name of its input.
#[derive(Drop)]
pub struct LatchLine {
    pub input: Name,
    pub latch: Latch,
}

impl Model for LatchLine {
    ghost use Rattle.net_theory.specs.Document as document;

    ghost Value = { document.LatchLine };

    ghost view = { λ l. record { input = l.input; latch = l.latch } };
}

/// A parsed netlist, each list in the order of the text.
#[derive(Drop)]
pub struct Document {
    pub model: Name,
    pub inputs: Vec<Name>,
    pub outputs: Vec<Name>,
    pub clocks: Vec<Name>,
    pub latches: Vec<LatchLine>,
    pub tables: Vec<Table>,
}

impl Model for Document {
    ghost use Rattle.net_theory.specs.Document as document;

    ghost Value = { document.Document };

    ghost view = { λ d. record {
      model = d.model;
      inputs = d.inputs.items;
      outputs = d.outputs.items;
      clocks = d.clocks.items;
      latches = d.latches.items;
      tables = d.tables.items;
    } };
}

/// A document, with the names that it drives and the names that its tables and latches read, both in the order of
/// the text.
#[derive(Drop)]
pub struct Listed {
    pub document: Document,
    pub driven: Vec<Name>,
    pub used: Vec<Name>,
}

impl Model for Listed {
    ghost use Rattle.net_document.specs.Listed as listed;

    ghost Value = { listed.Listed };

    ghost view = { λ l. record { document = l.document; driven = l.driven.items; used = l.used.items } };
}
