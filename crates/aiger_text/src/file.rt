//! The content of an AIGER file as data. Literals are numbers: that of a variable twice, and one more for its
//! complement; 0 and 1 are the constants.

use net_core::Name;
use std::marker::Model;

/// The numbers of a header: the greatest variable, and how many inputs, latches, outputs and gates there are.
#[derive(Clone, Copy)]
pub struct Counts {
    pub variables: u32,
    pub inputs: u32,
    pub latches: u32,
    pub outputs: u32,
    pub gates: u32,
}

/// The initial value of a latch.
#[derive(Clone, Copy)]
pub enum Reset {
    /// 0
    Zero,
    /// 1
    One,
    /// Either: in a file the latch's own literal.
    Undefined,
}

/// A latch: its literal, the literal of its next state, and its initial value.
#[derive(Clone, Copy)]
pub struct AigLatch {
    pub literal: u32,
    pub next: u32,
    pub reset: Reset,
}

/// An AND gate: its literal, and those of its fanins.
#[derive(Clone, Copy)]
pub struct AigGate {
    pub literal: u32,
    pub first: u32,
    pub second: u32,
}

/// What a symbol names.
#[derive(Clone, Copy)]
pub enum PortKind {
    /// `i`: an input.
    Input,
    /// `l`: a latch.
    Latch,
    /// `o`: an output.
    Output,
}

/// A name from the symbol table, and the position that it names, from 0 on.
#[derive(Drop)]
pub struct Symbol {
    pub kind: PortKind,
    pub position: u32,
    pub name: Name,
}

/// The content of a file, apart from its comment, each list in the order of the file.
#[derive(Drop)]
pub struct AigFile {
    pub variables: u32,
    pub inputs: Vec<u32>,
    pub latches: Vec<AigLatch>,
    pub outputs: Vec<u32>,
    pub gates: Vec<AigGate>,
    pub symbols: Vec<Symbol>,
}

impl Model for AigFile {
    ghost use Rattle.aiger_text.specs.File as file;

    ghost Value = { file.AigFile };

    ghost view = { λ f. record {
      variables = f.variables;
      inputs = f.inputs.items;
      latches = f.latches.items;
      outputs = f.outputs.items;
      gates = f.gates.items;
      symbols = f.symbols.items;
    } };
}
