//! Circuits: nets whose sources and sinks have names.

use crate::name::Name;
use crate::net::Net;
use net_theory::Trigger;
use std::marker::Model;

/// A latch: its output, its trigger and control, and its initial value: 0, 1, 2 for don't-care, 3
/// for unknown. Its input is a sink of the circuit's net.
#[derive(Drop)]
pub struct Latch {
    pub output: Name,
    pub control: Option<(Trigger, Name)>,
    pub init: Option<u8>,
}

impl Model for Latch {
    ghost use Rattle.net_theory.specs.Document as document;

    ghost Value = { document.Latch };

    ghost view = { λ l. record { output = l.output; control = l.control; init = l.init } };
}

/// A net with names. The net's sources are the inputs, then the latches' outputs; its sinks are the outputs,
/// then the latches' inputs, each in order.
#[derive(Drop)]
pub struct Circuit {
    pub model: Name,
    pub inputs: Vec<Name>,
    pub outputs: Vec<Name>,
    pub clocks: Vec<Name>,
    pub latches: Vec<Latch>,
    pub net: Net,
}

impl Model for Circuit {
    ghost use Rattle.net_theory.specs.Circuit as circuit;

    ghost Value = { circuit.Circuit };

    ghost view = { λ c. record {
      model = c.model;
      inputs = c.inputs.items;
      outputs = c.outputs.items;
      clocks = c.clocks.items;
      latches = c.latches.items;
      net = c.net;
    } };
}
