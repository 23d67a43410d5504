//! Windows. The type's invariant says that the lists ascend and are short, so that one word holds the truth
//! table of an output.

ghost use Rattle.std.specs.Prelude.{◌≡◌};
ghost use Rattle.window_core.specs.Shape.{IsShaped};

use std::marker::Model;

/// The most gates of a window: the greatest cap that the settings allow.
pub const MOST_GATES_OF_WINDOW: usize = settings::MOST_GATES_OF_WINDOW as usize;

/// The most inputs of a window: as many as a specification can have.
pub const MOST_INPUTS: usize = tt_core::MOST_INPUTS as usize;

/// The most outputs of a window: as many as a specification can have.
pub const MOST_OUTPUTS: usize = tt_core::MOST_OUTPUTS;

/// A window: the root that it grew from, its partner, and the nodes of its 1 to 8 gates, of at most 6 inputs
/// and of at most 8 outputs, each list ascending.
#[derive(Drop)]
pub struct Window {
    root: u32,
    partner: Option<u32>,
    gates: Vec<u32>,
    inputs: Vec<u32>,
    outputs: Vec<u32>,
}

impl Model for Window {
    ghost use Rattle.window_theory.specs.Window as window;
    ghost use Rattle.window_core.specs.Shape.{IsShaped};

    ghost Value = { window.Window };

    ghost view = { λ w. record {
      root = w.root;
      partner = w.partner;
      gates = w.gates.items;
      inputs = w.inputs.items;
      outputs = w.outputs.items;
    } };

    ghost invariant = { λ w. IsShaped (record {
      root = w.root;
      partner = w.partner;
      gates = w.gates.items;
      inputs = w.inputs.items;
      outputs = w.outputs.items;
    }) };
}

impl Window {
    /// The window of this root, partner, gates, inputs and outputs.
    pub fn new(
        root: u32,
        partner: Option<u32>,
        gates: Vec<u32>,
        inputs: Vec<u32>,
        outputs: Vec<u32>,
    ) -> Window
        requires { IsShaped (record {
          root = root;
          partner = partner;
          gates = gates.items;
          inputs = inputs.items;
          outputs = outputs.items;
        }) }
        ensures { result ≡ record {
          root = root;
          partner = partner;
          gates = gates.items;
          inputs = inputs.items;
          outputs = outputs.items;
        } }
    {
        Window {
            root,
            partner,
            gates,
            inputs,
            outputs,
        }
    }

    /// The gate that the window grew from.
    pub fn root(&self) -> u32
        ensures { result ≡ self.now.root }
    {
        self.root
    }

    /// The root's partner, if the window has one.
    pub fn partner(&self) -> Option<u32>
        ensures { result ≡ self.now.partner }
    {
        self.partner
    }

    /// The gates, ascending.
    pub fn gates(&self) -> &[u32]
        ensures value { result.now ≡ self.now.gates }
        ensures whole { IsShaped self.now }
    {
        &self.gates
    }

    /// The inputs, ascending.
    pub fn inputs(&self) -> &[u32]
        ensures value { result.now ≡ self.now.inputs }
        ensures whole { IsShaped self.now }
    {
        &self.inputs
    }

    /// The outputs, ascending.
    pub fn outputs(&self) -> &[u32]
        ensures value { result.now ≡ self.now.outputs }
        ensures whole { IsShaped self.now }
    {
        &self.outputs
    }
}
