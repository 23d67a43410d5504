//! Random connected windows: a gate, and then of two random neighbours that which leaves the window fewer inputs, as
//! long as these are few. Gates whose operands are there anyway join it.

use crate::fanouts::{NONE, small};
use crate::graph::Graph;
use crate::marks::Marks;
use rows::{Random, at};
use std::alloc::{AllocError, Global};

/// The most inputs of a window are a random number from this on, and of so many numbers.
const LEAST_INPUTS: u32 = 6;

const INPUT_NUMBERS: u32 = 6;

/// The most gates that a window grows to.
pub const MOST_GATES: usize = 20;

/// A window with fewer gates isn't worth a walk.
pub const LEAST_GATES: usize = 3;

/// It grows until so many draws failed.
const MOST_FAILURES: u32 = 30;

/// So many neighbours are drawn for one gate.
const DRAWS: u32 = 2;

/// The other readers of an operand are drawn only if these are fewer.
const MOST_SIBLINGS: u32 = 200;

/// Of a node with more readers none joins because its operands are there.
const MOST_READERS: u32 = 64;

/// So many times gates are looked for whose operands are there.
const FILLINGS: u32 = 10;

/// A window: its gates, the nodes that these read, the gates that others read, and how many inputs it may have.
#[derive(Drop)]
pub struct Window {
    pub most_inputs: u32,
    pub gates: Vec<u32>,
    pub inputs: Vec<u32>,
    pub outputs: Vec<u32>,
    pub inside: Marks,
    pub seen: Marks,
    readers: Vec<u32>,
}

/// A random operand of a gate, as a node.
fn drawn_operand(graph: &Graph, node: u32, random: &mut Random) -> u32 {
    let gate = graph.gate(node);
    if random.below(2) == 0 {
        gate.first >> 1
    } else {
        gate.second >> 1
    }
}

impl Window {
    /// A window without gates.
    pub fn new(alloc: Global) -> Window {
        Window {
            most_inputs: LEAST_INPUTS,
            gates: Vec::new(alloc),
            inputs: Vec::new(alloc),
            outputs: Vec::new(alloc),
            inside: Marks::new(alloc),
            seen: Marks::new(alloc),
            readers: Vec::new(alloc),
        }
    }

    /// How many inputs there are.
    pub fn input_count(&self) -> u32 {
        small(self.inputs.len())
    }

    /// Empties the window.
    pub fn clear(&mut self, graph: &Graph) -> Result<(), AllocError> {
        self.gates.clear();
        self.inputs.clear();
        self.outputs.clear();
        self.inside.clear(graph.nodes())
    }

    /// Adds a gate.
    pub fn add(&mut self, node: u32) -> Result<(), AllocError> {
        self.inside.add(node);
        self.gates.push(node)?;
        Ok(())
    }

    /// Notes a node that is read, if it isn't inside.
    fn note_input(&mut self, node: u32) -> Result<(), AllocError> {
        if node != 0 && !self.inside.has(node) && !self.seen.has(node) {
            self.seen.add(node);
            self.inputs.push(node)?;
        }
        Ok(())
    }

    /// Lists the inputs; they are marked as seen.
    pub fn list_inputs(&mut self, graph: &Graph) -> Result<(), AllocError> {
        self.seen.clear(graph.nodes())?;
        self.inputs.clear();
        for index in 0..self.gates.len() {
            let gate = graph.gate(at(&self.gates, small(index)));
            self.note_input(gate.first >> 1)?;
            self.note_input(gate.second >> 1)?;
        }
        Ok(())
    }

    /// How many inputs there are with one more gate.
    fn inputs_with(&mut self, graph: &Graph, node: u32) -> Result<u32, AllocError> {
        self.add(node)?;
        self.list_inputs(graph)?;
        self.gates.pop();
        self.inside.remove(node);
        Ok(self.input_count())
    }

    /// A random node beside the window, an operand twice as often as a reader and as another reader of an operand.
    fn neighbour(&self, graph: &Graph, random: &mut Random) -> u32 {
        let count = small(self.gates.len());
        let node = at(&self.gates, random.below(count));
        let direction = random.below(4);
        if direction == 2 {
            return graph.drawn_reader(node, random);
        }
        let operand = drawn_operand(graph, node, random);
        if direction < 2 {
            return operand;
        }
        if graph.reads(operand) < MOST_SIBLINGS {
            graph.drawn_reader(operand, random)
        } else {
            NONE
        }
    }

    /// Adds a random neighbour, of a few that with the fewest inputs. False where these are too many.
    fn grow_by_one(&mut self, graph: &Graph, random: &mut Random) -> Result<bool, AllocError> {
        let mut best = NONE;
        let mut least = self.most_inputs.saturating_add(1);
        for _drawn in 0..DRAWS {
            let node = self.neighbour(graph, random);
            if graph.is_gate(node) && !self.inside.has(node) {
                let inputs = self.inputs_with(graph, node)?;
                if inputs < least {
                    least = inputs;
                    best = node;
                }
            }
        }
        if best == NONE {
            return Ok(false);
        }
        self.add(best)?;
        Ok(true)
    }

    /// Whether a node is inside, an input or the constant; the inputs are marked as seen.
    fn is_there(&self, node: u32) -> bool {
        node == 0 || self.inside.has(node) || self.seen.has(node)
    }

    /// Adds the readers of a node whose operands are there.
    fn fill_above(&mut self, graph: &Graph, node: u32) -> Result<(), AllocError> {
        if graph.reads(node) > MOST_READERS {
            return Ok(());
        }
        graph.fanouts.list(node, &mut self.readers)?;
        for index in 0..self.readers.len() {
            let reader = at(&self.readers, small(index));
            let gate = graph.gate(reader);
            if graph.is_gate(reader)
                && !self.inside.has(reader)
                && self.gates.len() < MOST_GATES
                && self.is_there(gate.first >> 1)
                && self.is_there(gate.second >> 1)
            {
                self.add(reader)?;
            }
        }
        Ok(())
    }

    /// Adds gates whose operands are there. Says whether there were any.
    fn fill(&mut self, graph: &Graph) -> Result<bool, AllocError> {
        self.list_inputs(graph)?;
        let count = self.gates.len();
        for index in 0..self.inputs.len() {
            let node = at(&self.inputs, small(index));
            self.fill_above(graph, node)?;
        }
        for index in 0..count {
            let node = at(&self.gates, small(index));
            self.fill_above(graph, node)?;
        }
        Ok(self.gates.len() > count)
    }

    /// Grows at random from a gate.
    fn spread(&mut self, graph: &Graph, root: u32, random: &mut Random) -> Result<(), AllocError> {
        self.clear(graph)?;
        self.add(root)?;
        let mut failures = 0u32;
        for _step in 0..MOST_FAILURES.saturating_add(64) {
            if failures >= MOST_FAILURES || self.gates.len() >= MOST_GATES {
                break;
            }
            if !self.grow_by_one(graph, random)? {
                failures = failures.saturating_add(1);
            }
        }
        Ok(())
    }

    /// Grows a window from a gate. It may not be convex yet.
    pub fn grow(
        &mut self,
        graph: &Graph,
        root: u32,
        random: &mut Random,
    ) -> Result<(), AllocError> {
        self.most_inputs = LEAST_INPUTS.saturating_add(random.below(INPUT_NUMBERS));
        self.spread(graph, root, random)?;
        for _filling in 0..FILLINGS {
            if self.gates.len() >= MOST_GATES || !self.fill(graph)? {
                break;
            }
        }
        Ok(())
    }

    /// Whether something else reads the gate.
    fn is_output(&self, graph: &Graph, node: u32) -> bool {
        let mut link = graph.fanouts.first_of(node);
        for _reader in 0..graph.reads(node) {
            if link == NONE {
                return false;
            }
            if !self.inside.has(link >> 1) {
                return true;
            }
            link = graph.fanouts.after(link);
        }
        false
    }

    /// Puts the gates in topological order, and lists the inputs, ascending, and the outputs.
    pub fn finish(&mut self, alloc: Global, graph: &Graph) -> Result<(), AllocError> {
        self.gates = crate::loading::in_order(alloc, graph, &self.gates)?;
        self.list_inputs(graph)?;
        self.inputs.sort()?;
        self.outputs.clear();
        for index in 0..self.gates.len() {
            let node = at(&self.gates, small(index));
            if self.is_output(graph, node) {
                self.outputs.push(node)?;
            }
        }
        Ok(())
    }
}
