//! A window as a small net, and a small net in a window's place.

use crate::fanouts::small;
use crate::graph::Graph;
use crate::growing::Window;
use chain_walk::{AND, Choices, Gate, NONE, Operator, SmallNet, XOR, create_gate, literal_of};
use rows::{at, put};
use std::alloc::{AllocError, Global};

/// The literals of the graph's nodes in a small net, and of a small net's signals in the graph.
#[derive(Drop)]
pub struct Translation {
    local: Vec<u32>,
    global: Vec<u32>,
    created: Vec<u32>,
}

/// The literal of an old one.
fn moved(literals: &[u32], literal: u32) -> u32 {
    at(literals, literal >> 1) ^ (literal & 1)
}

/// A gate of the graph that is complemented or not: an operator as AND or XOR of two literals.
#[derive(Clone, Copy)]
struct Form {
    is_xor: bool,
    first: u32,
    second: u32,
    complemented: u32,
}

/// The form of an operator with one 1: AND of the operands, complemented where that 1 is at a 0 of theirs.
fn and_form(code: u32, complemented: u32) -> Form {
    Form {
        is_xor: false,
        first: u32::from(code == 4 || code == 8),
        second: u32::from(code == 2 || code == 8),
        complemented,
    }
}

/// The form of an operator that depends on both operands.
fn form_of(operator: Operator) -> Form {
    let code = operator.code();
    if operator.is_parity() {
        return Form {
            is_xor: true,
            first: 0,
            second: 0,
            complemented: u32::from(code == 9),
        };
    }
    if code.count_ones() == 1 {
        and_form(code, 0)
    } else {
        and_form(code ^ 15, 1)
    }
}

/// Words of the rows in which an input is 1.
fn set_input(net: &mut SmallNet, input: u32, rows: &[u32]) {
    let mut word = 0u64;
    let mut count = 0u32;
    for row in rows {
        let bit = u64::from(row.wrapping_shr(input) & 1);
        word |= bit.wrapping_shl(count & 63);
        if count & 63 == 63 {
            net.set_word(input.saturating_add(1), count >> 6, word);
            word = 0;
        }
        count = count.saturating_add(1);
    }
    if count & 63 != 0 {
        net.set_word(input.saturating_add(1), count >> 6, word);
    }
}

/// How many words so many rows take.
pub fn words_of(rows: &[u32]) -> u32 {
    let count = small(rows.len());
    (count >> 6).saturating_add(u32::from(count & 63 != 0))
}

/// The rows that there are, for each of so many outputs.
pub fn care_of(alloc: Global, rows: &[u32], outputs: usize) -> Result<Vec<u64>, AllocError> {
    let words = words_of(rows);
    let left = (rows.len() as u64 & 63) as u32;
    let mut care = Vec::new(alloc);
    for _output in 0..outputs {
        for word in 0..words {
            if left != 0 && word.saturating_add(1) == words {
                care.push(1u64.wrapping_shl(left).wrapping_sub(1))?;
            } else {
                care.push(u64::MAX)?;
            }
        }
    }
    Ok(care)
}

impl Translation {
    /// Nothing is translated yet.
    pub fn new(alloc: Global) -> Translation {
        Translation {
            local: Vec::new(alloc),
            global: Vec::new(alloc),
            created: Vec::new(alloc),
        }
    }

    /// The inputs of a small net, in the rows given.
    fn inputs_of(
        &mut self,
        alloc: Global,
        graph: &Graph,
        window: &Window,
        rows: &[u32],
    ) -> Result<SmallNet, AllocError> {
        if self.local.len() < graph.nodes() as usize {
            self.local.resize(graph.nodes() as usize, 0)?;
        }
        put(&mut self.local, 0, 0);
        let mut net = SmallNet::new(alloc, window.input_count(), words_of(rows))?;
        let mut input = 0u32;
        for node in &window.inputs {
            set_input(&mut net, input, rows);
            input = input.saturating_add(1);
            put(&mut self.local, *node, literal_of(input, 0));
        }
        Ok(net)
    }

    /// The window as a small net, in the rows of its inputs that are given; None where the basis can't make a gate.
    pub fn localize(
        &mut self,
        alloc: Global,
        graph: &Graph,
        window: &Window,
        rows: &[u32],
        choices: &Choices,
    ) -> Result<Option<SmallNet>, AllocError> {
        let mut net = self.inputs_of(alloc, graph, window, rows)?;
        for node in &window.gates {
            let gate = graph.gate(*node);
            let operator = if gate.is_xor { XOR } else { AND };
            let first = moved(&self.local, gate.first);
            let second = moved(&self.local, gate.second);
            let literal = create_gate(&mut net, choices, operator, first, second)?;
            if literal == NONE {
                return Ok(None);
            }
            put(&mut self.local, *node, literal);
        }
        for node in &window.outputs {
            net.push_output(at(&self.local, *node))?;
        }
        Ok(Some(net))
    }

    /// Makes a gate of the small net in the graph, or finds it outside the window.
    fn create(&mut self, graph: &mut Graph, window: &Window, gate: Gate) -> Result<(), AllocError> {
        let form = form_of(gate.operator);
        let first = at(&self.global, gate.first) ^ form.first;
        let second = at(&self.global, gate.second) ^ form.second;
        let literal = graph.create(first, second, form.is_xor, &window.inside)?;
        self.global.push(literal ^ form.complemented)?;
        self.created.push(literal >> 1)?;
        Ok(())
    }

    /// Makes the gates of the small net in the graph.
    fn create_all(
        &mut self,
        graph: &mut Graph,
        window: &Window,
        net: &SmallNet,
    ) -> Result<(), AllocError> {
        self.created.clear();
        self.global.clear();
        self.global.push(0)?;
        for input in &window.inputs {
            self.global.push(input.wrapping_mul(2))?;
        }
        for gate in net.gates() {
            self.create(graph, window, *gate)?;
        }
        Ok(())
    }

    /// Holds the new outputs, lest they are removed while they aren't read yet.
    fn hold_outputs(&self, graph: &mut Graph, net: &SmallNet) {
        for output in net.outputs() {
            graph.fanouts.hold(moved(&self.global, *output) >> 1);
        }
    }

    /// Takes back the holds, and removes what nothing reads.
    fn release_outputs(&self, graph: &mut Graph, net: &SmallNet) -> Result<(), AllocError> {
        for output in net.outputs() {
            graph.fanouts.release(moved(&self.global, *output) >> 1);
        }
        for node in &self.created {
            graph.remove(*node)?;
        }
        Ok(())
    }

    /// Puts a small net, which has the window's inputs and outputs, into the window's place.
    pub fn substitute(
        &mut self,
        graph: &mut Graph,
        window: &Window,
        net: &SmallNet,
    ) -> Result<(), AllocError> {
        self.create_all(graph, window, net)?;
        self.hold_outputs(graph, net);
        for (node, output) in window.outputs.iter().zip(net.outputs().iter()) {
            let literal = moved(&self.global, *output);
            graph.replace(*node, literal)?;
        }
        self.release_outputs(graph, net)
    }
}
