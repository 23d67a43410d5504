//! A graph is rebuilt with a pending substitution by a depth-first traversal from its sinks. Where the graph
//! keeps the order of its gates, the traversal first visits the gates that remain, in their order. So the
//! gates come out in topological order, and dangling ones are left out. A node that waits for itself is on a
//! cycle.
ghost use Rattle.std.specs.Prelude.{◌≡◌, OnOk, IfOk, IfSome, length};
ghost use Rattle.xag_core.specs.Xag.{HasEnds};

use crate::builder::Builder;
use crate::substitution::{NONE, Substitution};
use crate::xag::{Xag, XagGate, mark_sinks};
use rows::{at, bit_at, put};
use std::alloc::{AllocError, Global};

/// The traversal: for each old node the literal that replaces it, if any, its new literal once that is found
/// (NONE before), and whether the node was entered; and the stack of nodes that wait for others.
#[derive(Drop)]
struct Traversal {
    targets: Vec<u32>,
    found: Vec<u32>,
    open: Vec<bool>,
    stack: Vec<u32>,
    builder: Builder,
}

/// Sets the literals that replace nodes.
fn put_substituted(substitution: &Substitution, targets: &mut [u32]) {
    for (node, literal) in &substitution.substituted {
        put(targets, *node, *literal);
    }
}

/// The constant and the sources keep their literals.
fn put_given(xag: &Xag, found: &mut [u32]) {
    for node in 0..=xag.sources() {
        put(found, node, node * 2);
    }
}

/// The traversal before its first step.
fn start(alloc: Global, xag: &Xag, substitution: &Substitution) -> Result<Traversal, AllocError>
    ensures { IfOk result (λ traversal. traversal.builder.sources ≡ xag.now.sources) }
{
    let count = xag.nodes() as usize + substitution.gates.len();
    let mut targets = vec![in alloc; NONE; count]?;
    put_substituted(substitution, &mut targets);
    let mut found = vec![in alloc; NONE; count]?;
    put_given(xag, &mut found);
    let open = vec![in alloc; false; count]?;
    let stack = Vec::new(alloc);
    let builder = Builder::new(alloc, xag.sources(), xag.gates().len())?;
    Ok(Traversal {
        targets,
        found,
        open,
        stack,
        builder,
    })
}

impl Traversal {
    /// Whether the new literal for an old one is known.
    fn is_found(&self, literal: u32) -> bool {
        at(&self.found, literal >> 1) != NONE
    }

    /// The new literal for an old one.
    fn moved(&self, literal: u32) -> u32 {
        at(&self.found, literal >> 1) ^ (literal & 1)
    }

    /// Pushes the node of a literal. False where the node was entered already.
    fn enter(&mut self, literal: u32) -> Result<bool, AllocError>
        ensures { OnOk result (self.new.builder.sources ≡ self.old.builder.sources) }
    {
        let node = literal >> 1;
        if bit_at(&self.open, node) {
            return Ok(false);
        }
        put(&mut self.open, node, true);
        self.stack.push(node)?;
        Ok(true)
    }

    /// Sets the new literal of the node on top of the stack, and pops it.
    fn settle(&mut self, node: u32, literal: u32)
        ensures { self.new.builder.sources ≡ self.old.builder.sources }
    {
        put(&mut self.found, node, literal);
        self.stack.pop();
    }

    /// One step at a gate: it waits for an operand, or is made.
    fn join(&mut self, node: u32, gate: XagGate) -> Result<bool, AllocError>
        ensures { OnOk result (self.new.builder.sources ≡ self.old.builder.sources) }
    {
        if !self.is_found(gate.first) {
            return self.enter(gate.first);
        }
        if !self.is_found(gate.second) {
            return self.enter(gate.second);
        }
        let first = self.moved(gate.first);
        let second = self.moved(gate.second);
        let literal = self.builder.gate(first, second, gate.is_xor)?;
        self.settle(node, literal);
        Ok(true)
    }

    /// One step at the node on top of the stack. False at a cycle.
    fn step(
        &mut self,
        xag: &Xag,
        substitution: &Substitution,
        node: u32,
    ) -> Result<bool, AllocError>
        ensures { OnOk result (self.new.builder.sources ≡ self.old.builder.sources) }
    {
        let target = at(&self.targets, node);
        if target == NONE {
            return self.join(node, substitution.gate_at(xag, node));
        }
        if !self.is_found(target) {
            return self.enter(target);
        }
        let literal = self.moved(target);
        self.settle(node, literal);
        Ok(true)
    }

    /// Traverses until the new literal of `root` is found. False at a cycle.
    fn visit(
        &mut self,
        xag: &Xag,
        substitution: &Substitution,
        root: u32,
    ) -> Result<bool, AllocError>
        ensures { OnOk result (self.new.builder.sources ≡ self.old.builder.sources) }
    {
        if self.is_found(root) {
            return Ok(true);
        }
        if !self.enter(root)? {
            return Ok(false);
        }
        let steps = (self.found.len() as u64).saturating_mul(4);
        for _step in 0..steps {
            let Some(top) = self.stack.last() else {
                return Ok(true);
            };
            let node = *top;
            if !self.step(xag, substitution, node)? {
                return Ok(false);
            }
        }
        Ok(true)
    }

    /// The traversed graph, with these sinks.
    fn graph(self, alloc: Global, sinks: &[u32], keeps_order: bool) -> Result<Xag, AllocError>
        ensures sources { IfOk result (λ xag. xag.sources ≡ self.builder.sources) }
        ensures sinks { IfOk result (λ xag. length xag.sinks ≡ length sinks.now) }
    {
        let Traversal {
            targets: _,
            found: _,
            open: _,
            stack: _,
            builder,
        } = self;
        let built = builder.finish(alloc, sinks)?;
        Ok(built.with_order(keeps_order))
    }
}

/// Pushes what a node depends on: the literal that replaces it, or the operands of its gate.
fn put_sources(
    traversal: &Traversal,
    xag: &Xag,
    substitution: &Substitution,
    waiting: &mut Vec<u32>,
    node: u32,
) -> Result<(), AllocError> {
    let target = at(&traversal.targets, node);
    if target != NONE {
        waiting.push(target >> 1)?;
        return Ok(());
    }
    if node > xag.sources() {
        let gate = substitution.gate_at(xag, node);
        waiting.push(gate.first >> 1)?;
        waiting.push(gate.second >> 1)?;
    }
    Ok(())
}

/// The nodes that sinks read.
fn sink_nodes(alloc: Global, xag: &Xag) -> Result<Vec<u32>, AllocError> {
    let mut nodes = Vec::with_capacity(alloc, xag.sinks().len())?;
    for sink in xag.sinks() {
        nodes.push(sink >> 1)?;
    }
    Ok(nodes)
}

/// The transitive fanin of the sinks.
fn live_nodes(
    alloc: Global,
    traversal: &Traversal,
    xag: &Xag,
    substitution: &Substitution,
) -> Result<Vec<bool>, AllocError> {
    let mut live = vec![in alloc; false; traversal.found.len()]?;
    let mut waiting = sink_nodes(alloc, xag)?;
    let most = (traversal.found.len() as u64)
        .saturating_mul(3)
        .saturating_add(xag.sinks().len() as u64);
    for _taken in 0..most {
        let Some(node) = waiting.pop() else {
            break;
        };
        if !bit_at(&live, node) {
            put(&mut live, node, true);
            put_sources(traversal, xag, substitution, &mut waiting, node)?;
        }
    }
    Ok(live)
}

/// Traverses from the gates that remain, in their order, where the graph keeps it. False at a cycle.
fn traverse_gates(
    alloc: Global,
    traversal: &mut Traversal,
    xag: &Xag,
    substitution: &Substitution,
) -> Result<bool, AllocError>
    ensures { OnOk result (traversal.new.builder.sources ≡ traversal.old.builder.sources) }
{
    if !xag.keeps_order {
        return Ok(true);
    }
    let live = live_nodes(alloc, traversal, xag, substitution)?;
    for node in 0..xag.nodes() {
        if bit_at(&live, node) && !traversal.visit(xag, substitution, node.wrapping_mul(2))? {
            return Ok(false);
        }
    }
    Ok(true)
}

/// The new literals of the sinks; None at a cycle.
fn traverse_sinks(
    alloc: Global,
    traversal: &mut Traversal,
    xag: &Xag,
    substitution: &Substitution,
) -> Result<Option<Vec<u32>>, AllocError>
    ensures sources { OnOk result (traversal.new.builder.sources ≡ traversal.old.builder.sources) }
    ensures sinks { IfOk result (λ found. IfSome found (λ sinks. length sinks.items ≡ length xag.now.sinks)) }
{
    let mut sinks = Vec::with_capacity(alloc, xag.sinks().len())?;
    for sink in xag.sinks() {
        if !traversal.visit(xag, substitution, *sink)? {
            return Ok(None);
        }
        sinks.push(traversal.moved(*sink))?;
    }
    Ok(Some(sinks))
}

/// The graph with the substitution, in one traversal; None at a cycle.
fn walked(alloc: Global, xag: &Xag, substitution: &Substitution) -> Result<Option<Xag>, AllocError>
    ensures { IfOk result (λ other. IfSome other (HasEnds xag.now)) }
{
    let mut traversal = start(alloc, xag, substitution)?;
    if !traverse_gates(alloc, &mut traversal, xag, substitution)? {
        return Ok(None);
    }
    let Some(sinks) = traverse_sinks(alloc, &mut traversal, xag, substitution)? else {
        return Ok(None);
    };
    Ok(Some(traversal.graph(alloc, &sinks, xag.keeps_order)?))
}

/// Whether each gate is read by a gate or a sink.
fn is_live(alloc: Global, xag: &Xag) -> Result<bool, AllocError> {
    let mut read = vec![in alloc; false; xag.nodes() as usize]?;
    for gate in xag.gates() {
        put(&mut read, gate.first >> 1, true);
        put(&mut read, gate.second >> 1, true);
    }
    mark_sinks(xag, &mut read);
    let gates = read.get(xag.sources() as usize + 1..).unwrap_or(&[]);
    Ok(gates.iter().all(|is_read| *is_read))
}

/// The graph with a pending substitution, without dangling gates. Its gates are in the order of a depth-first
/// traversal from the sinks; where the graph keeps the order of its gates, those that remain are in that
/// order, and each new gate comes before the first gate that reads it. None where the substitution makes a
/// cycle.
pub fn rebuild(
    alloc: Global,
    xag: &Xag,
    substitution: &Substitution,
) -> Result<Option<Xag>, AllocError>
    ensures { IfOk result (λ other. IfSome other (HasEnds xag.now)) }
{
    let Some(built) = walked(alloc, xag, substitution)? else {
        return Ok(None);
    };
    if is_live(alloc, &built)? {
        return Ok(Some(built));
    }
    let unchanged = Substitution::new(alloc, &built);
    walked(alloc, &built, &unchanged)
}
