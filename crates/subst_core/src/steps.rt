//! A chain's steps as gates of a net. Its inputs are the new signals of the window's inputs, and its steps
//! get the next free nodes.

ghost use Rattle.std.specs.Prelude.{◌≡◌, ◌+◌, ◌-◌, ◌≤◌, ◌<◌, ◌^◌, ◌++◌};
ghost use Rattle.std.specs.Prelude.{length, map, All, OnOk, IfOk, vec_len};
ghost use Rattle.chain_theory.specs.Chain.{AreSteps, NamesPlace};
ghost use Rattle.chain_core.specs.Steps.{step_of, steps_of};
ghost use Rattle.net_core.specs.Marks.{nodes_of, kept};
ghost use Rattle.window_theory.specs.Substituted.{Fits, out_sig, with_sigs};
ghost use Rattle.subst_core.specs.Lists.{window_of, AllBelow};
ghost use Rattle.subst_core.specs.Placing.{chain_sig as chain_sig_of, chain_gate, with_chain};

use crate::lists::WindowLists;
use chain_core::{Chain, Out, Step};
use net_core::{Gate, Sig};
use std::alloc::{AllocError, Global};

/// The signal of a place of the chain; the first step is the node `first`.
fn chain_sig(nodes: &[Sig], inputs: &[u32], first: u32, node: u32) -> Sig
    requires some { 1 ≤ node }
    requires below { AllBelow (length nodes.now) inputs.now }
    requires room { first + node < 2 ^ 32 }
    ensures { result ≡ chain_sig_of (nodes_of nodes.now) inputs.now first node }
{
    let index = node as usize - 1;
    if index < inputs.len() {
        nodes[inputs[index] as usize]
    } else {
        Sig::Node(first + (index - inputs.len()) as u32)
    }
}

/// The gate of a step.
fn step_gate(nodes: &[Sig], inputs: &[u32], first: u32, step: &Step) -> Gate
    requires first { 1 ≤ step.now.j }
    requires second { 1 ≤ step.now.k }
    requires below { AllBelow (length nodes.now) inputs.now }
    requires first_room { first + step.now.j < 2 ^ 32 }
    requires second_room { first + step.now.k < 2 ^ 32 }
    ensures { result ≡ chain_gate (nodes_of nodes.now) inputs.now first (step_of step.now) }
{
    Gate {
        op: step.op,
        a: chain_sig(nodes, inputs, first, step.j),
        b: chain_sig(nodes, inputs, first, step.k),
    }
}

/// Appends a gate for each step.
fn push_steps(
    nodes: &[Sig],
    inputs: &[u32],
    first: u32,
    steps: &[Step],
    gates: &mut Vec<Gate>,
) -> Result<(), AllocError>
    requires steps { AreSteps (length inputs.now) (steps_of steps.now) }
    requires below { AllBelow (length nodes.now) inputs.now }
    requires room { first + length inputs.now + length steps.now < 2 ^ 32 }
    ensures { let made = map (chain_gate (nodes_of nodes.now) inputs.now first) (steps_of steps.now) in
        OnOk result (gates.new.items ≡ gates.old.items ++ made) }
{
    for step in steps {
        gates.push(step_gate(nodes, inputs, first, step))?;
    }
    Ok(())
}

/// The signal of an output of the chain.
fn sig_of_out(nodes: &[Sig], inputs: &[u32], first: u32, out: Out) -> Sig
    requires names { NamesPlace (2 ^ 32 - first - 1) out }
    requires below { AllBelow (length nodes.now) inputs.now }
    ensures { result ≡ out_sig (chain_sig_of (nodes_of nodes.now) inputs.now first) out }
{
    match out {
        Out::Zero => Sig::Zero,
        Out::One => Sig::One,
        Out::Place(node) => chain_sig(nodes, inputs, first, node),
    }
}

/// The signals of the chain's outputs.
fn sigs_of_outs(
    alloc: Global,
    nodes: &[Sig],
    inputs: &[u32],
    first: u32,
    outs: &[Out],
) -> Result<Vec<Sig>, AllocError>
    requires names { All (NamesPlace (2 ^ 32 - first - 1)) outs.now }
    requires below { AllBelow (length nodes.now) inputs.now }
    ensures { let sig = out_sig (chain_sig_of (nodes_of nodes.now) inputs.now first) in
        IfOk result (λ sigs. sigs.items ≡ map sig outs.now) }
{
    let mut sigs = Vec::new(alloc);
    for out in outs {
        sigs.push(sig_of_out(nodes, inputs, first, *out))?;
    }
    Ok(sigs)
}

/// Sets the signals of the nodes `outputs`.
fn put_sigs(nodes: &mut [Sig], outputs: &[u32], sigs: &[Sig])
    requires below { AllBelow (length nodes.old) outputs.now }
    requires count { length sigs.now ≡ length outputs.now }
    ensures { nodes_of nodes.new ≡ with_sigs (nodes_of nodes.old) outputs.now sigs.now }
{
    let mut left = outputs;
    while let Some((node, rest)) = left.split_last() {
        nodes[*node as usize] = sigs[rest.len()];
        left = rest;
    }
}

/// Appends the chain's steps, and sets the signals of the window's outputs to those of the chain's outputs.
pub(crate) fn put_chain(
    alloc: Global,
    sources: u32,
    window: &WindowLists,
    chain: &Chain,
    nodes: &mut [Sig],
    gates: &mut Vec<Gate>,
) -> Result<(), AllocError>
    requires fits { Fits (window_of window.now) chain.now }
    requires inputs { AllBelow (length nodes.old) window.now.inputs.now }
    requires outputs { AllBelow (length nodes.old) window.now.outputs.now }
    requires room { sources + vec_len gates.old < 2 ^ 31 }
    ensures { let k = kept nodes.old gates.old.items in
        OnOk result (kept nodes.new gates.new.items ≡ with_chain sources (window_of window.now) chain.now k) }
{
    let first = sources + 1 + gates.len() as u32;
    push_steps(nodes, window.inputs, first, chain.steps(), gates)?;
    let sigs = sigs_of_outs(alloc, nodes, window.inputs, first, chain.outs())?;
    put_sigs(nodes, window.outputs, &sigs);
    Ok(())
}
