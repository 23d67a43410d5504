//! Measures the cost of changing a net: substituting a chain of one step for a gate, removing dangling
//! gates (`drop`), and building the index of a net (`index`), each 200 times on a fixed pseudorandom net of
//! 100,000 gates.
ghost use Rattle.std.specs.Prelude.{◌≡◌, ◌+◌, ◌≤◌, ◌<◌, ◌^◌, length, vec_len, IfOk, All};
ghost use Rattle.net_theory.specs.Net.{AreGates, IsNet, IsSigBelow};
ghost use Rattle.window_theory.specs.Window.{Belongs};

use chain_core::read_chain;
use net_core::{Gate, Net, Op, Sig, remove_dangling};
use std::alloc::{AllocError, Global};
use subst_core::{WindowLists, rebuild_substituted};
use window_core::{Window, fanouts_of, window};

/// The next number of a linear congruential generator (Numerical Recipes).
fn next(seed: u32) -> u32 {
    seed.wrapping_mul(1664525).wrapping_add(1013904223)
}

/// A pseudorandom node of the last 2,000 below `end`.
fn node_below(seed: u32, end: u32) -> Sig
    requires { 2 ≤ end }
    ensures { IsSigBelow end result }
{
    let span = if end - 1 < 2000 { end - 1 } else { 2000 };
    Sig::Node(end - 1 - (seed >> 4) % span)
}

/// XOR gates on earlier nodes.
fn gates(alloc: Global, sources: u32, count: u32) -> Result<Vec<Gate>, AllocError>
    requires some { 1 ≤ sources }
    requires few { sources + count < 2 ^ 31 }
    ensures gates { IfOk result (λ gates. AreGates sources gates.items) }
    ensures count { IfOk result (λ gates. vec_len gates ≡ count) }
{
    let mut gates = Vec::new(alloc);
    let mut seed = 1u32;
    for index in 0..count {
        let first = next(seed);
        let second = next(first);
        seed = second;
        let end = sources + 1 + index;
        let gate = Gate {
            op: Op::new(6),
            a: node_below(first, end),
            b: node_below(second, end),
        };
        gates.push(gate)?;
    }
    Ok(gates)
}

/// Sinks that are the last nodes.
fn sinks(alloc: Global, end: u32, count: u32) -> Result<Vec<Sig>, AllocError>
    requires { count < end }
    ensures { IfOk result (λ sinks. All (IsSigBelow end) sinks.items) }
{
    let mut sinks = Vec::new(alloc);
    for index in 0..count {
        sinks.push(Sig::Node(end - 1 - index))?;
    }
    Ok(sinks)
}

/// A net of 100,000 gates over 1,000 sources, with 1,000 sinks.
fn random_net(alloc: Global) -> Result<Net, AllocError> {
    let gates = gates(alloc, 1000, 100_000)?;
    let sinks = sinks(alloc, 101_001, 1_000)?;
    Ok(Net::new(1000, gates, sinks))
}

/// The net with the chain of a block substituted for a window.
fn replaced(
    alloc: Global,
    net: &Net,
    window: &Window,
    block: &[u8],
) -> Result<Option<Net>, AllocError>
    requires net { IsNet net.now }
    requires belongs { Belongs net.now window.now }
    requires short { length block.now ≤ 1000 }
{
    let inputs = window.inputs().len() as u32;
    let outputs = window.outputs().len() as u32;
    let Ok((chain, _used)) = read_chain(alloc, block, 1, inputs, outputs) else {
        return Ok(None);
    };
    if chain.steps().len() > window.gates().len() {
        return Ok(None);
    }
    let lists = WindowLists {
        gates: window.gates(),
        inputs: window.inputs(),
        outputs: window.outputs(),
    };
    Ok(Some(rebuild_substituted(alloc, net, &lists, &chain)?))
}

/// The net with the chain of a block substituted for the window of a root and a number of gates.
fn substituted_net(
    alloc: Global,
    net: &Net,
    root: u32,
    count: u32,
    block: &[u8],
) -> Result<Option<Net>, AllocError> {
    let sources = net.sources();
    if root <= sources || root as usize > sources as usize + net.gates().len() {
        return Ok(None);
    }
    if count == 0 || count > 8 || block.len() > 1000 {
        return Ok(None);
    }
    let Some(window) = window(alloc, net, root, None, count)? else {
        return Ok(None);
    };
    replaced(alloc, net, &window, block)
}

/// The net with XOR substituted for a gate, if possible.
fn after_substitution(alloc: Global, net: Net, root: u32) -> Result<Net, AllocError> {
    match substituted_net(
        alloc,
        &net,
        root,
        1,
        b"chain 1\nx3 x1 x2 0110\nout x3\n".as_slice(),
    )? {
        Some(new) => Ok(new),
        None => Ok(net),
    }
}

/// Builds the index of a net and drops it.
fn indexed(alloc: Global, net: &Net) -> Result<(), AllocError> {
    let _fanouts = fanouts_of(alloc, net)?;
    Ok(())
}

/// Does what a word names 200 times, and returns the number of gates afterwards.
pub fn substitute(alloc: Global, word: &str, root: u32) -> Result<usize, AllocError> {
    let mut net = random_net(alloc)?;
    if word == "splice" {
        for _turn in 0..200u32 {
            net = after_substitution(alloc, net, root)?;
        }
    }
    if word == "drop" {
        for _turn in 0..200u32 {
            net = remove_dangling(alloc, &net)?;
        }
    }
    if word == "index" {
        for _turn in 0..200u32 {
            indexed(alloc, &net)?;
        }
    }
    Ok(net.gates().len())
}
