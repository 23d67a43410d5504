//! The specification of a window, its local function with don't-cares. Its care rows are the patterns that
//! its inputs take in their fanin cone; the other rows are its satisfiability don't-cares. Its values come
//! from its own gates, simulated on all rows of its inputs at once.

ghost use Rattle.std.specs.Prelude.{◌≡◌, ℕ, ◌≤◌, ◌<◌, ◌^◌, true, [], length, map, slice_get, Some, All, IfOk};
ghost use Rattle.chain_theory.specs.Operator.{digit};
ghost use Rattle.net_theory.specs.declared.data.Sig.TheVariants as sigs;
ghost use Rattle.net_theory.specs.Net.{end_of};
ghost use Rattle.tt_core.specs.Words.{specification};
ghost use Rattle.lane_sim.specs.Cone.{IsSigAmong, nodes as nodes_in};
ghost use Rattle.lane_sim.specs.Words.{AreWords, ArePatterns};
ghost use Rattle.window_theory.specs.Nodes.{among, IsRising};
ghost use Rattle.window_theory.specs.Paths.{IsGate};
ghost use Rattle.window_theory.specs.Window.{Belongs};
ghost use Rattle.window_theory.specs.Care.{IsSpecificationOf};
ghost use Rattle.window_core.specs.Expanding.{AreAbove, gate_nodes};
ghost use Rattle.window_core.specs.Masking.{IsCareMask, AreNumbered, HasGateValues, AreMasked};
ghost use Rattle.chain_theory.specs.Limits.{most_inputs};

use crate::fanin_cones::fanin_cone;
use crate::growing::gate_at;
use crate::shape::{MOST_INPUTS, MOST_OUTPUTS, Window};
use lane_sim::{Cone, Words, cone_words, lanes_of, patterns};
use net_core::{Gate, Net, Sig};
use std::alloc::{AllocError, Global};
use tt_core::Spec;

/// The signals that name `nodes`.
pub fn signals_of(alloc: Global, nodes: &[u32]) -> Result<Vec<Sig>, AllocError>
    ensures { IfOk result (λ signals. signals.items ≡ map sigs.Node nodes.now) }
{
    nodes.iter().map(|node| Sig::Node(*node)).collect(alloc)
}

/// The patterns that some nodes take in a cone, as the bits of a mask.
fn shown_by(alloc: Global, cone: &Cone, nodes: &[u32]) -> Result<u64, AllocError>
    requires few { length nodes.now ≤ most_inputs }
    requires known { All (IsSigAmong (nodes_in cone.now)) (map sigs.Node nodes.now) }
    ensures { IfOk result (λ mask. ArePatterns cone.now (map sigs.Node nodes.now) mask) }
{
    let words = cone_words(alloc, cone)?;
    let signals = signals_of(alloc, nodes)?;
    Ok(patterns(&words, cone, &signals))
}

/// The care rows of some nodes, as the bits of a mask.
fn care_rows(alloc: Global, net: &Net, nodes: &[u32]) -> Result<u64, AllocError>
    requires rising { IsRising nodes.now }
    requires few { length nodes.now ≤ most_inputs }
    requires within { (p : ℕ) → among nodes.now p ≡ true → p < end_of net.now }
    ensures { IfOk result (λ mask. IsCareMask net.now nodes.now mask) }
{
    let _sources = net.sources(); // for the prover: brings the net's invariant into the proof
    let cone = fanin_cone(alloc, net, nodes)?;
    shown_by(alloc, &cone, nodes)
}

/// The gates at some nodes, with their nodes.
fn numbered_gates(alloc: Global, net: &Net, nodes: &[u32]) -> Result<Vec<(u32, Gate)>, AllocError>
    requires { (p : ℕ) → among nodes.now p ≡ true → IsGate net.now p }
    ensures { IfOk result (λ gates. AreNumbered net.now nodes.now [] gates.items) }
{
    let mut gates = Vec::with_capacity(alloc, nodes.len())?;
    let mut left = nodes;
    while let Some((node, rest)) = left.split_first() {
        let gate = gate_at(net, *node);
        gates.push((
            *node,
            Gate {
                op: gate.op,
                a: gate.a,
                b: gate.b,
            },
        ))?;
        left = rest;
    }
    Ok(gates)
}

/// The gates of a window as a cone over its inputs.
fn inner_cone(alloc: Global, net: &Net, window: &Window) -> Result<Cone, AllocError>
    requires { Belongs net.now window.now }
    ensures leaves { IfOk result (λ cone. cone.leaves ≡ window.now.inputs) }
    ensures nodes { IfOk result (λ cone. gate_nodes cone.gates ≡ window.now.gates) }
    ensures gates { IfOk result (λ cone. AreAbove net.now cone.leaves cone.gates) }
{
    let _sources = net.sources(); // for the prover: brings the net's invariant into the proof
    let mut inputs = Vec::with_capacity(alloc, MOST_INPUTS)?;
    inputs.extend_from_slice(window.inputs())?;
    let gates = numbered_gates(alloc, net, window.gates())?;
    Ok(Cone::new(inputs, gates))
}

/// The index of `node` in `nodes`.
fn index_of(nodes: &[u32], node: u32) -> usize
    requires { among nodes.now node ≡ true }
    ensures { slice_get nodes.now result ≡ Some node }
{
    let mut index = 0;
    while nodes[index] != node {
        index += 1;
    }
    index
}

/// The word of one of a window's gates: its values on all rows of the inputs.
fn gate_word(window: &Window, cone: &Cone, words: &Words, node: u32) -> u64
    requires words { AreWords cone.now words.now }
    requires leaves { cone.now.leaves ≡ window.now.inputs }
    requires gates { gate_nodes cone.now.gates ≡ window.now.gates }
    requires few { length window.now.inputs ≤ most_inputs }
    requires node { among window.now.gates node ≡ true }
    ensures { HasGateValues cone.now node result }
{
    let inputs = cone.leaves().len();
    lanes_of(words)[inputs + index_of(window.gates(), node)]
}

/// The specification with these care rows, from the words of all gates.
fn masked_spec(
    alloc: Global,
    window: &Window,
    cone: &Cone,
    words: &Words,
    mask: u64,
) -> Result<Spec, AllocError>
    requires words { AreWords cone.now words.now }
    requires leaves { cone.now.leaves ≡ window.now.inputs }
    requires gates { gate_nodes cone.now.gates ≡ window.now.gates }
    requires outputs { (p : ℕ) → among window.now.outputs p ≡ true → among window.now.gates p ≡ true }
    requires low { (t : ℕ) → digit mask t ≡ true → t < 2 ^ length window.now.inputs }
    ensures { IfOk result (λ s. (s.n ≡ length window.now.inputs) ×
        AreMasked cone.now mask window.now.outputs [] s.on s.care) }
{
    let mut on = Vec::with_capacity(alloc, MOST_OUTPUTS)?;
    let mut cares = Vec::with_capacity(alloc, MOST_OUTPUTS)?;
    let inputs = window.inputs().len();
    let mut left = window.outputs();
    while let Some((node, rest)) = left.split_first() {
        on.push(gate_word(window, cone, words, *node) & mask)?;
        cares.push(mask)?;
        left = rest;
    }
    Ok(Spec::new(inputs as u32, on, cares))
}

/// The specification with these care rows, from a cone that has all gates.
fn spec_by(alloc: Global, window: &Window, cone: &Cone, mask: u64) -> Result<Spec, AllocError>
    requires leaves { cone.now.leaves ≡ window.now.inputs }
    requires gates { gate_nodes cone.now.gates ≡ window.now.gates }
    requires outputs { (p : ℕ) → among window.now.outputs p ≡ true → among window.now.gates p ≡ true }
    requires low { (t : ℕ) → digit mask t ≡ true → t < 2 ^ length window.now.inputs }
    ensures { IfOk result (λ s. (s.n ≡ length window.now.inputs) ×
        AreMasked cone.now mask window.now.outputs [] s.on s.care) }
{
    let words = cone_words(alloc, cone)?;
    masked_spec(alloc, window, cone, &words, mask)
}

/// The specification of a window: on a care row of its inputs the cells are the values of its outputs, and
/// all other cells are don't-cares. Inputs and outputs are in ascending order.
pub fn spec_of(alloc: Global, net: &Net, window: &Window) -> Result<Spec, AllocError>
    requires { Belongs net.now window.now }
    ensures { IfOk result (λ s. IsSpecificationOf net.now window.now (specification s)) }
{
    let _sources = net.sources(); // for the prover: brings the net's invariant into the proof
    let mask = care_rows(alloc, net, window.inputs())?;
    let cone = inner_cone(alloc, net, window)?;
    spec_by(alloc, window, &cone, mask)
}
