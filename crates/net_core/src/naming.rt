//! The names of a circuit's gates in the written text.

ghost use Rattle.std.specs.Prelude.{◌≡◌, ◌^◌, ◌+◌, ◌-◌, ◌≤◌, ◌<◌, [], length, map, slice_get, vec_len, All, OnOk};
ghost use Rattle.std.specs.Prelude.{IfOk};
ghost use Rattle.std.specs.List.{filter_map};
ghost use Rattle.net_theory.specs.Document.{has, latch_output};
ghost use Rattle.net_theory.specs.Naming.{control_of, taken_names, taken_set, numbered as numbered_of, each_once};
ghost use Rattle.net_theory.specs.Naming.{free_names, first_free, rest_free, named, names_after, names_in};
ghost use Rattle.net_theory.specs.Naming.{gate_names as gate_names_of, first_spare as first_spare_of};
ghost use Rattle.net_theory.specs.Naming.{second_spare as second_spare_of};
ghost use Rattle.net_theory.specs.Circuit.{IsProper};
ghost use Rattle.std.specs.Option.{option_copied};
ghost use Rattle.net_theory.specs.Net.{IsSigBelow};
ghost use Rattle.net_core.specs.Names.{with_name, naming, first_name, noted, AreFirsts, HasRoomForNames};

use crate::circuit::{Circuit, Latch};
use crate::name::Name;
use crate::net::Net;
use indexmap::IndexSet;
use itoa::Buffer;
use net_theory::{Gate, Sig};
use std::alloc::{AllocError, Global};

/// Adds a name to the set of taken names.
#[tactic(auto, unfolding(net_theory::specs::Document::has))]
fn take_name(taken: &mut IndexSet<Name>, name: &Name) -> Result<(), AllocError>
    ensures { OnOk result (taken.new.keys ≡ with_name taken.old.keys name.now) }
{
    taken.insert(name.copied()?)?;
    Ok(())
}

/// Adds names to the set of taken names.
#[tactic(auto, unfolding(net_theory::specs::Naming::each_once))]
pub fn take_names(taken: &mut IndexSet<Name>, names: &[Name]) -> Result<(), AllocError>
    ensures { OnOk result (taken.new.keys ≡ each_once taken.old.keys names.now) }
{
    let mut left = names;
    while let Some((name, rest)) = left.split_first() {
        take_name(taken, name)?;
        left = rest;
    }
    Ok(())
}

/// Adds the names of the latches' outputs to the set.
#[tactic(auto, unfolding(net_theory::specs::Naming::each_once))]
pub fn take_latches(taken: &mut IndexSet<Name>, latches: &[Latch]) -> Result<(), AllocError>
    ensures { OnOk result (taken.new.keys ≡ each_once taken.old.keys (map latch_output latches.now)) }
{
    let mut left = latches;
    while let Some((latch, rest)) = left.split_first() {
        take_name(taken, &latch.output)?;
        left = rest;
    }
    Ok(())
}

/// Adds the names of the latches' controls to the set.
#[tactic(auto, unfolding(net_theory::specs::Naming::each_once))]
fn take_controls(taken: &mut IndexSet<Name>, latches: &[Latch]) -> Result<(), AllocError>
    ensures { OnOk result (taken.new.keys ≡ each_once taken.old.keys (filter_map control_of latches.now)) }
{
    let mut left = latches;
    while let Some((latch, rest)) = left.split_first() {
        if let Some((_, control)) = &latch.control {
            take_name(taken, control)?;
        }
        left = rest;
    }
    Ok(())
}

/// Adds all names that numbered names must avoid to the set.
#[tactic(auto, using(crate::proofs::NamingLemmas::sets))]
fn take_all(taken: &mut IndexSet<Name>, circuit: &Circuit) -> Result<(), AllocError>
    ensures { OnOk result (taken.new.keys ≡ each_once taken.old.keys (taken_names circuit.now)) }
{
    take_names(taken, &circuit.inputs)?;
    take_names(taken, &circuit.outputs)?;
    take_latches(taken, &circuit.latches)?;
    take_names(taken, &circuit.clocks)?;
    take_controls(taken, &circuit.latches)
}

/// The names that numbered names must avoid.
fn taken(alloc: Global, circuit: &Circuit) -> Result<IndexSet<Name>, AllocError>
    ensures { IfOk result (λ taken. taken.keys ≡ taken_set circuit.now) }
{
    let mut taken = IndexSet::new(alloc);
    take_all(&mut taken, circuit)?;
    Ok(taken)
}

/// The numbered name `g1`, `g2` and so on.
fn numbered(alloc: Global, number: u64) -> Result<Name, AllocError>
    ensures { IfOk result (λ name. name ≡ numbered_of number) }
{
    let mut buffer = Buffer::new();
    let mut bytes = Vec::new(alloc);
    bytes.push(b'g')?;
    bytes.extend_from_slice(buffer.format(number).as_bytes())?;
    Ok(Name::new(bytes))
}

/// Whether a name is taken.
#[tactic(auto, unfolding(net_theory::specs::Document::has))]
fn is_taken(taken: &IndexSet<Name>, name: &Name) -> bool
    ensures { result ≡ has taken.now.keys name.now }
{
    taken.contains(name)
}

/// The first free numbered name with a number from `next` to below `end`, and the number after it; an empty name
/// if none is free.
fn next_free(
    alloc: Global,
    taken: &IndexSet<Name>,
    next: u64,
    end: u64,
) -> Result<(Name, u64), AllocError>
    ensures first { IfOk result (λ x. x.0 ≡ first_free (free_names taken.now.keys next (end - next))) }
    ensures rest { IfOk result (λ x. free_names taken.now.keys x.1 (end - x.1) ≡
        rest_free (free_names taken.now.keys next (end - next))) }
{
    for number in next..end {
        let name = numbered(alloc, number)?;
        if !is_taken(taken, &name) {
            return Ok((name, number + 1));
        }
    }
    Ok((Name::new(Vec::new(alloc)), end))
}

/// Records the output at index `at` as that of the node of its signal.
fn note_output(firsts: &mut [Option<usize>], sig: Sig, at: usize)
    requires { IsSigBelow (length firsts.old) sig }
    ensures { firsts.new ≡ noted firsts.old sig at }
{
    if let Sig::Node(node) = sig {
        firsts[node as usize] = Some(at);
    }
}

/// Records all outputs, the last one first, so that each node keeps its first output.
fn note_outputs(firsts: &mut [Option<usize>], outputs: &[Name], sinks: &[Sig])
    requires outputs { length outputs.now ≤ length sinks.now }
    requires below { All (IsSigBelow (length firsts.old)) sinks.now }
    requires none { AreFirsts firsts.old outputs.now (length outputs.now) sinks.now }
    ensures { AreFirsts firsts.new outputs.now 0 sinks.now }
{
    let mut at = outputs.len();
    while at > 0 {
        at -= 1;
        note_output(firsts, sinks[at], at);
    }
}

/// For each node below `count` the index of the first output that it drives.
fn first_outputs(
    alloc: Global,
    count: usize,
    outputs: &[Name],
    sinks: &[Sig],
) -> Result<Vec<Option<usize>>, AllocError>
    requires outputs { length outputs.now ≤ length sinks.now }
    requires below { All (IsSigBelow count) sinks.now }
    ensures count { IfOk result (λ firsts. vec_len firsts ≡ count) }
    ensures firsts { IfOk result (λ firsts. AreFirsts firsts.items outputs.now 0 sinks.now) }
{
    let mut firsts = vec![in alloc; None; count]?;
    note_outputs(&mut firsts, outputs, sinks);
    Ok(firsts)
}

/// The name at an index.
#[tactic(auto, using(crate::proofs::Firsts::found))]
fn name_at(names: &[Name], at: usize) -> Option<&Name>
    ensures { option_copied result ≡ slice_get names.now at }
{
    if at < names.len() {
        Some(&names[at])
    } else {
        None
    }
}

/// The first output that a node drives.
#[tactic(auto, using(crate::proofs::Firsts::found))]
fn output_at<'a>(firsts: &[Option<usize>], outputs: &'a [Name], node: usize) -> Option<&'a Name>
    requires { node < length firsts.now }
    ensures { option_copied result ≡ first_name firsts.now outputs.now node }
{
    match firsts[node] {
        Some(at) => name_at(outputs, at),
        None => None,
    }
}

/// Adds the name of the next gate: `output`, or else the next free name. Returns the number to try next.
fn push_name(
    alloc: Global,
    taken: &IndexSet<Name>,
    names: &mut Vec<Name>,
    output: Option<&Name>,
    next: u64,
    end: u64,
) -> Result<u64, AllocError>
    ensures { IfOk result (λ after. naming names.new.items (free_names taken.now.keys after (end - after)) ≡
        named (naming names.old.items (free_names taken.now.keys next (end - next))) (option_copied output.entry)) }
{
    match output {
        Some(output) => {
            names.push(output.copied()?)?;
            Ok(next)
        }
        None => {
            let (name, after) = next_free(alloc, taken, next, end)?;
            names.push(name)?;
            Ok(after)
        }
    }
}

/// The names of gates, of which the first is the node `first`, and the number to try next.
#[tactic(auto, unfolding(net_theory::specs::Naming::names_after))]
fn name_gates(
    alloc: Global,
    taken: &IndexSet<Name>,
    firsts: &[Option<usize>],
    outputs: &[Name],
    first: usize,
    gates: &[Gate],
    end: u64,
) -> Result<(Vec<Name>, u64), AllocError>
    requires { first + length gates.now ≤ length firsts.now }
    ensures { IfOk result (λ x. naming x.0.items (free_names taken.now.keys x.1 (end - x.1)) ≡
        names_after (first_name firsts.now outputs.now) (naming [] (free_names taken.now.keys 1 (end - 1))) first
        gates.now) }
{
    let mut names = Vec::new(alloc);
    let mut next = 1;
    let mut node = first;
    let mut left = gates;
    while let Some((_, rest)) = left.split_first() {
        let output = output_at(firsts, outputs, node);
        next = push_name(alloc, taken, &mut names, output, next, end)?;
        node += 1;
        left = rest;
    }
    Ok((names, next))
}

/// The names of a circuit's gates, and two more free names, for the constants.
#[derive(Drop)]
pub struct GateNames {
    pub names: Vec<Name>,
    pub first_spare: Name,
    pub second_spare: Name,
}

/// The names of a net's gates, where `outputs` are the names of its first sinks; the number to try next; and the
/// end of the numbers.
fn net_names(
    alloc: Global,
    taken: &IndexSet<Name>,
    outputs: &[Name],
    net: &Net,
) -> Result<(Vec<Name>, u64, u64), AllocError>
    requires { length outputs.now ≤ length net.now.sinks }
    ensures names { IfOk result (λ x. naming x.0.items (free_names taken.now.keys x.1 (x.2 - x.1)) ≡
        names_in taken.now.keys outputs.now net.now) }
    ensures room { IfOk result (λ _. length taken.now.keys < 2 ^ 63) }
{
    let sources = net.sources() as usize;
    let gates = net.gates();
    let firsts = first_outputs(alloc, sources + 1 + gates.len(), outputs, net.sinks())?;
    let end = gates.len() as u64 + 3 + taken.len() as u64;
    let (names, next) = name_gates(alloc, taken, &firsts, outputs, sources + 1, gates, end)?;
    Ok((names, next, end))
}

/// The names of the gates, with the next two free names.
#[tactic(auto, using(crate::proofs::Firsts::spares))]
fn with_spares(
    alloc: Global,
    taken: &IndexSet<Name>,
    outputs: &[Name],
    net: &Net,
) -> Result<GateNames, AllocError>
    requires { length outputs.now ≤ length net.now.sinks }
    ensures names { IfOk result (λ x. x.names.items ≡ (names_in taken.now.keys outputs.now net.now).names) }
    ensures first_spare { IfOk result (λ x. x.first_spare ≡
        first_free (names_in taken.now.keys outputs.now net.now).free) }
    ensures second_spare { IfOk result (λ x. x.second_spare ≡
        first_free (rest_free (names_in taken.now.keys outputs.now net.now).free)) }
    ensures room { IfOk result (λ _. length taken.now.keys < 2 ^ 63) }
{
    let (names, next, end) = net_names(alloc, taken, outputs, net)?;
    let (first_spare, next) = next_free(alloc, taken, next, end)?;
    let (second_spare, _) = next_free(alloc, taken, next, end)?;
    Ok(GateNames {
        names,
        first_spare,
        second_spare,
    })
}

/// The names of a circuit's gates in the written text, in the order of their nodes, and two more names for the
/// constants. A gate that drives outputs gets the name of the first of them, and any other gate the next of
/// `g1`, `g2` and so on that isn't the name of an input, an output, a latch's output, a clock or a control.
/// There are fewer than 2^63 of these names, since they fit into memory.
pub fn all_names(alloc: Global, circuit: &Circuit) -> Result<GateNames, AllocError>
    requires { IsProper circuit.now }
    ensures names { IfOk result (λ x. x.names.items ≡ gate_names_of circuit.now) }
    ensures first_spare { IfOk result (λ x. x.first_spare ≡ first_spare_of circuit.now) }
    ensures second_spare { IfOk result (λ x. x.second_spare ≡ second_spare_of circuit.now) }
    ensures room { IfOk result (λ _. HasRoomForNames circuit.now) }
{
    let taken = taken(alloc, circuit)?;
    with_spares(alloc, &taken, &circuit.outputs, &circuit.net)
}

/// The names of the gates, without the two for the constants.
pub fn gate_names(alloc: Global, circuit: &Circuit) -> Result<Vec<Name>, AllocError>
    requires { IsProper circuit.now }
    ensures { IfOk result (λ names. names.items ≡ gate_names_of circuit.now) }
{
    let GateNames {
        names,
        first_spare: _,
        second_spare: _,
    } = all_names(alloc, circuit)?;
    Ok(names)
}
