//! The net in which a chain has replaced a window.

ghost use Rattle.std.specs.Prelude.{◌≡◌, ◌+◌, ◌<◌, ◌^◌, length, OnOk, IfOk, vec_len};
ghost use Rattle.net_theory.specs.Net.{IsNet, end_of};
ghost use Rattle.net_theory.specs.Moving.{sources_stay, kept_after, marked_count};
ghost use Rattle.net_core.specs.Marks.{set_of, no_marks, nodes_of, kept};
ghost use Rattle.window_theory.specs.Window.{Belongs};
ghost use Rattle.window_theory.specs.Substituted.{Fits, IsSubstitution, after_substitution, is_early, is_late};
ghost use Rattle.window_theory.specs.Substituted.{early_kept, all_kept};
ghost use Rattle.subst_core.specs.Lists.{window_of, AllBelow};
ghost use Rattle.subst_core.specs.Substitution.{HasNodeRoom};

use crate::lists::WindowLists;
use crate::marks::{mark_early, mark_others};
use crate::steps::put_chain;
use chain_core::Chain;
use net_core::{Gate, Net, Sig, keep_gates, moved_sinks, start_nodes};
use std::alloc::{AllocError, Global};

/// Copies the window's inputs with their transitive fanin, and marks them.
fn keep_early(
    net: &Net,
    window: &WindowLists,
    marks: &mut [bool],
    nodes: &mut [Sig],
    gates: &mut Vec<Gate>,
) -> Result<(), AllocError>
    requires inputs { AllBelow (end_of net.now) window.now.inputs.now }
    requires marks { set_of marks.old ≡ no_marks }
    requires mark_count { length marks.old ≡ end_of net.now }
    requires nodes { nodes_of nodes.old ≡ sources_stay net.now.sources }
    requires node_count { length nodes.old ≡ end_of net.now }
    requires gates { vec_len gates.old ≡ 0 }
    ensures marks { OnOk result (set_of marks.new ≡ is_early net.now (window_of window.now)) }
    ensures kept { OnOk result (kept nodes.new gates.new.items ≡ early_kept net.now (window_of window.now)) }
{
    let sources = net.sources();
    mark_early(marks, net, window.inputs);
    keep_gates(
        sources,
        marks,
        sources as usize + 1,
        net.gates(),
        nodes,
        gates,
    )?;
    Ok(())
}

/// Copies all nodes outside the window that aren't marked.
fn keep_late(
    net: &Net,
    window: &WindowLists,
    marks: &mut [bool],
    nodes: &mut [Sig],
    gates: &mut Vec<Gate>,
) -> Result<(), AllocError>
    requires inside { AllBelow (end_of net.now) window.now.gates.now }
    requires marks { set_of marks.old ≡ is_early net.now (window_of window.now) }
    requires mark_count { length marks.old ≡ end_of net.now }
    requires node_count { length nodes.old ≡ end_of net.now }
    requires room { let late = is_late net.now (window_of window.now) in
        net.now.sources + vec_len gates.old + marked_count late (net.now.sources + 1) net.now.gates < 2 ^ 31 }
    ensures { let late = is_late net.now (window_of window.now) in let k = kept nodes.old gates.old.items in
        OnOk result (kept nodes.new gates.new.items ≡
        kept_after late net.now.sources k (net.now.sources + 1) net.now.gates) }
{
    let sources = net.sources();
    mark_others(marks, window.gates);
    keep_gates(
        sources,
        marks,
        sources as usize + 1,
        net.gates(),
        nodes,
        gates,
    )?;
    Ok(())
}

/// Copies all gates; `nodes` gets the new signals of the old nodes.
fn keep_all(
    alloc: Global,
    net: &Net,
    window: &WindowLists,
    chain: &Chain,
    marks: &mut [bool],
    nodes: &mut [Sig],
) -> Result<Vec<Gate>, AllocError>
    requires belongs { Belongs net.now (window_of window.now) }
    requires fits { Fits (window_of window.now) chain.now }
    requires room { HasNodeRoom net.now (window_of window.now) chain.now }
    requires marks { set_of marks.old ≡ no_marks }
    requires mark_count { length marks.old ≡ end_of net.now }
    requires nodes { nodes_of nodes.old ≡ sources_stay net.now.sources }
    requires node_count { length nodes.old ≡ end_of net.now }
    ensures { IfOk result (λ gates. kept nodes.new gates.items ≡ all_kept net.now (window_of window.now) chain.now) }
{
    let sources = net.sources();
    let mut gates = Vec::with_capacity(alloc, net.gates().len() + chain.steps().len())?;
    keep_early(net, window, marks, nodes, &mut gates)?;
    put_chain(alloc, sources, window, chain, nodes, &mut gates)?;
    keep_late(net, window, marks, nodes, &mut gates)?;
    Ok(gates)
}

/// The net with all gates, and with the new signals of its sinks.
fn rebuild_in(
    alloc: Global,
    net: &Net,
    window: &WindowLists,
    chain: &Chain,
    marks: &mut [bool],
    nodes: &mut [Sig],
) -> Result<Net, AllocError>
    requires belongs { Belongs net.now (window_of window.now) }
    requires fits { Fits (window_of window.now) chain.now }
    requires room { HasNodeRoom net.now (window_of window.now) chain.now }
    requires marks { set_of marks.old ≡ no_marks }
    requires mark_count { length marks.old ≡ end_of net.now }
    requires nodes { nodes_of nodes.old ≡ sources_stay net.now.sources }
    requires node_count { length nodes.old ≡ end_of net.now }
    ensures exact { IfOk result (λ new. new ≡ after_substitution net.now (window_of window.now) chain.now) }
    ensures after_substitution { IfOk result (IsSubstitution net.now (window_of window.now) chain.now) }
{
    let gates = keep_all(alloc, net, window, chain, marks, nodes)?;
    let sinks = moved_sinks(alloc, nodes, net.sinks())?;
    Ok(Net::new(net.sources(), gates, sinks))
}

/// The net in which the chain has replaced the window: its sinks have the values that the net gives when the
/// window's outputs have the values of the chain's outputs.
pub fn rebuild_substituted(
    alloc: Global,
    net: &Net,
    window: &WindowLists,
    chain: &Chain,
) -> Result<Net, AllocError>
    requires belongs { Belongs net.now (window_of window.now) }
    requires fits { Fits (window_of window.now) chain.now }
    requires room { HasNodeRoom net.now (window_of window.now) chain.now }
    ensures exact { IfOk result (λ new. new ≡ after_substitution net.now (window_of window.now) chain.now) }
    ensures after_substitution { IfOk result (IsSubstitution net.now (window_of window.now) chain.now) }
    ensures net { IsNet net.now }
{
    let sources = net.sources();
    let count = sources as usize + 1 + net.gates().len();
    let mut marks = vec![in alloc; false; count]?;
    let mut nodes = start_nodes(alloc, sources, count as u32)?;
    rebuild_in(alloc, net, window, chain, &mut marks, &mut nodes)
}
