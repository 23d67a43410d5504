//! Ascending lists of nodes.

ghost use Rattle.std.specs.Prelude.{◌≡◌, ℕ, true, false, ◌-◌, ◌≤◌, ◌<◌, length, slice_index_or, OnOk};
ghost use Rattle.window_theory.specs.Nodes.{among, IsRising};
ghost use Rattle.window_core.specs.Rising.{put as put_in, put_sig as put_sig_in};

use net_core::Sig;
use std::alloc::AllocError;

/// Whether `node` is one of `nodes`.
pub fn has(nodes: &[u32], node: u32) -> bool
    ensures { result ≡ among nodes.now node }
{
    nodes.iter().any(|one| node == *one)
}

/// How many of `nodes`, which ascend, are at most `node`.
fn rank(nodes: &[u32], node: u32) -> usize
    ensures within { result ≤ length nodes.now }
    ensures above { (k d : ℕ) → result ≤ k → k < length nodes.now → node < slice_index_or nodes.now k d }
    ensures below { 1 ≤ result → (d : ℕ) → slice_index_or nodes.now (result - 1) d ≤ node }
{
    let mut count = nodes.len();
    while count > 0 && nodes[count - 1] > node {
        count -= 1;
    }
    count
}

/// Whether a node is the last of the first `count`.
fn is_last(nodes: &[u32], count: usize, node: u32) -> bool
    requires { count ≤ length nodes.now }
    ensures yes { result ≡ true → (1 ≤ count) × (slice_index_or nodes.now (count - 1) 0 ≡ node) }
    ensures no { result ≡ false → (d : ℕ) → 1 ≤ count → slice_index_or nodes.now (count - 1) d ≡ node → ⊥ }
{
    if count == 0 {
        return false;
    }
    nodes[count - 1] == node
}

/// Inserts a node into an ascending list, unless it is there.
pub fn put(nodes: &mut Vec<u32>, node: u32) -> Result<(), AllocError>
    requires { IsRising nodes.old.items }
    ensures { OnOk result (nodes.new.items ≡ put_in node nodes.old.items) }
{
    let count = rank(nodes, node);
    if is_last(nodes, count, node) {
        return Ok(());
    }
    nodes.insert(count, node)?;
    Ok(())
}

/// Inserts the node that a signal names, if it names one.
pub fn put_sig(nodes: &mut Vec<u32>, sig: Sig) -> Result<(), AllocError>
    requires { IsRising nodes.old.items }
    ensures { OnOk result (nodes.new.items ≡ put_sig_in sig nodes.old.items) }
{
    if let Sig::Node(node) = sig {
        put(nodes, node)?;
    }
    Ok(())
}
