//! Followers: fanouts of a set of gates that aren't in the set. The index of the net lists the fanouts of a
//! node in ascending order, so the least follower is found after at most as many others as the set has gates.
//! 0 stands for none.

ghost use Rattle.std.specs.Prelude.{◌≡◌, ℕ, ◌+◌, ◌<◌, true, false, ◌⊎◌};
ghost use Rattle.net_theory.specs.Net.{end_of};
ghost use Rattle.window_theory.specs.Nodes.{among};
ghost use Rattle.window_theory.specs.Paths.{Reads};
ghost use Rattle.window_core.specs.Fanouts.{AreFanouts, IsLater};
ghost use Rattle.observe_core.specs.Following.{IsLeastFanout, IsLesser, IsNextFollower};

use window_core::{Fanouts, Net, first_fanout, gate_at, has, later_of, node_of};

/// The next higher fanout of `node`, above its fanout `gate`; 0 where there is none.
fn fanout_after(net: &Net, fanouts: &Fanouts, gate: u32, node: u32) -> u32
    requires index { AreFanouts net.now fanouts.now }
    requires reads { Reads net.now gate node }
    ensures { IsLater net.now (gate + 1) node result }
{
    let later = later_of(net, fanouts, gate);
    if node_of(gate_at(net, gate).a) == node {
        return later.first;
    }
    later.second
}

/// Whether a node is one of `gates`; 0 is none.
fn is_inside(gates: &[u32], node: u32) -> bool
    ensures some { result ≡ true → node ≡ 0 → ⊥ }
    ensures inside { result ≡ true → among gates.now node ≡ true }
    ensures outside { result ≡ false → (node ≡ 0) ⊎ (among gates.now node ≡ false) }
{
    node != 0 && has(gates, node)
}

/// The least fanout of `node` outside `gates`; 0 where there is none.
fn least_fanout(net: &Net, fanouts: &Fanouts, gates: &[u32], node: u32) -> u32
    requires index { AreFanouts net.now fanouts.now }
    requires node { node < end_of net.now }
    ensures { IsLeastFanout net.now gates.now node result }
{
    let mut next = first_fanout(fanouts, net, node);
    while is_inside(gates, next) {
        next = fanout_after(net, fanouts, next, node);
    }
    next
}

/// The lesser of two nodes, where 0 stands for none.
fn lesser(first: u32, second: u32) -> u32
    ensures { IsLesser first second result }
{
    if first == 0 {
        return second;
    }
    if second == 0 || first < second {
        return first;
    }
    second
}

/// The least follower of `gates`; 0 where there is none.
pub(crate) fn next_follower(net: &Net, fanouts: &Fanouts, gates: &[u32]) -> u32
    requires index { AreFanouts net.now fanouts.now }
    requires gates { (p : ℕ) → among gates.now p ≡ true → p < end_of net.now }
    ensures { IsNextFollower net.now gates.now result }
{
    let mut best = 0;
    let mut left = gates;
    while let Some((node, rest)) = left.split_first() {
        best = lesser(best, least_fanout(net, fanouts, gates, *node));
        left = rest;
    }
    best
}
