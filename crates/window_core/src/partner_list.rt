//! Partners of a gate, its siblings: gates below it that share a fanin with it, the eight greatest of them.
//! They are found by walking down the fanout lists of its two fanins, so the cost doesn't grow with the
//! number of fanouts.

ghost use Rattle.std.specs.Prelude.{ℕ, ◌≤◌, ◌<◌, IfOk};
ghost use Rattle.window_theory.specs.Paths.{IsGate};
ghost use Rattle.window_theory.specs.Partner.{ArePartners};
ghost use Rattle.window_core.specs.Fanouts.{AreFanouts, IsEarlier};

use crate::fanouts::{Fanouts, earlier_of, fanouts_of, node_of};
use crate::growing::gate_at;
use net_core::Net;
use std::alloc::{AllocError, Global};

/// The most partners of a gate.
const MOST_PARTNERS: usize = 8;

/// The next fanout of `node` below the gate `found`: `fanout`, or where that is `found` itself, the fanout
/// below it.
fn onward(net: &Net, fanouts: &Fanouts, node: u32, fanout: u32, found: u32) -> u32
    requires index { AreFanouts net.now fanouts.now }
    requires found { IsGate net.now found }
    ensures { (bound : ℕ) → IsEarlier net.now bound node fanout → fanout ≤ found → found < bound →
        IsEarlier net.now found node result }
{
    if fanout != found {
        return fanout;
    }
    let gate = gate_at(net, found);
    let earlier = earlier_of(net, fanouts, found);
    if node_of(gate.a) == node {
        earlier.first
    } else {
        earlier.second
    }
}

/// The partners of a gate, descending: the lower fanouts of its two fanins, merged from the greatest on.
pub fn partners_by(
    alloc: Global,
    net: &Net,
    fanouts: &Fanouts,
    root: u32,
) -> Result<Vec<u32>, AllocError>
    requires fanouts { AreFanouts net.now fanouts.now }
    requires root { IsGate net.now root }
    ensures { IfOk result (λ partners. ArePartners net.now root partners.items) }
{
    let gate = gate_at(net, root);
    let first = node_of(gate.a);
    let second = node_of(gate.b);
    let earlier = earlier_of(net, fanouts, root);
    let mut a = earlier.first;
    let mut b = earlier.second;
    let mut partners = Vec::with_capacity(alloc, MOST_PARTNERS)?;
    for _found in 0..MOST_PARTNERS {
        let next = a.max(b);
        if next == 0 {
            return Ok(partners);
        }
        a = onward(net, fanouts, first, a, next);
        b = onward(net, fanouts, second, b, next);
        partners.push(next)?;
    }
    Ok(partners)
}

/// As `partners_by`, but with an index of its own, made for this one call.
pub fn partners(alloc: Global, net: &Net, root: u32) -> Result<Vec<u32>, AllocError>
    requires { IsGate net.now root }
    ensures { IfOk result (λ partners. ArePartners net.now root partners.items) }
{
    let fanouts = fanouts_of(alloc, net)?;
    partners_by(alloc, net, &fanouts, root)
}
