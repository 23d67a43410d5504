//! The window of a root, a partner or none, and a count: the gates that they take, with their inputs and
//! outputs. There is none where the partner isn't among the gates or they have more than 6 inputs; they never
//! have more outputs than gates.

ghost use Rattle.std.specs.Prelude.{◌≡◌, ◌≤◌, true, length, IfOk, IfSome, IfNone};
ghost use Rattle.window_theory.specs.Paths.{IsGate};
ghost use Rattle.window_theory.specs.Window as definition;
ghost use Rattle.window_theory.specs.Window.{AreTaken, HasPartner, IsPartnerOrNone, IsWindow};
ghost use Rattle.window_core.specs.Fanouts.{AreFanouts};
ghost use Rattle.settings.specs.Limits.{most_gates_of_window};

use crate::ascending::has;
use crate::fanouts::{Fanouts, fanouts_of};
use crate::growing::take_gates;
use crate::shape::{MOST_INPUTS, Window};
use crate::window_inputs::all_inputs;
use crate::window_outputs::all_outputs;
use net_core::Net;
use std::alloc::{AllocError, Global};

/// Whether the partner, if there is one, is one of the gates.
fn has_partner(partner: Option<u32>, gates: &[u32]) -> bool
    ensures yes { result ≡ true → HasPartner partner gates.now }
    ensures no { HasPartner partner gates.now → result ≡ true }
{
    match partner {
        Some(node) => has(gates, node),
        None => true,
    }
}

/// The window of the gates `gates`; None where the partner isn't among them or they have too many inputs.
fn window_of(
    alloc: Global,
    net: &Net,
    fanouts: &Fanouts,
    root: u32,
    partner: Option<u32>,
    gates: Vec<u32>,
) -> Result<Option<Window>, AllocError>
    requires fanouts { AreFanouts net.now fanouts.now }
    requires taken { AreTaken net.now root partner gates.items }
    requires some { 1 ≤ length gates.items }
    requires few { length gates.items ≤ most_gates_of_window }
    ensures some { IfOk result (λ answer. IfSome answer (λ w. IsWindow net.now root partner (length gates.items) w)) }
    ensures none { IfOk result (λ answer. IfNone answer ((w : definition.Window) →
        IsWindow net.now root partner (length gates.items) w → ⊥)) }
{
    let _sources = net.sources(); // for the prover: brings the net's invariant into the proof
    if !has_partner(partner, &gates) {
        return Ok(None);
    }
    let inputs = all_inputs(alloc, net, &gates)?;
    if inputs.len() > MOST_INPUTS {
        return Ok(None);
    }
    let outputs = all_outputs(alloc, net, fanouts, &gates)?;
    Ok(Some(Window::new(root, partner, gates, inputs, outputs)))
}

/// The window of a root, a partner or none, and a count from 1 to 8, by the net's fanout index. None is
/// returned exactly where fewer than `count` gates can be taken, the partner isn't among them, or they have
/// more than 6 inputs.
pub fn window_by(
    alloc: Global,
    net: &Net,
    fanouts: &Fanouts,
    root: u32,
    partner: Option<u32>,
    count: u32,
) -> Result<Option<Window>, AllocError>
    requires fanouts { AreFanouts net.now fanouts.now }
    requires root { IsGate net.now root }
    requires partner { IsPartnerOrNone net.now root partner }
    requires some { 1 ≤ count }
    requires few { count ≤ most_gates_of_window }
    ensures some { IfOk result (λ answer. IfSome answer (λ w. IsWindow net.now root partner count w)) }
    ensures none { IfOk result (λ answer. IfNone answer ((w : definition.Window) →
        IsWindow net.now root partner count w → ⊥)) }
{
    match take_gates(alloc, net, root, partner, count)? {
        Some(gates) => window_of(alloc, net, fanouts, root, partner, gates),
        None => Ok(None),
    }
}

/// As `window_by`, but with an index of its own, made for this one call.
pub fn window(
    alloc: Global,
    net: &Net,
    root: u32,
    partner: Option<u32>,
    count: u32,
) -> Result<Option<Window>, AllocError>
    requires root { IsGate net.now root }
    requires partner { IsPartnerOrNone net.now root partner }
    requires some { 1 ≤ count }
    requires few { count ≤ most_gates_of_window }
    ensures some { IfOk result (λ answer. IfSome answer (λ w. IsWindow net.now root partner count w)) }
    ensures none { IfOk result (λ answer. IfNone answer ((w : definition.Window) →
        IsWindow net.now root partner count w → ⊥)) }
{
    let fanouts = fanouts_of(alloc, net)?;
    window_by(alloc, net, &fanouts, root, partner, count)
}
