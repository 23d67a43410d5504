//! Cleanup of dangling gates: the transitive fanin of the sinks is marked, and the marked
//! gates are copied in their order.

ghost use Rattle.std.specs.Prelude.{◌≡◌, ◌+◌, length, IfOk, vec_len};
ghost use Rattle.net_theory.specs.Net.{end_of};
ghost use Rattle.net_theory.specs.Reach.{live};
ghost use Rattle.net_theory.specs.Moving.{nothing_kept, kept_after};
ghost use Rattle.net_theory.specs.Implements.{IsCleanedUp};
ghost use Rattle.net_theory.specs.Dangling.{cleanup};
ghost use Rattle.net_core.specs.Marks.{set_of, no_marks, kept};

use crate::keeping::{keep_gates, moved_sinks, start_nodes};
use crate::marking::{mark_reached, mark_sinks};
use crate::net::Net;
use net_theory::{Gate, Sig};
use std::alloc::{AllocError, Global};

/// Marks the transitive fanin of the sinks; no node may be marked before.
fn mark_live(marks: &mut [bool], net: &Net)
    requires none { set_of marks.old ≡ no_marks }
    requires count { length marks.old ≡ end_of net.now }
    ensures { set_of marks.new ≡ live net.now }
{
    mark_sinks(marks, net.sinks());
    mark_reached(marks, net);
}

/// The marks of the transitive fanin of the sinks.
fn live_marks(alloc: Global, net: &Net) -> Result<Vec<bool>, AllocError>
    ensures marks { IfOk result (λ marks. set_of marks.items ≡ live net.now) }
    ensures count { IfOk result (λ marks. vec_len marks ≡ end_of net.now) }
{
    let count = net.sources() as usize + 1 + net.gates().len();
    let mut marks = vec![in alloc; false; count]?;
    mark_live(&mut marks, net);
    Ok(marks)
}

/// The map from old nodes to new signals, and the copies of the marked gates.
fn kept_gates(alloc: Global, net: &Net, marks: &[bool]) -> Result<(Vec<Sig>, Vec<Gate>), AllocError>
    requires { length marks.now ≡ end_of net.now }
    ensures kept { IfOk result (λ x. kept x.0.items x.1.items ≡ kept_after (set_of marks.now) net.now.sources
        (nothing_kept net.now.sources) (net.now.sources + 1) net.now.gates) }
    ensures count { IfOk result (λ x. vec_len x.0 ≡ end_of net.now) }
{
    let sources = net.sources();
    let gates = net.gates();
    let mut nodes = start_nodes(alloc, sources, sources + 1 + gates.len() as u32)?;
    let mut kept = Vec::new(alloc);
    keep_gates(
        sources,
        marks,
        sources as usize + 1,
        gates,
        &mut nodes,
        &mut kept,
    )?;
    Ok((nodes, kept))
}

/// The net without its dangling gates: exactly the gates in the transitive fanin of the sinks, in their order,
/// with the same sinks.
pub fn remove_dangling(alloc: Global, net: &Net) -> Result<Net, AllocError>
    ensures exact { IfOk result (λ left. left ≡ cleanup net.now) }
    ensures cleaned_up { IfOk result (IsCleanedUp net.now) }
{
    let marks = live_marks(alloc, net)?;
    let (nodes, gates) = kept_gates(alloc, net, &marks)?;
    let sinks = moved_sinks(alloc, &nodes, net.sinks())?;
    Ok(Net::new(net.sources(), gates, sinks))
}
