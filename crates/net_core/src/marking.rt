//! Marking the transitive fanin. The fanins of marked gates are marked from the last gate to the first, so one
//! pass in reverse topological order is enough.

ghost use Rattle.std.specs.Prelude.{◌≡◌, ◌+◌, length, All};
ghost use Rattle.net_theory.specs.Net.{IsSigBelow, end_of};
ghost use Rattle.net_theory.specs.Reach.{with_mark, marked as marked_of, reach};
ghost use Rattle.net_core.specs.Marks.{set_of, sink_marks, AreAt};

use crate::net::Net;
use net_theory::{Gate, Sig};

/// Marks the node of a signal.
fn mark(marks: &mut [bool], sig: Sig)
    requires { IsSigBelow (length marks.old) sig }
    ensures { set_of marks.new ≡ with_mark (set_of marks.old) sig }
{
    if let Sig::Node(node) = sig {
        marks[node as usize] = true;
    }
}

/// Marks the nodes of the sinks.
pub fn mark_sinks(marks: &mut [bool], sinks: &[Sig])
    requires { All (IsSigBelow (length marks.old)) sinks.now }
    ensures { set_of marks.new ≡ sink_marks (set_of marks.old) sinks.now }
{
    let mut left = sinks;
    while let Some((sink, rest)) = left.split_first() {
        mark(marks, *sink);
        left = rest;
    }
}

/// Marks the fanins of marked gates, from the last gate to the first, which comes after `sources` sources.
fn mark_gates(marks: &mut [bool], sources: usize, gates: &[Gate])
    requires gates { AreAt (sources + 1) gates.now }
    requires room { length marks.old ≡ sources + 1 + length gates.now }
    ensures { set_of marks.new ≡ marked_of (set_of marks.old) (sources + 1) gates.now }
{
    let mut left = gates;
    while let Some((gate, rest)) = left.split_last() {
        if marks[sources + 1 + rest.len()] {
            mark(marks, gate.a);
            mark(marks, gate.b);
        }
        left = rest;
    }
}

/// Marks the transitive fanin of the nodes that are already marked.
pub fn mark_reached(marks: &mut [bool], net: &Net)
    requires { length marks.old ≡ end_of net.now }
    ensures { set_of marks.new ≡ reach net.now (set_of marks.old) }
{
    mark_gates(marks, net.sources() as usize, net.gates());
}
