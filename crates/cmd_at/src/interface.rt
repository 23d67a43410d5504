//! Whether two circuits have one interface, so that their sources and sinks correspond.
ghost use Rattle.std.specs.Prelude.{◌≡◌, ◌↔◌, IsTrue};
ghost use Rattle.equiv_theory.specs.Counterexample.{HaveSameInterface};

use net_core::{Circuit, Latch, Name, Trigger};

/// Whether two names are equal.
#[tactic(auto, using(net_theory::specs::NameLaws::same_name, net_theory::specs::NameLaws::name_same))]
fn same_name(first: &Name, second: &Name) -> bool
    ensures { IsTrue result ↔ (first.now ≡ second.now) }
{
    first == second
}

/// Whether two latches have the same control.
fn same_control(first: &Option<(Trigger, Name)>, second: &Option<(Trigger, Name)>) -> bool
    ensures { IsTrue result ↔ (first.now ≡ second.now) }
{
    match (first, second) {
        (Some((trigger, name)), Some((other, after))) => *trigger == *other
            && same_name(name, after),
        (None, None) => true,
        _ => false,
    }
}

/// Whether two latches agree in output, control and initial value.
fn same_latch(first: &Latch, second: &Latch) -> bool
    ensures { IsTrue result ↔ (first.now ≡ second.now) }
{
    same_name(&first.output, &second.output)
        && same_control(&first.control, &second.control)
        && first.init == second.init
}

/// Whether two lists have the same names in the same order.
fn same_names(first: &[Name], second: &[Name]) -> bool
    ensures { IsTrue result ↔ (first.now ≡ second.now) }
{
    let mut left = first;
    let mut right = second;
    while let Some((name, names)) = left.split_first() {
        let Some((other, others)) = right.split_first() else {
            return false;
        };
        if !same_name(name, other) {
            return false;
        }
        left = names;
        right = others;
    }
    right.is_empty()
}

/// Whether the latches agree in number, order, output, control and initial value.
fn same_latches(first: &[Latch], second: &[Latch]) -> bool
    ensures { IsTrue result ↔ (first.now ≡ second.now) }
{
    let mut left = first;
    let mut right = second;
    while let Some((latch, latches)) = left.split_first() {
        let Some((other, others)) = right.split_first() else {
            return false;
        };
        if !same_latch(latch, other) {
            return false;
        }
        left = latches;
        right = others;
    }
    right.is_empty()
}

/// Whether two circuits have one interface.
pub(crate) fn same_interface(first: &Circuit, second: &Circuit) -> bool
    ensures { IsTrue result ↔ HaveSameInterface first.now second.now }
{
    same_names(&first.inputs, &second.inputs)
        && same_names(&first.outputs, &second.outputs)
        && same_names(&first.clocks, &second.clocks)
        && same_latches(&first.latches, &second.latches)
}
