//! The observed specification of a window: its specification, with the cells of all unobservable rows free.

ghost use Rattle.std.specs.Prelude.{◌≡◌, map, bit_and, IfOk};
ghost use Rattle.tt_core.specs.Words.{specification};
ghost use Rattle.window_theory.specs.Window.{Belongs};
ghost use Rattle.window_core.specs.Fanouts.{AreFanouts};
ghost use Rattle.observe_theory.specs.FanoutCone.{FanoutCone, IsFanoutCone};
ghost use Rattle.observe_theory.specs.Observed.{IsObservedOf};
ghost use Rattle.observe_core.specs.Observing.{IsMasked, IsObservableMask};

use crate::fanout_cones::fanout_cone_by;
use crate::observing::observable_rows;
use std::alloc::{AllocError, Global};
use tt_core::Spec;
use window_core::{Fanouts, Net, Window, fanouts_of, spec_of};

/// The words, ANDed with a mask.
fn masked(alloc: Global, words: &[u64], mask: u64) -> Result<Vec<u64>, AllocError>
    ensures { IfOk result (λ new. new.items ≡ map (λ word. bit_and word mask) words.now) }
{
    words.iter().map(|word| *word & mask).collect(alloc)
}

/// A specification, with the cells of all rows free whose bit in the mask is 0.
fn relaxed(alloc: Global, spec: &Spec, mask: u64) -> Result<Spec, AllocError>
    ensures { IfOk result (IsMasked mask spec.now) }
{
    let inputs = spec.n();
    let on = masked(alloc, spec.on(), mask)?;
    let care = masked(alloc, spec.care(), mask)?;
    Ok(Spec::new(inputs, on, care))
}

/// The rows on which the window is observable, by the index of the net.
fn observable_by(
    alloc: Global,
    net: &Net,
    fanouts: &Fanouts,
    window: &Window,
) -> Result<u64, AllocError>
    requires index { AreFanouts net.now fanouts.now }
    requires belongs { Belongs net.now window.now }
    ensures { IfOk result (λ seen. (fanout_cone : FanoutCone) × IsFanoutCone net.now window.now fanout_cone ×
        IsObservableMask net.now window.now fanout_cone seen) }
{
    let fanout_cone = fanout_cone_by(alloc, net, fanouts, window)?;
    observable_rows(alloc, net, window, &fanout_cone)
}

/// The observed specification of a window, by the index of the net.
pub fn observed_spec_by(
    alloc: Global,
    net: &Net,
    fanouts: &Fanouts,
    window: &Window,
) -> Result<Spec, AllocError>
    requires index { AreFanouts net.now fanouts.now }
    requires belongs { Belongs net.now window.now }
    ensures { IfOk result (λ s. IsObservedOf net.now window.now (specification s)) }
{
    let whole = spec_of(alloc, net, window)?;
    let seen = observable_by(alloc, net, fanouts, window)?;
    let _outputs = whole.outputs(); // for the prover: the tables are a specification
    relaxed(alloc, &whole, seen)
}

/// As `observed_spec_by`, but with an index of its own, made for this one call.
pub fn observed_spec(alloc: Global, net: &Net, window: &Window) -> Result<Spec, AllocError>
    requires { Belongs net.now window.now }
    ensures { IfOk result (λ s. IsObservedOf net.now window.now (specification s)) }
{
    let fanouts = fanouts_of(alloc, net)?;
    observed_spec_by(alloc, net, &fanouts, window)
}
