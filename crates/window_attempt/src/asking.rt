//! What the settings ask of a window.
ghost use Rattle.std.specs.Prelude.{IfOk};
ghost use Rattle.tt_core.specs.Words.{specification};
ghost use Rattle.window_theory.specs.Window.{Belongs};
ghost use Rattle.window_core.specs.Fanouts.{AreFanouts};
ghost use Rattle.improve_theory.specs.LocalSpecification.{IsLocalSpecification};

use net_core::Net;
use observe_core::observed_spec_by;
use std::alloc::{AllocError, Global};
use tt_core::Spec;
use window_core::{Fanouts, Window, spec_of};

/// The specification of a window with satisfiability don't-cares alone, or, where `observe` is set, its observed one,
/// which has observability don't-cares too.
#[tactic(auto, using(crate::specs::LocalLaws::asking))]
pub fn local_spec(
    alloc: Global,
    net: &Net,
    fanouts: &Fanouts,
    window: &Window,
    observe: bool,
) -> Result<Spec, AllocError>
    requires fanouts { AreFanouts net.now fanouts.now }
    requires belongs { Belongs net.now window.now }
    ensures { IfOk result (λ spec. IsLocalSpecification observe net.now window.now (specification spec)) }
{
    if observe {
        let seen = observed_spec_by(alloc, net, fanouts, window)?;
        return Ok(seen);
    }
    let own = spec_of(alloc, net, window)?;
    Ok(own)
}
