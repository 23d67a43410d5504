//! A chain takes a window's place.
ghost use Rattle.std.specs.Prelude.{◌≤◌, ◌<◌, length, IfOk};
ghost use Rattle.chain_theory.specs.Agreement.{IsOver};
ghost use Rattle.op_basis.specs.Basis.{members};
ghost use Rattle.window_theory.specs.Window.{Belongs};
ghost use Rattle.improve_theory.specs.Leading.{IsReplacement};
ghost use Rattle.window_attempt.specs.LocalSpecification.{MeetsLocal};

use chain_core::Chain;
use net_core::Net;
use observe_core::lists_of;
use settings::ImproveSettings;
use std::alloc::{AllocError, Global};
use subst_core::replace_keeping;
use window_core::Window;

/// The net in which a chain of at most as many steps as the window has gates, which does what the settings ask of the
/// window, has taken its place, without dead gates. It has no more gates, and fewer where the chain has fewer steps.
pub fn replaced(
    alloc: Global,
    net: &Net,
    window: &Window,
    chain: &Chain,
    settings: ImproveSettings,
) -> Result<Net, AllocError>
    requires belongs { Belongs net.now window.now }
    requires meets { MeetsLocal settings.observe net.now window.now chain.now }
    requires few { length chain.now.steps ≤ length window.now.gates }
    requires over { IsOver (members settings.basis) chain.now }
    ensures replaces { IfOk result (λ new. IsReplacement (members settings.basis) net.now new) }
    ensures no_more { IfOk result (λ new. length new.gates ≤ length net.now.gates) }
    ensures fewer { length chain.now.steps < length window.now.gates →
        IfOk result (λ new. length new.gates < length net.now.gates) }
{
    // for the prover: brings the invariant of the net
    let _gates = net.gates();
    let lists = lists_of(window);
    let new = replace_keeping(alloc, net, &lists, chain)?;
    Ok(new)
}
